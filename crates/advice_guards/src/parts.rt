//! What comes of parts of guards.

use advice_tokens::note::append_note;
use advice_tokens::place::spot_of;
use est_lexer::tokens::Tokens;
use est_meaning::mean_blocks::fault::BlockFault;
use est_meaning::mean_blocks::stop::Stop;
use est_syntax::est_items::Twin;
use est_syntax::expression::Expr;
use est_syntax::kind::Kind;
use est_values::value::Value;
use plain_blocks::expressions::value_of;
use plain_frames::plain_systems::system::Working;
use plain_operands::site::Site;
use plain_values::ordinals::is_true;
use plain_values::taking::within_kind;
use plain_values::values::ordinal;
use std::alloc::{AllocError, Global};

/// What comes of a part of a guard: its ordinal, a fault, or that it passes its limit.
#[derive(Clone, Copy)]
pub(crate) enum Came {
    Ordinal(i32),
    Fault(BlockFault),
    Limit,
}

/// Where the parts of a guard are evaluated, each with a limit of statements for itself.
#[derive(Clone, Copy)]
pub(crate) struct View<'v, 't> {
    pub site: Site<'v, 't>,
    pub limit: u32,
    pub working: &'v Working,
    pub tokens: &'v Tokens<'v>,
}

// What comes of an ordinal or its fault.
fn came_by(number: Result<i32, BlockFault>) -> Came {
    match number {
        Ok(number) => Came::Ordinal(number),
        Err(fault) => Came::Fault(fault),
    }
}

// What comes of a value. Errs where memory ran out.
fn came_of(value: Result<Value, Stop>) -> Result<Came, AllocError> {
    match value {
        Ok(value) => {
            let number = ordinal(&value);
            drop(value);
            Ok(came_by(number))
        }
        Err(Stop::Fault(fault)) => Ok(Came::Fault(fault)),
        Err(Stop::Limit) => Ok(Came::Limit),
        Err(Stop::Memory(error)) => Err(error),
    }
}

/// What comes of a part of a guard.
pub(crate) fn evaluated(alloc: Global, view: &View, part: &Expr) -> Result<Came, AllocError> {
    let mut working = view.working.twin(alloc)?;
    let mut left = view.limit;
    let value = value_of(alloc, &view.site, part, &mut working, &mut left);
    drop(working);
    came_of(value)
}

/// What comes of a part whose ordinal has to be one of a kind.
pub(crate) fn within(kind: &Kind, came: Came) -> Came {
    match came {
        Came::Ordinal(number) => came_by(within_kind(kind, number)),
        _ => came,
    }
}

/// Whether a condition of which this comes holds.
pub(crate) fn holds(came: Came) -> bool {
    match came {
        Came::Ordinal(number) => is_true(number),
        _ => false,
    }
}

// What a fault of an expression is.
fn fault_sentence(fault: BlockFault) -> &'static str {
    match fault {
        BlockFault::Range => " has a fault: a value is out of its range",
        BlockFault::Divide => " has a fault: a divisor is 0, or that of a 'mod' is negative",
        BlockFault::Undefined => " has a fault: what is read has no value",
        BlockFault::NoCase => " has a fault: no choice of a 'case' has the value",
        BlockFault::NoModule => " has a fault: the instance that is named does not live",
        _ => " has a fault",
    }
}

// Why a part does not hold of which this comes.
fn sentence(came: Came) -> &'static str {
    match came {
        Came::Ordinal(_) => " is false then",
        Came::Fault(fault) => fault_sentence(fault),
        Came::Limit => " passes the limit of statements",
    }
}

/// Adds why a part of a guard does not hold of which this comes.
pub(crate) fn append_came(
    alloc: Global,
    view: &View,
    part: &Expr,
    subject: &str,
    came: Came,
    notes: &mut String,
) -> Result<(), AllocError> {
    let mut text = String::from_str(alloc, subject)?;
    text.push_str(sentence(came))?;
    append_note(
        alloc,
        notes,
        spot_of("specification", view.tokens, part.place),
        &text,
    )
}

/// Adds that a part of a guard has no value of which this comes, if that is so, and answers whether
/// it is.
pub(crate) fn append_unvalued(
    alloc: Global,
    view: &View,
    part: &Expr,
    subject: &str,
    came: Came,
    notes: &mut String,
) -> Result<bool, AllocError> {
    match came {
        Came::Ordinal(_) => Ok(false),
        _ => {
            append_came(alloc, view, part, subject, came, notes)?;
            Ok(true)
        }
    }
}
