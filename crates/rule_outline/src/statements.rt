//! What statements declare: the names of `all`.
#![tactic(auto, using(crate::proofs::StatementRows::rows))]

ghost use Rattle.std.specs.Prelude.{◌≡◌, OnOk, IfOk};
ghost use Rattle.rule_declares.specs.Bodies.{statement_place, over_header, all_by, all_named};
ghost use Rattle.rule_declares.specs.Bodies.{arm_lying, within_declares};
ghost use Rattle.rule_declares.specs.Bodies.{statement_declares, statements_declare};
ghost use Rattle.rule_outline.specs.inside.DeclaredParts.{second_declares};
ghost use Rattle.rule_outline.specs.inside.DeclaredParts.{arm_declares, arms_declare};

use crate::dims::shared_dims;
use crate::entries::{module_variable, typed};
use crate::lasts::text_last;
use crate::within::{in_section, inner};
use est_syntax::constant::Constant;
use est_syntax::est_items::Boxed;
use est_syntax::kind::Kinds;
use est_syntax::name::Used;
use est_syntax::statement::{Arm, Statement};
use est_syntax::type_text::TypeText;
use rule_declares::rule_kinds::constants::constant_place;
use rule_declares::rule_kinds::texts::text_type;
use rule_declares::rule_scope::declaration::{Entry, Section, Sort, Within};
use rule_declares::rule_scope::outline::Outline;
use std::alloc::{AllocError, Global};

/// The place of the first token of a statement.
pub fn statement_place(statement: &Statement) -> u32
    ensures { result ≡ statement_place statement.now }
{
    match statement {
        Statement::Empty { place } => *place,
        Statement::Compound { place, .. } => *place,
        Statement::Assign { place, .. } => *place,
        Statement::Call { place, .. } => *place,
        Statement::If { place, .. } => *place,
        Statement::Case { place, .. } => *place,
        Statement::While { place, .. } => *place,
        Statement::Repeat { place, .. } => *place,
        Statement::For { place, .. } => *place,
        Statement::All { place, .. } => *place,
        Statement::Output { place, .. } => *place,
        Statement::Init { place, .. } => *place,
        Statement::Release { place, .. } => *place,
        Statement::Connect { place, .. } => *place,
        Statement::Disconnect { place, .. } => *place,
        Statement::Attach { place, .. } => *place,
        Statement::Detach { place, .. } => *place,
    }
}

// The header that an `all` goes over, if it does.
fn over_header(outline: &Outline, over: &TypeText) -> Option<u32>
    ensures { result ≡ over_header outline.now over.now }
{
    match over {
        TypeText::Named(used) => outline.declaration_of(Sort::Header, used),
        _ => None,
    }
}

// What is known of the name of an `all`.
fn all_by(
    alloc: Global,
    within: &Within,
    outline: &Outline,
    over: &TypeText,
) -> Result<Entry, AllocError>
    ensures { IfOk result (λ entry. entry ≡
        all_by within.now outline.now over.now (over_header outline.now over.now)) }
{
    match over_header(outline, over) {
        Some(header) => {
            let dims = shared_dims(alloc, Some(Kinds::new(alloc)))?;
            Ok(module_variable(within, dims, Some(header)))
        },
        None => Ok(typed(within, Sort::Variable, text_type(alloc, outline, over)?)),
    }
}

// The name of an `all`.
fn all_named(
    alloc: Global,
    within: &Within,
    name: &Used,
    over: &TypeText,
    outline: &mut Outline,
) -> Result<(), AllocError>
    ensures { OnOk result
        (outline.new ≡ all_named within.now name.now over.now outline.old) }
{
    let inside = in_section(Section::All, within)?;
    let entry = all_by(alloc, &inside, outline, over)?;
    outline.declare(within, name, text_last(over), entry)
}

// The constants of an arm, which lie where its `case` does.
fn arm_lying(
    within: &Within,
    constants: &[Constant],
    outline: &mut Outline,
) -> Result<(), AllocError>
    ensures { OnOk result (outline.new ≡ arm_lying within.now constants.now outline.old) }
{
    match constants.first() {
        None => Ok(()),
        Some(constant) => outline.lie(within, constant_place(constant)),
    }
}

// What a statement declares, after the text lies where it begins.
#[cycle(statement)]
fn within_declares(
    alloc: Global,
    within: &Within,
    statement: &Statement,
    outline: &mut Outline,
) -> Result<(), AllocError>
    ensures { OnOk result (outline.new ≡ within_declares within.now statement.now outline.old) }
{
    match statement {
        Statement::Compound { turn, .. } => statements(alloc, within, turn.as_slice(), outline),
        Statement::If { first, second, .. } => {
            statement_declares(alloc, within, first.get(), outline)?;
            second_declares(alloc, within, second, outline)
        }
        Statement::Case { arms, .. } => arms_declare(alloc, within, arms.as_slice(), outline),
        Statement::While { turn, .. } => statement_declares(alloc, within, turn.get(), outline),
        Statement::Repeat { turn, until, .. } => {
            statements(alloc, within, turn.as_slice(), outline)?;
            outline.lie(within, until.get().place)
        }
        Statement::For { turn, .. } => statement_declares(alloc, within, turn.get(), outline),
        Statement::All {
            name,
            over,
            turn,
            place,
        } => {
            let inside = inner(alloc, within, *place)?;
            all_named(alloc, &inside, name, over.get(), outline)?;
            statement_declares(alloc, &inside, turn.get(), outline)
        }
        _ => Ok(()),
    }
}

// The other statement of an `if`.
#[cycle(statement)]
fn second_declares(
    alloc: Global,
    within: &Within,
    second: &Option<Boxed<Statement>>,
    outline: &mut Outline,
) -> Result<(), AllocError>
    ensures { OnOk result (outline.new ≡ second_declares within.now second.now outline.old) }
{
    match second {
        None => Ok(()),
        Some(second) => statement_declares(alloc, within, second.get(), outline),
    }
}

// A statement.
#[cycle(statement)]
fn statement_declares(
    alloc: Global,
    within: &Within,
    statement: &Statement,
    outline: &mut Outline,
) -> Result<(), AllocError>
    ensures { OnOk result
        (outline.new ≡ statement_declares within.now statement.now outline.old) }
{
    outline.lie(within, statement_place(statement))?;
    within_declares(alloc, within, statement, outline)
}

/// Statements in order.
#[cycle(statement)]
pub fn statements(
    alloc: Global,
    within: &Within,
    items: &[Statement],
    outline: &mut Outline,
) -> Result<(), AllocError>
    ensures { OnOk result (outline.new ≡ statements_declare within.now items.now outline.old) }
{
    for item in items {
        statement_declares(alloc, within, item, outline)?;
    }
    Ok(())
}

// A choice of a `case`.
#[cycle(statement)]
fn arm_declares(
    alloc: Global,
    within: &Within,
    arm: &Arm,
    outline: &mut Outline,
) -> Result<(), AllocError>
    ensures { OnOk result (outline.new ≡ arm_declares within.now arm.now outline.old) }
{
    arm_lying(within, arm.constants.as_slice(), outline)?;
    statement_declares(alloc, within, &arm.turn, outline)
}

// The choices of a `case`.
#[cycle(statement)]
fn arms_declare(
    alloc: Global,
    within: &Within,
    arms: &[Arm],
    outline: &mut Outline,
) -> Result<(), AllocError>
    ensures { OnOk result (outline.new ≡ arms_declare within.now arms.now outline.old) }
{
    for arm in arms {
        arm_declares(alloc, within, arm, outline)?;
    }
    Ok(())
}
