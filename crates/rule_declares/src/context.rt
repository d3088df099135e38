//! The clauses of a transition, as far as names go.

ghost use Rattle.std.specs.Prelude.{◌≡◌, ◌≤◌, take, length, OnOk};
ghost use Rattle.rule_declares.specs.Contexts.{kind_of, region_of, dropped, given};

use est_syntax::est_items::Items;
use est_syntax::transition::Clause;
use std::alloc::AllocError;

/// A kind of clause (ISO 9074, clause). `provided` and `provided otherwise` are one.
#[derive(Clone, Copy, PartialEq, Eq)]
pub enum ClauseKind {
    From,
    To,
    When,
    Provided,
    Any,
    Priority,
    Delay,
}

/// A clause that was given, and the region that it opens: that of the `any` variables, or that of
/// the parameters of the interaction of a `when`.
#[derive(Clone, Copy)]
pub struct Given {
    pub kind: ClauseKind,
    pub region: Option<u32>,
}

/// Clauses in the order in which they were given.
pub type Context = Items<Given>;

impl ClauseKind {
    /// The kind of a clause.
    pub fn of(clause: &Clause) -> ClauseKind
        ensures { result ≡ kind_of clause.now }
    {
        match clause {
            Clause::From { .. } => ClauseKind::From,
            Clause::To { .. } => ClauseKind::To,
            Clause::When { .. } => ClauseKind::When,
            Clause::Provided { .. } => ClauseKind::Provided,
            Clause::Otherwise { .. } => ClauseKind::Provided,
            Clause::Any { .. } => ClauseKind::Any,
            Clause::Priority { .. } => ClauseKind::Priority,
            Clause::Delay { .. } => ClauseKind::Delay,
        }
    }

    /// The region that the clause of this kind opens.
    pub fn region(self, context: &[Given]) -> Option<u32>
        ensures { result ≡ region_of self context.now }
    {
        for given in context {
            if self == given.kind {
                return given.region;
            }
        }
        None
    }

    // How many clauses were given before that of this kind.
    fn position(self, context: &[Given]) -> usize
        ensures front { take result context.now ≡ dropped self context.now }
        ensures bound { result ≤ length context.now }
    {
        let mut count = 0;
        for given in context {
            if self == given.kind {
                return count;
            }
            count += 1;
        }
        count
    }

    /// Lets go of the clause of this kind, and of all that were given after it.
    pub fn renew(self, context: &mut Context)
        ensures { context.new ≡ dropped self context.old }
    {
        let count = self.position(context.as_slice());
        context.items.truncate(count);
    }
}

/// Gives a clause, which opens this region, if any.
pub fn give(context: &mut Context, kind: ClauseKind, region: Option<u32>) -> Result<(), AllocError>
    ensures { OnOk result (context.new ≡ given kind region context.old) }
{
    context.push(Given { kind, region })?;
    Ok(())
}
