//! Contexts: the clauses that a transition has, in the order in which they were given.

ghost use Rattle.std.specs.Prelude.{◌≡◌, ◌≤◌, length, OnOk};
ghost use Rattle.est_meaning.specs.ClauseContexts.{context_with, context_after};
ghost use Rattle.plain_transitions.specs.inside.HeldClauses.{held, count_before};

use crate::clauses::is_same_kind;
use est_syntax::transition::Clause;
use std::alloc::AllocError;

/// How many clauses of a context stand before the one that is of the kind of this clause.
pub(crate) fn count_before(clause: &Clause, context: &[&Clause]) -> usize
    ensures count { result ≡ count_before clause.now context.now }
    ensures within { result ≤ length context.now }
{
    let mut count = 0;
    for other in context {
        if is_same_kind(clause, other) {
            return count;
        }
        count += 1;
    }
    count
}

/// Gives a clause more, which takes the place of that of its kind and of all after that one.
pub(crate) fn give<'t>(context: &mut Vec<&'t Clause>, clause: &'t Clause) -> Result<(), AllocError>
    ensures { OnOk result
        (held context.new.items ≡ context_with (held context.old.items) clause.now) }
{
    let count = count_before(clause, context.as_slice());
    context.truncate(count);
    context.push(clause)?;
    Ok(())
}

/// Gives clauses in order.
pub(crate) fn give_all<'t>(
    context: &mut Vec<&'t Clause>,
    clauses: &'t [Clause],
) -> Result<(), AllocError>
    ensures { OnOk result
        (held context.new.items ≡ context_after (held context.old.items) clauses.now) }
{
    for clause in clauses {
        give(context, clause)?;
    }
    Ok(())
}
