//! The name of an interaction point or of a module variable with its subscripts (ISO 9074).
#![tactic(auto, using(rule_scope::proofs::LeastLaws::least_append))]

ghost use Rattle.std.specs.Prelude.{◌≡◌};
ghost use Rattle.rule_scope.specs.LeastSoFar.{least_with};
ghost use Rattle.rule_scope.specs.Uses.{declaration_of};
ghost use Rattle.rule_expressions.specs.Accesses.{subscripts_at, access_faults};

use crate::expressions::check_taken;
use crate::receivers::Receiver;
use est_syntax::expression::Access;
use rule_scope::declaration::Sort;
use rule_scope::least::Least;
use rule_scope::outline::Outline;

// What takes the subscripts after a name where this sort is wanted.
fn subscripts_at(outline: &Outline, sort: Sort, access: &Access) -> Option<Receiver>
    ensures { result ≡ subscripts_at (declaration_of outline.now sort access.now.name) }
{
    match outline.declaration_of(sort, &access.name) {
        None => None,
        Some(place) => Some(Receiver::Subscripts(place)),
    }
}

/// Checks a name with subscripts where this sort is wanted.
pub fn check_access(outline: &Outline, sort: Sort, access: &Access, least: &mut Least)
    ensures { least.new.at ≡ least_with least.old.at (access_faults outline.now sort access.now) }
{
    outline.check_use(sort, &access.name, least);
    let receiver = subscripts_at(outline, sort, access);
    let _taken = check_taken(
        outline,
        receiver,
        access.name.place,
        access.index.as_slice(),
        least,
    );
}
