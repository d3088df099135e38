//! The least of the faults that are noted.

ghost use Rattle.std.specs.Prelude.{◌≡◌};
ghost use Rattle.est_syntax.specs.Least.{is_before};
ghost use Rattle.rule_scope.specs.LeastSoFar.{lesser, least_with};
ghost use Rattle.est_syntax.specs.Faults.{broken, broken_if};

use est_syntax::rule::{Fault, Rule};

/// The least of the faults that were noted so far.
#[derive(Clone, Copy)]
pub struct Least {
    pub at: Option<Fault>,
}

// Whether one fault comes before another: by place, and at one place by the number of the rule.
fn is_before(one: Fault, other: Fault) -> bool
    ensures { result ≡ is_before one other }
{
    if one.place < other.place {
        true
    } else if other.place < one.place {
        false
    } else {
        (one.rule as u8) < (other.rule as u8)
    }
}

// The lesser of the least fault so far and another.
fn lesser(least: Option<Fault>, fault: Fault) -> Option<Fault>
    ensures { result ≡ lesser least fault }
{
    match least {
        None => Some(fault),
        Some(other) => if is_before(fault, other) {
            Some(fault)
        } else {
            Some(other)
        },
    }
}

impl Least {
    /// Notes that a rule is broken at a place.
    pub fn note(&mut self, place: u32, rule: Rule)
        ensures { self.new.at ≡ least_with self.old.at (broken place rule) }
    {
        self.at = lesser(self.at, Fault { place, rule });
    }

    /// Notes that a rule is broken at a place, under a condition.
    pub fn note_if(&mut self, is_broken: bool, place: u32, rule: Rule)
        ensures { self.new.at ≡ least_with self.old.at (broken_if is_broken place rule) }
    {
        if is_broken {
            self.note(place, rule);
        }
    }
}
