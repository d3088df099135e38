//! Uses of names.
#![tactic(auto, using(crate::proofs::LeastLaws::least_append))]

ghost use Rattle.std.specs.Prelude.{◌≡◌};
ghost use Rattle.rule_scope.specs.LeastSoFar.{least_with};
ghost use Rattle.rule_scope.specs.Outline.{entry_at};
ghost use Rattle.rule_scope.specs.Uses.{is_sort, meaning, use_faults, uses_faults};
ghost use Rattle.rule_scope.specs.Uses.{declaration_of, twice_faults, twices_faults};
ghost use Rattle.rule_scope.specs.Uses.{again_faults, agains_faults};

use crate::declaration::{Meant, Sort};
use crate::least::Least;
use crate::outline::Outline;
use est_syntax::name::Used;
use est_syntax::rule::Rule;

impl Outline {
    /// What a name means at its place.
    pub fn meaning(&self, used: &Used) -> Meant
        ensures { result ≡ meaning self.now used.now }
    {
        self.meant(&used.name, used.place)
    }

    /// Whether what is declared at a place is of this sort.
    pub fn is_sort(&self, sort: Sort, place: u32) -> bool
        ensures { result ≡ is_sort sort (entry_at self.now place) }
    {
        match self.entry(place) {
            None => false,
            Some(entry) => sort == entry.declared.sort,
        }
    }

    /// The place of the declaration that a name means, where it is seen and of this sort.
    pub fn declaration_of(&self, sort: Sort, used: &Used) -> Option<u32>
        ensures { result ≡ declaration_of self.now sort used.now }
    {
        match self.meaning(used) {
            Meant::Seen(place) => if self.is_sort(sort, place) {
                Some(place)
            } else {
                None
            },
            _ => None,
        }
    }

    /// Notes what the use of a name breaks where this sort is wanted.
    pub fn check_use(&self, sort: Sort, used: &Used, least: &mut Least)
        ensures { least.new.at ≡ least_with least.old.at (use_faults self.now sort used.now) }
    {
        match self.meaning(used) {
            Meant::Nothing => least.note(used.place, Rule::UnknownName),
            Meant::Predeclared(_) => least.note(used.place, Rule::WrongSort),
            Meant::Unseen(_) => least.note(used.place, Rule::NotSeenHere),
            Meant::Seen(place) => if !self.is_sort(sort, place) {
                least.note(used.place, Rule::WrongSort);
            },
        }
    }

    /// Notes what the uses of names break where this sort is wanted.
    pub fn check_uses(&self, sort: Sort, names: &[Used], least: &mut Least)
        ensures { least.new.at ≡ least_with least.old.at (uses_faults self.now sort names.now) }
    {
        for used in names {
            self.check_use(sort, used, least);
        }
    }

    /// Notes a name that is declared where its region has it already.
    pub fn check_twice(&self, used: &Used, least: &mut Least)
        ensures { least.new.at ≡ least_with least.old.at (twice_faults self.now used.now) }
    {
        let is_declared = self.entry(used.place).is_some();
        least.note_if(!is_declared, used.place, Rule::DeclaredTwice);
    }

    /// Notes the names that are declared where their region has them already.
    pub fn check_twices(&self, names: &[Used], least: &mut Least)
        ensures { least.new.at ≡ least_with least.old.at (twices_faults self.now names.now) }
    {
        for used in names {
            self.check_twice(used, least);
        }
    }

    /// Notes a name of a channel or a record that stands there already.
    pub fn check_again(&self, used: &Used, least: &mut Least)
        ensures { least.new.at ≡ least_with least.old.at (again_faults self.now used.now) }
    {
        let is_member = self.member(used.place).is_some();
        least.note_if(!is_member, used.place, Rule::DeclaredTwice);
    }

    /// Notes the names of a channel or a record that stand there already.
    pub fn check_agains(&self, names: &[Used], least: &mut Least)
        ensures { least.new.at ≡ least_with least.old.at (agains_faults self.now names.now) }
    {
        for used in names {
            self.check_again(used, least);
        }
    }
}
