//! What a name means at a place.

ghost use Rattle.std.specs.Prelude.{◌≡◌};
ghost use Rattle.rule_scope.specs.Outline.{entry_at, in_force, found, is_shared_sort, is_shared};
ghost use Rattle.rule_scope.specs.Outline.{seen_around, meant};
ghost use Rattle.rule_scope.specs.Predeclared.{predeclared_name, undeclared};

use crate::declaration::{Meant, Sort};
use crate::outline::Outline;
use crate::predeclared::predeclared_name;
use est_syntax::name::Name;

// Whether a nested body sees a declaration of this sort around it.
fn is_shared_sort(sort: Sort, closed: bool) -> bool
    ensures { result ≡ is_shared_sort sort closed }
{
    match sort {
        Sort::Constant => true,
        Sort::TypeName => true,
        Sort::Channel => true,
        Sort::Header => true,
        Sort::Body => true,
        Sort::Procedure => closed,
        Sort::Function => closed,
        _ => false,
    }
}

// What a name means that nothing in force declares.
fn undeclared(name: &Name) -> Meant
    ensures { result ≡ undeclared (predeclared_name name.now.bytes) }
{
    match predeclared_name(name) {
        None => Meant::Nothing,
        Some(known) => Meant::Predeclared(known),
    }
}

impl Outline {
    // The innermost declaration of a name that is in force at a place.
    fn found(&self, regions: &[u32], name: &Name, place: u32) -> Option<u32>
        ensures { result ≡ found self.now regions.now name.now.bytes place }
    {
        for region in regions {
            if let Some(standing) = self.standing(*region, name) {
                if standing.last < place {
                    return Some(standing.place);
                }
            }
        }
        None
    }

    // Whether a nested body sees around it what is declared at a place.
    fn is_shared(&self, place: u32) -> bool
        ensures { result ≡ is_shared (entry_at self.now place) }
    {
        match self.entry(place) {
            None => false,
            Some(entry) => is_shared_sort(entry.declared.sort, entry.closed),
        }
    }

    /// What a name means at a place.
    pub fn meant(&self, name: &Name, place: u32) -> Meant
        ensures { result ≡ meant self.now name.now.bytes place }
    {
        let Some(extent) = self.extent(place) else {
            return undeclared(name);
        };
        if let Some(declared) = self.found(extent.own.get().as_slice(), name, place) {
            return Meant::Seen(declared);
        }
        match self.found(extent.around.get().as_slice(), name, place) {
            None => undeclared(name),
            Some(declared) => if self.is_shared(declared) {
                Meant::Seen(declared)
            } else {
                Meant::Unseen(declared)
            },
        }
    }
}
