//! What the routine whose name stands at a place may name.

ghost use Rattle.std.specs.Prelude.{◌≡◌};
ghost use Rattle.rule_scope.specs.Outline.{entry_at};
ghost use Rattle.rule_uses.specs.Closed.{is_free_sort, is_free_entry, is_free};

use est_syntax::name::Used;
use rule_scope::declaration::{Meant, Sort};
use rule_scope::outline::Outline;

// Whether the routine may name a declaration of this sort at a place.
fn is_free_sort(sort: Sort, closed: bool, routine: u32, place: u32) -> bool
    ensures { result ≡ is_free_sort sort closed routine place }
{
    match sort {
        Sort::Variable => routine < place,
        Sort::ModuleVariable => routine < place,
        Sort::Point => routine < place,
        Sort::Procedure => place == routine || closed,
        Sort::Function => place == routine || closed,
        _ => true,
    }
}

// Whether the routine may name what is declared at a place.
fn is_free_at(outline: &Outline, routine: u32, place: u32) -> bool
    ensures { result ≡ is_free_entry (entry_at outline.now place) routine place }
{
    match outline.entry(place) {
        None => true,
        Some(entry) => is_free_sort(entry.declared.sort, entry.closed, routine, place),
    }
}

/// Whether the routine may name what a name means.
pub fn is_free(outline: &Outline, routine: u32, used: &Used) -> bool
    ensures { result ≡ is_free outline.now routine used.now }
{
    match outline.meant(&used.name, used.place) {
        Meant::Nothing => true,
        Meant::Predeclared(_) => true,
        Meant::Unseen(place) => is_free_at(outline, routine, place),
        Meant::Seen(place) => is_free_at(outline, routine, place),
    }
}
