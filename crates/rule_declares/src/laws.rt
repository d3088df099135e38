//! What holds of the outline of every tree, whatever rules it breaks.
ghost use Rattle.rule_declares.specs.OutlineLaws.{NamesStandOnce, ElementsAreCounted};

/// A name stands once in its region.
#[tactic(auto, using(crate::proofs::Regions::names_once))]
pub fn names_stand_once()
    ensures { NamesStandOnce }
{}

/// The elements of an interaction point are those that its subscripts give it, and nothing else has
/// elements.
#[tactic(auto, using(crate::proofs::Elements::have_elements))]
pub fn elements_are_counted()
    ensures { ElementsAreCounted }
{}
