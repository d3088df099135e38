//! Whose guard is evaluated.

use plain_transitions::written::Written;

/// A transition of a living instance, with the state of that and the number of the transition in
/// its body.
#[derive(Clone, Copy)]
pub struct Candidate<'c, 't> {
    pub instance: u32,
    pub state: Option<u32>,
    pub number: u32,
    pub transition: &'c Written<'t>,
}
