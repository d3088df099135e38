//! Choices of transitions.

/// A choice of a transition of an instance, by their numbers. That of a transition of its body and
/// that of a tuple of its `any` variables begin at 1.
#[derive(Clone, Copy, PartialEq, Eq)]
pub struct Firing {
    pub instance: u32,
    pub transition: u32,
    pub choice: u32,
}
