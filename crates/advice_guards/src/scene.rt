//! Where guards are looked at.

use est_lexer::tokens::Tokens;
use plain_frames::plain_systems::system::System;
use plain_transitions::behaviour::Behaviour;

/// A system with the behaviour that goes on from it, under a limit of statements, and the tokens of
/// its specification.
#[derive(Clone, Copy)]
pub struct Scene<'s, 't> {
    pub behaviour: &'s Behaviour<'t>,
    pub system: &'s System,
    pub limit: u32,
    pub tokens: &'s Tokens<'s>,
}
