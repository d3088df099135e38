//! The transitions of one body that fit one state.

ghost use Rattle.std.specs.Prelude.{◌≡◌, false};
ghost use Rattle.est_meaning.specs.ClauseContexts.{transitions_of};
ghost use Rattle.plain_transitions.specs.FittingTransitions.{IsTransition, IsNextFitting};
ghost use Rattle.plain_transitions.specs.FittingTransitions.{are_timed, AreUntimed};

use crate::numbers::{least_above, smaller};
use crate::table::item_at;
use crate::written::Written;
use est_meaning::rule_scope::outline::Outline;
use est_syntax::specification::Spec;
use std::marker::Model;

/// The transitions of a body, of which those are found one after the other that fit a state.
#[derive(Drop)]
pub struct Fits<'b, 't> {
    pub(crate) spec: &'t Spec,
    pub(crate) outline: &'t Outline,
    pub(crate) body: u32,
    pub(crate) state: Option<u32>,
    pub(crate) written: &'b [Written<'t>],
    pub(crate) each: &'b [u32],
    pub(crate) named: &'b [u32],
    pub(crate) timed: bool,
}

impl<'b, 't> Model for Fits<'b, 't> {
    ghost use Rattle.std.specs.Coded.{codes};
    ghost use Rattle.est_syntax.specs.contracts.specification.Spec as tree;
    ghost use Rattle.est_meaning.specs.rule_scope.contracts.outline.Outline as declarations;
    ghost use Rattle.plain_transitions.specs.FittingTransitions.{AtState};
    ghost use Rattle.plain_transitions.specs.inside.BodyTables.{AreFitting};

    ghost Value = { AtState };

    ghost coded = { Prim.hlevel (codes, tree.the_row.coded, declarations.the_row.coded) };

    ghost view = { λ f. record {
      text = record { spec = f.spec.now; outline = f.outline.now };
      body = f.body;
      state = f.state;
    } };

    ghost invariant = { λ f. AreFitting (record {
      text = record { spec = f.spec.now; outline = f.outline.now };
      body = f.body;
      state = f.state;
    }) f.written.now f.each.now f.named.now f.timed };
}

impl<'b, 't> Fits<'b, 't> {
    /// The transition of the body that has a number, which begins at 1.
    pub fn transition(&self, number: u32) -> Option<&'b Written<'t>>
        ensures { IsTransition self.now.text self.now.body number result }
    {
        if number == 0 {
            return None;
        }
        item_at(self.written, number as usize - 1)
    }

    /// Whether a transition of the body has a delay, whatever states it fits.
    pub fn is_timed(&self) -> bool
        ensures timed { result ≡ are_timed (transitions_of self.now.text self.now.body) }
        ensures untimed { result ≡ false → AreUntimed self.now.text self.now.body }
    {
        self.timed
    }

    /// The number of the first transition after this one whose `from` fits the state.
    pub fn next(&self, after: u32) -> Option<u32>
        ensures { IsNextFitting self.now.text self.now.body self.now.state after result }
    {
        let each = least_above(self.each, after);
        smaller(each, least_above(self.named, after))
    }
}
