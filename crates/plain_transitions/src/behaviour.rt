//! A text with the transitions of its bodies.
ghost use Rattle.std.specs.Prelude.{◌≡◌, [], ◌∷◌, IfOk};
ghost use Rattle.std.specs.Option.{option_map};
ghost use Rattle.est_meaning.specs.ClauseContexts.{FullTransition, transitions_of};
ghost use Rattle.est_meaning.specs.TransitionChoices.{any_frame, any_tuples, numbered};
ghost use Rattle.plain_transitions.specs.FittingTransitions.{IsTransition};
ghost use Rattle.plain_transitions.specs.WrittenTransitions.{IsWritten};

use crate::choices::chosen_frame;
use crate::fits::Fits;
use crate::tables::{Tables, tables_of};
use crate::written::Written;
use est_meaning::mean_blocks::frame::Frame;
use est_meaning::rule_scope::outline::Outline;
use est_syntax::est_items::Twin;
use est_syntax::specification::Spec;
use plain_names::plain_texts::text::Text;
use plain_names::prepared::text_of;
use std::alloc::{AllocError, Global};
use std::marker::Model;

/// A specification with what it declares and the transitions of its bodies, which are found by
/// their numbers and by the states that they fit.
pub struct Behaviour<'t> {
    text: Text<'t>,
    tables: Tables<'t>,
    // What a choice without `any` variables has, which all such choices share.
    unbound: Frame,
}

// In words, so that where it is let go of there is one call.
impl<'t> Drop for Behaviour<'t> {
    fn drop(self) {
        let Behaviour {
            text,
            tables,
            unbound,
        } = self;
        drop(text);
        drop(tables);
        drop(unbound);
    }
}

impl<'t> Model for Behaviour<'t> {
    ghost use Rattle.std.specs.Coded.{codes};
    ghost use Rattle.est_syntax.specs.contracts.specification.Spec as tree;
    ghost use Rattle.est_meaning.specs.rule_scope.contracts.outline.Outline as declarations;
    ghost use Rattle.est_meaning.specs.mean_blocks.TextByPlace.{Text};
    ghost use Rattle.std.specs.Prelude.{◌≡◌, []};
    ghost use Rattle.plain_transitions.specs.inside.BodyTables.{HasTables};

    ghost Value = { Text };

    ghost coded = { Prim.hlevel (codes, tree.the_row.coded, declarations.the_row.coded) };

    ghost view = { λ b. b.text };

    ghost invariant = { λ b. HasTables b.text b.tables.entries × (b.unbound ≡ []) };
}

impl<'t> Behaviour<'t> {
    /// The behaviour of a specification that declares this.
    pub fn new(
        alloc: Global,
        spec: &'t Spec,
        outline: &'t Outline,
    ) -> Result<Behaviour<'t>, AllocError>
        ensures { IfOk result
            (λ behaviour. behaviour ≡ record { spec = spec.now; outline = outline.now }) }
    {
        let text = text_of(alloc, spec, outline)?;
        let tables = match tables_of(alloc, &text) {
            Ok(tables) => tables,
            Err(error) => {
                drop(text);
                return Err(error);
            }
        };
        match Frame::new(alloc) {
            Ok(unbound) => Ok(Behaviour {
                text,
                tables,
                unbound,
            }),
            Err(error) => {
                drop(text);
                drop(tables);
                Err(error)
            }
        }
    }

    /// The text.
    pub fn text(&self) -> &Text<'t>
        ensures { result.now ≡ self.now }
    {
        &self.text
    }

    /// The transition of a body that has a number, which begins at 1.
    pub fn transition(&self, body: u32, number: u32) -> Option<&Written<'t>>
        ensures { IsTransition self.now body number result }
    {
        match self.tables.get(&body) {
            None => None,
            Some(table) => table.transition(number),
        }
    }

    // No transitions of a body that is not there.
    fn no_fits(&self, body: u32, state: Option<u32>) -> Fits<'_, 't>
        requires { transitions_of self.now body ≡ [] }
        ensures { result ≡ record { text = self.now; body = body; state = state } }
    {
        Fits {
            spec: self.text.spec(),
            outline: self.text.outline(),
            body,
            state,
            written: &[],
            each: &[],
            named: &[],
            timed: false,
        }
    }

    /// The transitions of a body whose `from` fits a state.
    pub fn fits(&self, body: u32, state: Option<u32>) -> Fits<'_, 't>
        ensures { result ≡ record { text = self.now; body = body; state = state } }
    {
        match self.tables.get(&body) {
            None => self.no_fits(body, state),
            Some(table) => table.fits(state),
        }
    }

    // What the choice of a number has where there are no `any` variables: the first one is the only
    // one.
    fn only_frame(&self, alloc: Global, number: u32) -> Result<Option<Frame>, AllocError>
        ensures { IfOk result (λ frame. frame ≡ numbered ([] ∷ []) number) }
    {
        if number != 1 {
            return Ok(None);
        }
        let frame = self.unbound.twin(alloc)?;
        Ok(Some(frame))
    }

    /// The `any` variables of a transition of the text with their values in the choice of a number,
    /// which begins at 1, if there are so many. Without variables there is one choice.
    pub fn chosen(
        &self,
        alloc: Global,
        transition: &Written,
        number: u32,
    ) -> Result<Option<Frame>, AllocError>
        ensures { IfOk result (λ frame. (x : FullTransition)
            → IsWritten self.now.outline x transition.now → frame
            ≡ option_map (any_frame self.now.outline x)
            (numbered (any_tuples self.now.outline x) number)) }
    {
        if transition.variables.as_slice().is_empty() {
            return self.only_frame(alloc, number);
        }
        chosen_frame(
            alloc,
            transition.variables.as_slice(),
            transition.kinds.as_slice(),
            number,
        )
    }
}
