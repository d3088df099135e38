//! The transitions of one body.

ghost use Rattle.std.specs.Prelude.{◌≡◌, slice_get, is_some, IfOk};
ghost use Rattle.std.specs.Option.{option_copied};
ghost use Rattle.std.specs.List.{AllZip, flat_map, list_any};
ghost use Rattle.est_syntax.specs.declared.body.Body.{out-Body};
ghost use Rattle.est_meaning.specs.ClauseContexts.{group_transitions, transitions_of};
ghost use Rattle.plain_transitions.specs.FittingTransitions.{IsTransition};
ghost use Rattle.plain_transitions.specs.declared.written.Written.{Written};
ghost use Rattle.plain_transitions.specs.WrittenTransitions.{IsWritten};
ghost use Rattle.plain_transitions.specs.inside.BodyTables.{naming};

use crate::fits::Fits;
use crate::fitting::{Fitting, fitting_of};
use crate::writing::write_groups;
use crate::written::Written;
use est_meaning::rule_scope::outline::Outline;
use est_syntax::body::Body;
use est_syntax::specification::Spec;
use plain_names::plain_texts::text::Text;
use std::alloc::{AllocError, Global};
use std::marker::Model;

/// The transitions of a body of a text, and their numbers by the states that they fit.
pub(crate) struct Table<'t> {
    spec: &'t Spec,
    outline: &'t Outline,
    place: u32,
    written: Vec<Written<'t>>,
    fitting: Fitting,
    timed: bool,
}

// In words, so that where it is let go of there is one call.
impl<'t> Drop for Table<'t> {
    fn drop(self) {
        let Table {
            spec: _,
            outline: _,
            place: _,
            written,
            fitting,
            timed: _,
        } = self;
        drop(written);
        drop(fitting);
    }
}

impl<'t> Model for Table<'t> {
    ghost use Rattle.std.specs.Coded.{codes};
    ghost use Rattle.est_syntax.specs.contracts.specification.Spec as tree;
    ghost use Rattle.est_meaning.specs.rule_scope.contracts.outline.Outline as declarations;
    ghost use Rattle.plain_transitions.specs.inside.BodyTables.{Sited, IsTable};

    ghost Value = { Sited };

    ghost coded = { Prim.hlevel (codes, tree.the_row.coded, declarations.the_row.coded) };

    ghost view = { λ t. record {
      text = record { spec = t.spec.now; outline = t.outline.now };
      place = t.place;
    } };

    ghost invariant = { λ t. IsTable (record {
      text = record { spec = t.spec.now; outline = t.outline.now };
      place = t.place;
    }) t.written.items t.fitting t.timed };
}

// The transitions of a body.
fn written_in<'t>(
    alloc: Global,
    outline: &'t Outline,
    body: &'t Body,
) -> Result<Vec<Written<'t>>, AllocError>
    ensures { IfOk result (λ written. AllZip (IsWritten outline.now)
        (flat_map group_transitions (out-Body body.now).groups) written.items) }
{
    let mut written = Vec::new(alloc);
    write_groups(alloc, outline, body.groups.as_slice(), &mut written)?;
    Ok(written)
}

// The transitions of the body whose name stands at a place.
fn written_of<'t>(
    alloc: Global,
    text: &Text<'t>,
    place: u32,
) -> Result<Vec<Written<'t>>, AllocError>
    ensures { IfOk result (λ written. AllZip (IsWritten text.now.outline)
        (transitions_of text.now place) written.items) }
{
    match text.body(place) {
        None => Ok(Vec::new(alloc)),
        Some(body) => {
            let written = written_in(alloc, text.outline(), body)?;
            Ok(written)
        }
    }
}

/// The transition that stands at a place of a list.
pub(crate) fn item_at<'a, 't>(written: &'a [Written<'t>], index: usize) -> Option<&'a Written<'t>>
    ensures { option_copied result ≡ slice_get written.now index }
{
    written.get(index)
}

// The numbers of the transitions that name a state.
fn naming(fitting: &Fitting, state: Option<u32>) -> &[u32]
    ensures { result.now ≡ naming fitting.now state }
{
    match state {
        None => &[],
        Some(state) => fitting.named.listed(state),
    }
}

// Whether a transition has a delay.
fn are_timed(written: &[Written<'_>]) -> bool
    ensures { result ≡ list_any (λ (w : Written). is_some w.delay) written.now }
{
    written.iter().any(|transition| transition.delay.is_some())
}

impl<'t> Table<'t> {
    /// The table of the body whose name stands at a place. Errs where memory runs out, or where 32
    /// bits do not number its transitions.
    pub(crate) fn new(alloc: Global, text: &Text<'t>, place: u32) -> Result<Table<'t>, AllocError>
        ensures { IfOk result (λ table. table ≡ record { text = text.now; place = place }) }
    {
        let written = written_of(alloc, text, place)?;
        if written.len() > u32::MAX as usize {
            return Err(AllocError);
        }
        let fitting = fitting_of(alloc, written.as_slice())?;
        let timed = are_timed(written.as_slice());
        Ok(Table {
            spec: text.spec(),
            outline: text.outline(),
            place,
            written,
            fitting,
            timed,
        })
    }

    /// The transition that has a number, which begins at 1.
    pub(crate) fn transition(&self, number: u32) -> Option<&Written<'t>>
        ensures { IsTransition self.now.text self.now.place number result }
    {
        if number == 0 {
            return None;
        }
        item_at(self.written.as_slice(), number as usize - 1)
    }

    /// The transitions whose `from` fits a state.
    pub(crate) fn fits(&self, state: Option<u32>) -> Fits<'_, 't>
        ensures { result ≡ record {
          text = self.now.text;
          body = self.now.place;
          state = state;
        } }
    {
        Fits {
            spec: self.spec,
            outline: self.outline,
            body: self.place,
            state,
            written: self.written.as_slice(),
            each: self.fitting.each.as_slice(),
            named: naming(&self.fitting, state),
            timed: self.timed,
        }
    }
}
