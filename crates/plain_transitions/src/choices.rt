//! The choices of the values of `any` variables.
ghost use Rattle.std.specs.Prelude.{◌≡◌, IfOk, map};
ghost use Rattle.std.specs.List.{filter_map};
ghost use Rattle.std.specs.Option.{option_map};
ghost use Rattle.est_values.specs.declared.value.Value.TheVariants as value;
ghost use Rattle.est_values.specs.OrdinalTuples.{ordinal_tuples};
ghost use Rattle.est_meaning.specs.mean_blocks.NamesInRuns.{kind_at};
ghost use Rattle.est_meaning.specs.ClauseContexts.{FullTransition};
ghost use Rattle.est_meaning.specs.TransitionChoices.{any_frame, any_places, any_tuples, bound_all};
ghost use Rattle.est_meaning.specs.TransitionChoices.{numbered};
ghost use Rattle.plain_transitions.specs.WrittenTransitions.{kinds_held};
ghost use Rattle.plain_transitions.specs.inside.ChosenTuples.{variables_of};

use crate::tuples::tuple_at;
use est_meaning::mean_blocks::frame::{Binding, Frame, Slot};
use est_meaning::rule_scope::declaration::Sort;
use est_meaning::rule_scope::outline::Outline;
use est_syntax::est_items::Items;
use est_syntax::kind::Kind;
use est_values::Chunks;
use est_values::value::Value;
use plain_names::plain_declared::declared::{Places, kind_at, places_of};
use std::alloc::{AllocError, Global};

/// The places of the variables of a region, if there is one.
pub(crate) fn variables_of(
    alloc: Global,
    outline: &Outline,
    any: Option<u32>,
) -> Result<Places, AllocError>
    ensures { IfOk result (λ places. places ≡ variables_of outline.now any) }
{
    match any {
        None => Ok(Items::new(alloc)),
        Some(region) => places_of(alloc, outline, Sort::Variable, region),
    }
}

/// The kinds of what is declared at some places.
pub(crate) fn kinds_at<'o>(
    alloc: Global,
    outline: &'o Outline,
    places: &[u32],
) -> Result<Vec<&'o Kind>, AllocError>
    ensures { IfOk result (λ kinds. kinds_held kinds.items
        ≡ filter_map (kind_at outline.now) places.now) }
{
    let mut kinds = Vec::new(alloc);
    for place in places {
        if let Some(kind) = kind_at(outline, *place) {
            kinds.push(kind)?;
        }
    }
    Ok(kinds)
}

// Names with their ordinals, as far as there are both.
fn bound_all(alloc: Global, places: &[u32], ordinals: &[i32]) -> Result<Frame, AllocError>
    ensures { IfOk result (λ frame. frame
        ≡ bound_all places.now (map (λ z. value.Ordinal z) ordinals.now)) }
{
    let mut frame = Chunks::new(alloc)?;
    for (index, place) in places.iter().enumerate() {
        match ordinals.get(index) {
            None => return Ok(frame),
            Some(ordinal) => {
                let slot = Slot::Value(Value::Ordinal(*ordinal));
                let declared = *place;
                frame.push(alloc, Binding { declared, slot })?;
            }
        }
    }
    Ok(frame)
}

/// The variables at some places with their values in the choice of a number, which begins at 1, if
/// there are so many, where these are the kinds of the variables.
pub(crate) fn chosen_frame(
    alloc: Global,
    places: &[u32],
    kinds: &[&Kind],
    number: u32,
) -> Result<Option<Frame>, AllocError>
    ensures { IfOk result (λ frame. frame
        ≡ option_map (λ zs. bound_all places.now (map (λ z. value.Ordinal z) zs))
        (numbered (ordinal_tuples (kinds_held kinds.now)) number)) }
{
    if number == 0 {
        return Ok(None);
    }
    let Some(tuple) = tuple_at(alloc, kinds, number - 1)? else {
        return Ok(None);
    };
    let frame = bound_all(alloc, places, tuple.as_slice())?;
    Ok(Some(frame))
}

/// The `any` variables at some places with their values in the choice of a number, which begins at
/// 1, if there are so many. Without variables there is one choice.
pub fn choice_frame(
    alloc: Global,
    outline: &Outline,
    variables: &Places,
    number: u32,
) -> Result<Option<Frame>, AllocError>
    ensures { IfOk result (λ frame. (x : FullTransition) → any_places outline.now x ≡ variables.now
        → frame
        ≡ option_map (any_frame outline.now x) (numbered (any_tuples outline.now x) number)) }
{
    let places = variables.as_slice();
    let kinds = kinds_at(alloc, outline, places)?;
    let frame = chosen_frame(alloc, places, kinds.as_slice(), number)?;
    Ok(frame)
}
