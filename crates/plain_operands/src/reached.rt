//! What variables with their selectors reach.
ghost use Rattle.std.specs.Prelude.{◌≡◌, ℕ, IfOk, option_copied};
ghost use Rattle.mean_blocks.specs.AnswersOfCalls.{Answers, Says};
ghost use Rattle.mean_blocks.specs.FunctionCalls.{part_of_result};
ghost use Rattle.mean_blocks.specs.Frames.{component_of, existing, place_of};
ghost use Rattle.est_values.specs.PartsOfValues.{part_at};
ghost use Rattle.mean_blocks.specs.NamesInRuns.{head};
ghost use Rattle.mean_blocks.specs.Outcome.{Done};
ghost use Rattle.mean_blocks.specs.ReachedVariables.{variable_begun, with_field, with_component};
ghost use Rattle.mean_blocks.specs.ReachedVariables.{with_subscript, loaded, placed};
ghost use Rattle.mean_blocks.specs.ReachedVariables.{Component, Module};
ghost use Rattle.mean_blocks.specs.WorkingState.{View};
ghost use Rattle.plain_operands.specs.ExecutionSites.{view_of};
ghost use Rattle.plain_operands.specs.ExpressionSteps.{answer_of, result_begun};
ghost use Rattle.plain_operands.specs.HeldVariables.{reached_of, reached_in, kind_by};

use crate::site::{Site, head_at};
use est_syntax::est_items::Twin;
use est_syntax::kind::{Kind, Ordinals};
use est_syntax::name::Used;
use est_values::parts::part_at;
use est_values::value::Value;
use mean_blocks::fault::BlockFault;
use mean_blocks::frame::{Holder, Place, Slot};
use mean_blocks::stop::Stop;
use plain_frames::children::child_of;
use plain_frames::places::{place_of, read_at, whole};
use plain_frames::plain_systems::system::Working;
use plain_texts::plain_declared::declared::{declared_in_header, kind_at};
use plain_texts::plain_declared::heads::Head;
use plain_texts::plain_declared::kinds::{array_in, field_in};
use plain_values::taking::{component_at, within_kind};
use plain_values::values::defined;
use std::alloc::{AllocError, Global};

/// What a name with some selectors has reached: a variable of a kind, or module variables with
/// these subscripts.
#[derive(Drop)]
pub enum Reached<'t> {
    Component(Place, &'t Kind),
    Module(u32, Ordinals),
}

// A variable of a kind that is declared at a place.
fn variable<'t>(
    alloc: Global,
    site: &Site<'_, 't>,
    declared: u32,
    kind: &'t Kind,
    working: &Working,
) -> Result<Reached<'t>, AllocError>
    ensures { IfOk result (λ reached. reached_of reached
        ≡ Component (place_of site.now.instance working.now.frames declared) kind.now) }
{
    let place = place_of(alloc, site.instance, working.frames.as_slice(), declared)?;
    Ok(Reached::Component(place, kind))
}

/// Where a variable begins.
#[inline(never)]
pub fn begun<'t>(
    alloc: Global,
    site: &Site<'_, 't>,
    used: &Used,
    working: &Working,
) -> Result<Reached<'t>, Stop>
    ensures { (n : ℕ) → Answers (variable_begun (view_of site.now working.now)
        (head site.now.text.now.outline used.now) n) (reached_in result) n }
{
    match head_at(site, used) {
        Head::Variable(declared, kind) => {
            let reached = variable(alloc, site, declared, kind, working)?;
            Ok(reached)
        }
        Head::Function(declared, kind) => {
            let reached = variable(alloc, site, declared, kind, working)?;
            Ok(reached)
        }
        Head::Modules(declared) => Ok(Reached::Module(declared, Ordinals::new(alloc))),
        _ => Err(Stop::Fault(BlockFault::Undefined)),
    }
}

// A component of a place, by its number.
fn component(place: Place, number: u32) -> Result<Place, AllocError>
    ensures { IfOk result (λ part. part ≡ component_of number place) }
{
    let Place {
        holder,
        declared,
        path,
    } = place;
    let mut path = path;
    path.push(number)?;
    Ok(Place {
        holder,
        declared,
        path,
    })
}

// A field of a record. No memory holds a kind with more fields than a number of 32 bits counts.
fn field<'t>(place: Place, kind: &'t Kind, used: &Used) -> Result<Reached<'t>, Stop>
    ensures { (v : View) (n : ℕ) → Answers (with_field v used.now (Component place kind.now) n)
        (reached_in result) n }
{
    let Some((number, kind)) = field_in(kind, used) else {
        drop(place);
        return Err(Stop::Fault(BlockFault::Undefined));
    };
    let Ok(number) = u32::try_from(number) else {
        drop(place);
        return Err(Stop::Memory(AllocError));
    };
    let place = component(place, number)?;
    Ok(Reached::Component(place, kind))
}

// An exported variable of the child that a module variable holds.
fn exported<'t>(
    alloc: Global,
    site: &Site<'_, 't>,
    used: &Used,
    declared: u32,
    index: &Ordinals,
    working: &Working,
) -> Result<Reached<'t>, Stop>
    ensures { (n : ℕ) → Answers (with_field (view_of site.now working.now) used.now
        (Module declared index.now) n) (reached_in result) n }
{
    let frames = working.frames.as_slice();
    let child = child_of(&working.system, frames, site.instance, declared, index)?;
    let outline = site.text.outline();
    let Some(place) = declared_in_header(outline, declared, used) else {
        return Err(Stop::Fault(BlockFault::Undefined));
    };
    let Some(kind) = kind_at(outline, place) else {
        return Err(Stop::Fault(BlockFault::Undefined));
    };
    Ok(Reached::Component(whole(alloc, Holder::Instance(child), place), kind))
}

/// A field of a record, or an exported variable of a child.
pub fn with_field<'t>(
    alloc: Global,
    site: &Site<'_, 't>,
    used: &Used,
    reached: Reached<'t>,
    working: &Working,
) -> Result<Reached<'t>, Stop>
    ensures { (n : ℕ) → Answers (with_field (view_of site.now working.now) used.now
        (reached_of reached.entry) n) (reached_in result) n }
{
    match reached {
        Reached::Component(place, kind) => field(place, kind, used),
        Reached::Module(declared, index) => {
            let variable = exported(alloc, site, used, declared, &index, working);
            drop(index);
            variable
        }
    }
}

/// A component of an array.
pub fn with_component<'t>(reached: Reached<'t>, z: i32) -> Result<Reached<'t>, Stop>
    ensures { (n : ℕ) → Answers (with_component (reached_of reached.entry) z n)
        (reached_in result) n }
{
    match reached {
        Reached::Component(place, kind) => {
            let Some((index, of)) = array_in(kind) else {
                drop(place);
                return Err(Stop::Fault(BlockFault::Undefined));
            };
            let number = component_at(index, z)?;
            let place = component(place, number)?;
            Ok(Reached::Component(place, of))
        }
        Reached::Module(_, index) => {
            drop(index);
            Err(Stop::Fault(BlockFault::Undefined))
        }
    }
}

// The kind of a subscript, by its number counted from 0.
fn kind_in<'k>(kinds: Option<&'k [Kind]>, number: usize) -> Option<&'k Kind>
    ensures { option_copied result ≡ kind_by (option_copied kinds.entry) number }
{
    match kinds {
        None => None,
        Some(kinds) => kinds.get(number),
    }
}

/// A subscript more, of these index types.
#[tactic(auto, using(crate::proofs::SubscriptSteps::subscript_known))]
pub fn with_subscript(kinds: Option<&[Kind]>, index: Ordinals, z: i32) -> Result<Ordinals, Stop>
    ensures { (n : ℕ) → Answers (with_subscript (option_copied kinds.entry) index z n) result n }
{
    let Some(kind) = kind_in(kinds, index.len()) else {
        drop(index);
        return Err(Stop::Fault(BlockFault::Undefined));
    };
    let z = within_kind(kind, z)?;
    let mut index = index;
    index.push(z)?;
    Ok(index)
}

/// The value of a variable.
pub fn loaded(
    alloc: Global,
    site: &Site,
    reached: Reached,
    working: &Working,
) -> Result<Value, Stop>
    ensures { (n : ℕ) → Answers (loaded (view_of site.now working.now) (reached_of reached.entry) n)
        result n }
{
    match reached {
        Reached::Component(place, _) => {
            let held = read_at(&place, &working.system, working.frames.as_slice());
            drop(place);
            let value = held?.twin(alloc)?;
            let value = defined(value)?;
            Ok(value)
        }
        Reached::Module(_, index) => {
            drop(index);
            Err(Stop::Fault(BlockFault::Undefined))
        }
    }
}

/// The place of a variable.
pub fn placed(reached: Reached) -> Result<Slot, Stop>
    ensures { (n : ℕ) → Answers (placed (reached_of reached.entry) n) result n }
{
    match reached {
        Reached::Component(place, _) => Ok(Slot::Place(place)),
        Reached::Module(_, index) => {
            drop(index);
            Err(Stop::Fault(BlockFault::Undefined))
        }
    }
}

/// The result of a function, before its selectors.
pub fn result_begun<'t>(
    alloc: Global,
    site: &Site<'_, 't>,
    declared: u32,
    kind: &'t Kind,
) -> Reached<'t>
    ensures { reached_of result ≡ result_begun site.now.instance declared kind.now }
{
    Reached::Component(
        whole(alloc, Holder::Instance(site.instance), declared),
        kind,
    )
}

// The part of a value at a path.
fn part_of(alloc: Global, value: &Value, path: &[u32]) -> Result<Value, Stop>
    ensures { Says (existing (part_at path.now value.now)) result }
{
    match part_at(value, path) {
        None => Err(Stop::Fault(BlockFault::Undefined)),
        Some(part) => Ok(part.twin(alloc)?),
    }
}

/// Puts the part of a result that is reached in the place of the whole.
pub fn take_part(alloc: Global, reached: Reached, value: &mut Value) -> Result<(), Stop>
    ensures { (n : ℕ) → Answers (part_of_result value.old (reached_of reached.entry) n)
        (answer_of result value.new) n }
{
    match reached {
        Reached::Component(place, _) => {
            let part = part_of(alloc, value, place.path.as_slice());
            drop(place);
            *value = defined(part?)?;
            Ok(())
        }
        Reached::Module(_, index) => {
            drop(index);
            Err(Stop::Fault(BlockFault::Undefined))
        }
    }
}
