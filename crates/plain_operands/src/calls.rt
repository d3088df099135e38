//! Routines that are called: their frames and their results, and what is written.
ghost use Rattle.std.specs.Prelude.{◌≡◌, ℕ};
ghost use Rattle.std.specs.Option.{option_copied};
ghost use Rattle.plain_frames.specs.HeldFrames.{result_in};
ghost use Rattle.plain_frames.specs.plain_systems.HeldSystems.{state_of};
ghost use Rattle.mean_blocks.specs.AnswersOfCalls.{Answers, Says};
ghost use Rattle.mean_blocks.specs.FunctionCalls.{routine_frame};
ghost use Rattle.mean_blocks.specs.LoopEffects.{naming};
ghost use Rattle.mean_blocks.specs.TextByPlace.{routine_at};
ghost use Rattle.mean_blocks.specs.WriteEffects.{opened, stored};
ghost use Rattle.plain_operands.specs.HeldVariables.{reached_of};

use crate::reached::Reached;
use crate::site::Site;
use est_syntax::routine::Routine;
use est_values::value::Value;
use mean_blocks::fault::BlockFault;
use mean_blocks::frame::{Binding, Frame, Slot};
use mean_blocks::stop::Stop;
use plain_frames::plain_systems::system::{Frames, Working};
use plain_frames::routines::{Slots, result_in, routine_frame};
use plain_frames::writing;
use std::alloc::Global;

/// The routine whose name stands at a place.
pub fn routine_of<'t>(site: &Site<'_, 't>, place: u32) -> Option<&'t Routine>
    ensures { option_copied result ≡ routine_at site.now.text.now place }
{
    site.text.routine(place)
}

/// The frame of a routine with these arguments.
#[inline(never)]
pub fn frame_with(alloc: Global, site: &Site, place: u32, slots: Slots) -> Result<Frame, Stop>
    ensures { Says (routine_frame site.now.text.now.outline place slots) result }
{
    routine_frame(alloc, site.text.outline(), place, slots)
}

/// The result of a function whose frame is the first.
#[inline(never)]
pub fn result_of(alloc: Global, place: u32, frames: Frames) -> Result<Value, Stop>
    ensures { Says (result_in place frames) result }
{
    let value = result_in(alloc, place, frames.as_slice());
    drop(frames);
    value
}

/// Writes a value to a variable, which has to take it.
#[inline(never)]
pub fn store(
    alloc: Global,
    site: &Site,
    reached: &Reached,
    value: Value,
    working: &mut Working,
) -> Result<(), Stop>
    ensures { (n : ℕ) → Answers
        (stored site.now.function (reached_of reached.now) value (state_of working.old n))
        result (state_of working.new n) }
{
    match reached {
        Reached::Component(place, kind) => {
            writing::store(alloc, place, kind, value, site.function, working)
        }
        Reached::Module(_, _) => {
            drop(value);
            Err(Stop::Fault(BlockFault::Undefined))
        }
    }
}

/// Opens the frame of a turn of an `all`, in which a name stands for this.
#[inline(never)]
pub fn open_naming(alloc: Global, place: u32, slot: Slot, working: &mut Working) -> Result<(), Stop>
    ensures { (n : ℕ) → Answers (opened (naming place slot) (state_of working.old n)) result
        (state_of working.new n) }
{
    let binding = Binding {
        declared: place,
        slot,
    };
    let mut frame = Frame::new(alloc)?;
    frame.push(alloc, binding)?;
    writing::open(frame, working)
}
