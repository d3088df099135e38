//! Names in frames.
ghost use Rattle.std.specs.Prelude.{◌≡◌, Ok, Err, Some, option_copied, MatchResult};
ghost use Rattle.std.specs.List.{position};
ghost use Rattle.plain_declared.specs.mean_blocks.Frames.{is_declared, slot_of, value_in, found};
ghost use Rattle.plain_frames.specs.HeldFrames.{seen};

use est_values::value::Value;
use plain_declared::mean_blocks::fault::BlockFault;
use plain_declared::mean_blocks::frame::{Frame, Slot};

/// Where a name stands in a frame, by the number of its binding.
pub fn position_of(declared: u32, frame: &Frame) -> Option<usize>
    ensures { result ≡ position (is_declared declared) frame.now }
{
    for i in 0..frame.len() {
        match frame.get(i) {
            None => return None,
            Some(binding) => {
                if declared == binding.declared {
                    return Some(i);
                }
            }
        }
    }
    None
}

/// What stands under a name.
pub fn slot_of(declared: u32, frame: &Frame) -> Option<&Slot>
    ensures { option_copied result ≡ slot_of declared frame.now }
{
    match position_of(declared, frame) {
        None => None,
        Some(at) => match frame.get(at) {
            None => None,
            Some(binding) => Some(&binding.slot),
        },
    }
}

/// The value under a name.
pub fn value_in(declared: u32, frame: &Frame) -> Result<&Value, BlockFault>
    ensures { MatchResult result
        (λ value. value_in (slot_of declared frame.now) ≡ Ok value.now)
        (λ fault. value_in (slot_of declared frame.now) ≡ Err fault) }
{
    match slot_of(declared, frame) {
        Some(Slot::Value(value)) => Ok(value),
        _ => Err(BlockFault::Undefined),
    }
}

/// What the innermost frame that has a name has under it, with the number of that frame.
pub fn found(declared: u32, frames: &[Frame]) -> Option<(usize, &Slot)>
    ensures { seen result ≡ found declared frames.now }
{
    let mut i = frames.len();
    while 0 < i {
        i -= 1;
        if let Some(slot) = slot_of(declared, &frames[i]) {
            return Some((i, slot));
        }
    }
    None
}
