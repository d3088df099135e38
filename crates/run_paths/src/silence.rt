//! How many silent firings stand in a row.
ghost use Rattle.std.specs.Prelude.{◌≡◌, ◌<◌, ◌≤◌, MatchOption};
ghost use Rattle.est_meaning.specs.Run.{silent_after};

use est_meaning::event::Event;

/// How many silent firings stand last after one more with these events, if they are not too many.
pub fn silent_with(before: u32, events: &[Event], most: u32) -> Option<u32>
    ensures { MatchOption result (most < silent_after before events.now)
        (λ many. (many ≡ silent_after before events.now) × (many ≤ most)) }
{
    match events {
        [] => {
            if before < most {
                Some(before + 1)
            } else {
                None
            }
        }
        [_, ..] => Some(0),
    }
}
