//! A trace of what happened.
ghost use Rattle.std.specs.Prelude.{◌≡◌, ◌++◌, reverse, map, IfOk, OnOk};
ghost use Rattle.est_meaning.specs.RecordedTraces.{known_trace};

use est_meaning::event::{Event, Events};
use est_meaning::trace::{Expected, Trace};
use est_syntax::est_items::Items;
use std::alloc::{AllocError, Global};

// Puts these events down as known ones, from the last one back.
fn put_known(events: &mut Vec<Event>, expected: &mut Vec<Expected>) -> Result<(), AllocError>
    ensures { OnOk result (expected.new.items
        ≡ expected.old.items ++ reverse (map Expected.Known events.old.items)) }
{
    while let Some(event) = events.pop() {
        expected.push(Expected::Known(event))?;
    }
    Ok(())
}

/// A trace of these events, all of which are known. None is copied.
pub fn known(alloc: Global, events: Events) -> Result<Trace, AllocError>
    ensures { IfOk result (λ trace. trace ≡ known_trace events) }
{
    let mut rest = events.items;
    let mut expected = Vec::new(alloc);
    let put = put_known(&mut rest, &mut expected);
    drop(rest);
    match put {
        Ok(()) => {
            expected.as_mut_slice().reverse();
            Ok(Trace::new(Items { items: expected }))
        }
        Err(error) => {
            drop(expected);
            Err(error)
        }
    }
}
