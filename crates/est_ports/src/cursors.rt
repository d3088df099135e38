//! How far each list of a phase is used up.
ghost use Rattle.std.specs.Prelude.{◌≡◌, ℕ, ◌+◌, ◌-◌, ◌<◌, ◌^◌, ◌↔◌, List, Some, length};
ghost use Rattle.std.specs.Prelude.{IsTrue, IfSome, IfNone, OnOk, option_copied, slice_get};
ghost use Rattle.std.specs.Prelude.{slice_set};
ghost use Rattle.est_meaning.specs.declared.event.Event.{Event};
ghost use Rattle.mean_ports.specs.Merges.{IsAt, AreUsedUp};
ghost use Rattle.est_ports.specs.inside.Cursors.{cut, starts, ends, first_at, IsArrivalAt};
ghost use Rattle.est_ports.specs.inside.Leftover.{lists_of};

use est_meaning::event::{Event, Events};
use mean_ports::lists::PortLists;
use std::alloc::AllocError;

/// The lists of the phase with this number. Past the last phase there are none.
pub fn lists_at(lists: &PortLists, phase: usize) -> &[Events]
    ensures { result.now ≡ lists_of lists.now phase }
{
    match lists.phases.get(phase) {
        Some(lists) => lists.as_slice(),
        None => &[],
    }
}

/// Nothing of these lists is used up.
pub fn start_all(cursors: &mut Vec<usize>, lists: &[Events]) -> Result<(), AllocError>
    ensures { OnOk result (cursors.new.items ≡ starts lists.now) }
{
    cursors.clear();
    for list in lists {
        cursors.push(0)?;
    }
    Ok(())
}

/// All of these lists is used up.
pub fn end_all(cursors: &mut Vec<usize>, lists: &[Events]) -> Result<(), AllocError>
    ensures { OnOk result (cursors.new.items ≡ ends lists.now) }
{
    cursors.clear();
    for list in lists {
        cursors.push(list.len())?;
    }
    Ok(())
}

/// The next event of a list, where one is left.
pub fn next_in<'l>(cursors: &[usize], lists: &'l [Events], port: usize) -> Option<&'l Event>
    ensures { option_copied result ≡ first_at (cut cursors.now lists.now) port }
{
    if port >= cursors.len() {
        return None;
    }
    if port >= lists.len() {
        return None;
    }
    lists[port].get(cursors[port])
}

/// Whether nothing of the lists is left.
pub fn are_used(cursors: &[usize], lists: &[Events]) -> bool
    ensures { IsTrue result ↔ AreUsedUp (cut cursors.now lists.now) }
{
    for port in 0..cursors.len() {
        if let Some(_left) = next_in(cursors, lists, port) {
            return false;
        }
    }
    true
}

/// One event more of a list is used up, where one is left.
pub fn advance(cursors: &mut Vec<usize>, lists: &[Events], port: usize)
    ensures { (at : ℕ) (list : List Event) → slice_get cursors.old.items port ≡ Some at
        → slice_get lists.now port ≡ Some list → at < length list
        → cursors.new.items ≡ slice_set cursors.old.items port (at + 1) }
{
    if port >= cursors.len() {
        return;
    }
    let Some(list) = lists.get(port) else {
        return;
    };
    let at = cursors[port];
    if at < list.len() {
        cursors[port] = at + 1;
    }
}

/// One event less of a list is used up.
pub fn retreat(cursors: &mut Vec<usize>, port: usize)
    ensures { (at : ℕ) → slice_get cursors.old.items port ≡ Some at
        → cursors.new.items ≡ slice_set cursors.old.items port (at - 1) }
{
    if port >= cursors.len() {
        return;
    }
    let at = cursors[port];
    cursors[port] = at.saturating_sub(1);
}

/// Whether an event is an arrival at this port.
pub fn arrives_at(event: &Event, port: usize) -> bool
    ensures is { IsTrue result ↔ IsArrivalAt port event.now }
    ensures small { IsTrue result → port < 2 ^ 32 }
{
    match event {
        Event::Arrives(arrival) => arrival.port as usize == port,
        Event::Leaves(_) => false,
        Event::Passes(_) => false,
    }
}

/// At which port an event arrives or leaves.
pub fn port_of(event: &Event) -> Option<u32>
    ensures some { IfSome result (λ port. IsAt port event.now) }
    ensures none { IfNone result ((port : ℕ) → IsAt port event.now → ⊥) }
{
    match event {
        Event::Arrives(arrival) => Some(arrival.port),
        Event::Leaves(departure) => Some(departure.port),
        Event::Passes(_) => None,
    }
}
