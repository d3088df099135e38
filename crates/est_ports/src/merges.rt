//! The merge of an answer.
ghost use Rattle.std.specs.Prelude.{◌≡◌, ◌+◌, ◌++◌, List, [], length, drop, map, reverse};
ghost use Rattle.std.specs.Prelude.{IfOk, OnOk};
ghost use Rattle.est_meaning.specs.declared.event.Event.{Event};
ghost use Rattle.est_meaning.specs.declared.trace.Expected.TheVariants.{Known};
ghost use Rattle.mean_ports.specs.PortRuns.{Left};
ghost use Rattle.est_ports.specs.inside.Cursors.{cut};
ghost use Rattle.est_ports.specs.inside.Leftover.{Stand, Uses, LeadsTo, HasUsedUp, stand_of, left_at};
ghost use Rattle.est_ports.specs.inside.Leftover.{MergesFrom};
ghost use Rattle.est_ports.specs.inside.PortOrder.{in_order, phases_in_order, left_in_order};
ghost use Rattle.est_ports.specs.inside.PortOrder.{next_events, first_list, HasWritten};
ghost use Rattle.est_ports.specs.inside.PortOrder.{HasWrittenAll};

use crate::cursors::{lists_at, next_in};
use crate::left::{Rest, Used};
use est_meaning::event::{Event, Events};
use est_meaning::trace::{Expected, Expecteds, Trace};
use est_syntax::est_items::{Items, Twin};
use mean_ports::lists::PortLists;
use std::alloc::{AllocError, Global};

/// The merge of the lists that begins with the events that were used up. What is left follows phase
/// by phase, and in each port by port.
pub fn merge_of(alloc: Global, lists: &PortLists, used: &[Used]) -> Result<Trace, AllocError>
    ensures { IfOk result (λ merge. (left : Left) (events : List Event)
        → length lists.now.phases ≡ length lists.now.times + 1
        → HasUsedUp lists.now (reverse used.now) left events
        → MergesFrom lists.now events merge) }
{
    let mut merge = Items::new(alloc);
    write_all(alloc, lists, used, &mut merge)?;
    Ok(Trace::new(merge))
}

// Writes what was used up, and then what is left.
fn write_all(
    alloc: Global,
    lists: &PortLists,
    used: &[Used],
    merge: &mut Expecteds,
) -> Result<(), AllocError>
    requires { merge.old ≡ [] }
    ensures { OnOk result (HasWrittenAll lists.now (reverse used.now) merge.new) }
{
    let mut rest = Rest::new(alloc, lists)?;
    write_used(alloc, lists, used, &mut rest, merge)?;
    write_left(alloc, lists, &rest, merge)?;
    Ok(())
}

// Writes what was used up, and stands where it leads.
fn write_used(
    alloc: Global,
    lists: &PortLists,
    used: &[Used],
    rest: &mut Rest,
    merge: &mut Expecteds,
) -> Result<(), AllocError>
    requires { LeadsTo lists.now [] (stand_of rest.old []) }
    ensures { OnOk result (HasWritten lists.now (reverse used.now) rest.new.phase
        rest.new.cursors.items merge.old merge.new) }
{
    for at in 0..used.len() {
        let next = used[at];
        write_one(alloc, lists, next, rest, merge)?;
    }
    Ok(())
}

// Writes what is used up next, and uses it up.
fn write_one(
    alloc: Global,
    lists: &PortLists,
    next: Used,
    rest: &mut Rest,
    merge: &mut Expecteds,
) -> Result<(), AllocError>
    ensures written { OnOk result (merge.new ≡ merge.old
        ++ map Known (next_events lists.now rest.old.phase rest.old.cursors.items next)) }
    ensures leads { OnOk result ((events : List Event) (t : Stand)
        → Uses lists.now (stand_of rest.old events) next t → stand_of rest.new t.events ≡ t) }
{
    match next {
        Used::At(port) => {
            write_next(alloc, lists, port, rest, merge)?;
            rest.step_at(lists, port)
        }
        Used::Time => {
            write_time(lists, rest.phase, merge)?;
            rest.step_over(lists)
        }
    }
}

// Writes the next event of a port, if there is one.
fn write_next(
    alloc: Global,
    lists: &PortLists,
    port: u32,
    rest: &Rest,
    merge: &mut Expecteds,
) -> Result<(), AllocError>
    ensures { OnOk result (merge.new ≡ merge.old
        ++ map Known (next_events lists.now rest.now.phase rest.now.cursors.items (Used.At port))) }
{
    let now = lists_at(lists, rest.phase);
    let Some(event) = next_in(&rest.cursors, now, port as usize) else {
        return Ok(());
    };
    let event = event.twin(alloc)?;
    merge.push(Expected::Known(event))
}

// Writes the time that ends a phase, if there is one.
fn write_time(lists: &PortLists, phase: usize, merge: &mut Expecteds) -> Result<(), AllocError>
    ensures { OnOk result (merge.new ≡ merge.old
        ++ map Known (next_events lists.now phase [] Used.Time)) }
{
    let Some(units) = lists.times.get(phase) else {
        return Ok(());
    };
    merge.push(Expected::Known(Event::Passes(*units)))
}

// Writes what is left.
fn write_left(
    alloc: Global,
    lists: &PortLists,
    rest: &Rest,
    merge: &mut Expecteds,
) -> Result<(), AllocError>
    ensures { OnOk result (merge.new ≡ merge.old
        ++ map Known (left_in_order (left_at lists.now rest.now.phase rest.now.cursors.items))) }
{
    write_cut(alloc, &rest.cursors, lists_at(lists, rest.phase), merge)?;
    write_later(alloc, lists, rest.phase, merge)?;
    Ok(())
}

// Writes what is left of the lists of a phase.
fn write_cut(
    alloc: Global,
    cursors: &[usize],
    lists: &[Events],
    merge: &mut Expecteds,
) -> Result<(), AllocError>
    ensures { OnOk result
        (merge.new ≡ merge.old ++ map Known (in_order (cut cursors.now lists.now))) }
{
    for port in 0..cursors.len() {
        write_list(alloc, left_in(cursors, lists, port), merge)?;
    }
    Ok(())
}

// What is left of a list.
fn left_in<'l>(cursors: &[usize], lists: &'l [Events], port: usize) -> &'l [Event]
    ensures { result.now ≡ first_list (drop port (cut cursors.now lists.now)) }
{
    if port >= cursors.len() {
        return &[];
    }
    if port >= lists.len() {
        return &[];
    }
    let cursor = cursors[port];
    let events = lists[port].as_slice();
    if cursor >= events.len() {
        return &[];
    }
    &events[cursor..]
}

// Writes the phases behind the one with this number, with the time before each.
fn write_later(
    alloc: Global,
    lists: &PortLists,
    phase: usize,
    merge: &mut Expecteds,
) -> Result<(), AllocError>
    ensures { OnOk result (merge.new ≡ merge.old
        ++ map Known (phases_in_order (drop (phase + 1) lists.now.phases)
        (drop phase lists.now.times))) }
{
    let last = lists.phases.len().saturating_sub(1);
    for at in phase..last {
        write_time(lists, at, merge)?;
        write_lists(alloc, lists_at(lists, at + 1), merge)?;
    }
    Ok(())
}

// Writes the events of lists, one list after the other.
fn write_lists(alloc: Global, lists: &[Events], merge: &mut Expecteds) -> Result<(), AllocError>
    ensures { OnOk result (merge.new ≡ merge.old ++ map Known (in_order lists.now)) }
{
    for list in lists {
        write_list(alloc, list.as_slice(), merge)?;
    }
    Ok(())
}

// Writes events.
fn write_list(alloc: Global, events: &[Event], merge: &mut Expecteds) -> Result<(), AllocError>
    ensures { OnOk result (merge.new ≡ merge.old ++ map Known events.now) }
{
    for event in events {
        let event = event.twin(alloc)?;
        merge.push(Expected::Known(event))?;
    }
    Ok(())
}
