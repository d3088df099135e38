//! What is due after a run, and what waits in queues then.

use crate::looked::Looked;
use crate::walking::{append_dues, make_all};
use advice_guards::items::append_item;
use advice_tokens::note::{append_note, printed};
use est_meaning::answers::Started;
use est_meaning::firing::Firing;
use est_meaning::mean_blocks::situation::Item;
use est_syntax::est_items::Twin;
use est_values::Queue;
use plain_systems::rows::row_of;
use plain_systems::system::{System, Waiting};
use plain_walk::walk::Walk;
use run_notes::other_events::{End, Found};
use std::alloc::{AllocError, Global};

// So many interactions are told at most, and so many characters of each.
const MOST_TOLD: usize = 8;

const MOST_CHARACTERS: usize = 160;

// So many transitions are fired at most to see what is taken.
const MOST_FIRED: u32 = 100;

// What is told of interactions that wait, and how many these are.
#[derive(Drop)]
struct Told {
    text: String,
    count: usize,
}

// Adds an interaction, and at which instance it waits.
fn push_text(
    alloc: Global,
    looked: &Looked,
    item: &Item,
    text: &mut String,
) -> Result<(), AllocError> {
    let outline = looked.checked.table().outline();
    let mut bytes = Vec::new(alloc);
    append_item(alloc, looked.specification, outline, item, &mut bytes)?;
    let shown = printed(alloc, &bytes[..bytes.len().min(MOST_CHARACTERS)])?;
    let instance = item.at.instance;
    write!(text, "{shown} at instance {instance}")
}

// Adds an interaction that waits, where not enough are told already.
fn push_item(
    alloc: Global,
    looked: &Looked,
    item: &Item,
    told: &mut Told,
) -> Result<(), AllocError> {
    if told.count < MOST_TOLD {
        told.text.push_str(if told.count == 0 { "" } else { ", " })?;
        push_text(alloc, looked, item, &mut told.text)?;
    }
    told.count = told.count.saturating_add(1);
    Ok(())
}

// Adds the interactions of a queue.
fn push_items(
    alloc: Global,
    looked: &Looked,
    queue: &Queue<Item>,
    told: &mut Told,
) -> Result<(), AllocError> {
    let mut rest = queue.twin(alloc)?;
    while let Some(item) = rest.take(alloc)? {
        push_item(alloc, looked, &item, told)?;
        drop(item);
    }
    Ok(())
}

// Adds the interactions of queues.
fn push_queues(
    alloc: Global,
    looked: &Looked,
    queues: &[Waiting],
    told: &mut Told,
) -> Result<(), AllocError> {
    for waiting in queues {
        push_items(alloc, looked, &waiting.items, told)?;
    }
    Ok(())
}

// What waits in a system.
fn told_of(alloc: Global, looked: &Looked, system: &System) -> Result<Told, AllocError> {
    let mut told = Told {
        text: String::new(alloc),
        count: 0,
    };
    push_queues(alloc, looked, system.queues.get().as_slice(), &mut told)?;
    Ok(told)
}

// What is said of what waits.
fn waiting_note(alloc: Global, told: &Told) -> Result<String, AllocError> {
    let mut text = String::from_str(
        alloc,
        "after the events before, this waits and is not taken: ",
    )?;
    text.push_str(&told.text)?;
    if told.count > MOST_TOLD {
        let more = told.count.saturating_sub(MOST_TOLD);
        write!(text, " and {more} more")?;
    }
    Ok(text)
}

// Whether a firing takes an interaction out of a queue.
fn takes(walk: &Walk, firing: &Firing) -> bool {
    let Some(row) = row_of(&walk.system, firing.instance) else {
        return false;
    };
    match walk.behaviour.transition(row.body, firing.transition) {
        None => false,
        Some(transition) => transition.awaits.is_some(),
    }
}

// The first firing that is possible and takes something, or else the first one.
fn next_firing(alloc: Global, walk: &Walk) -> Result<Option<Firing>, AllocError> {
    let firings = walk.firings(alloc)?;
    for firing in firings.iter() {
        if takes(walk, firing) {
            return Ok(Some(*firing));
        }
    }
    Ok(firings.first().copied())
}

// Fires transitions as long as that is possible, but no more than so many.
fn settle(alloc: Global, walk: &mut Walk) -> Result<(), AllocError> {
    for _ in 0..MOST_FIRED {
        let Some(firing) = next_firing(alloc, walk)? else {
            return Ok(());
        };
        match walk.fire(alloc, &firing)? {
            None => return Ok(()),
            Some(made) => drop(made),
        }
    }
    Ok(())
}

// Adds what waits in a system after so many events, if something does.
fn append_told(
    alloc: Global,
    looked: &Looked,
    happened: usize,
    system: &System,
    notes: &mut String,
) -> Result<(), AllocError> {
    let told = told_of(alloc, looked, system)?;
    if told.count == 0 {
        return Ok(());
    }
    let text = waiting_note(alloc, &told)?;
    append_note(alloc, notes, looked.spot(happened), &text)
}

// Whether what is left of a trace is its quiet end, to which no run comes.
fn is_at_quiet_end(looked: &Looked, found: &Found) -> bool {
    looked.trace.is_quiet()
        && found.end != End::Accepted
        && found.others.happened == looked.trace.events().len()
}

// Adds what is due and what waits after a run from a start with so many events.
fn append_after(
    alloc: Global,
    looked: &Looked,
    walk: &mut Walk,
    begun: usize,
    found: &Found,
    notes: &mut String,
) -> Result<(), AllocError> {
    let trace = looked.trace.events().as_slice();
    make_all(alloc, walk, trace, begun, found.others.run.as_slice())?;
    if is_at_quiet_end(looked, found) {
        append_dues(alloc, walk, looked.specification, notes)?;
    }
    settle(alloc, walk)?;
    append_told(alloc, looked, found.others.happened, &walk.system, notes)
}

/// Adds what is due after the run that yields the most events, where the trace ends quiet there and
/// is refused; and what waits in queues after what may be fired then, if something does.
pub(crate) fn append_waiting(
    alloc: Global,
    looked: &Looked,
    found: &Found,
    notes: &mut String,
) -> Result<(), AllocError> {
    match Walk::start(alloc, looked.checked, looked.limits.statements)? {
        Started::Fault(_) => Ok(()),
        Started::Limit => Ok(()),
        Started::Ready { world, outs } => {
            let mut walk = world;
            let begun = outs.len();
            drop(outs);
            let done = append_after(alloc, looked, &mut walk, begun, found, notes);
            drop(walk);
            done
        }
    }
}
