//! What is left of the lists on the way of a search.
ghost use Rattle.std.specs.Prelude.{◌≡◌, ℕ, ◌+◌, ◌<◌, ◌≤◌, ◌^◌, ◌↔◌, List, [], ◌∷◌, ◌++◌, length};
ghost use Rattle.std.specs.Prelude.{IsTrue, IfOk, IfSome, IfNone, OnOk, MatchBool, reverse};
ghost use Rattle.est_meaning.specs.declared.event.Event.{Event};
ghost use Rattle.mean_ports.specs.Merges.{IsAt};
ghost use Rattle.mean_ports.specs.PortRuns.{Left, all_left, IsAllUsed, IsNextAt};
ghost use Rattle.est_ports.specs.inside.Leftover.{Stand, UsesAt, UsesTime, Uses, used_of, stand_of};
ghost use Rattle.est_ports.specs.inside.Leftover.{HasUsedUp, Stands, ArrivesNext, PassesNext, HasUsed};
ghost use Rattle.est_ports.specs.inside.Leftover.{UsedNext, NotNext, UsesMore, lower, kept};
ghost use Rattle.est_ports.specs.inside.Leftover.{KeepsBest};

use crate::cursors::{
    advance, are_used, arrives_at, end_all, lists_at, next_in, port_of, retreat, start_all,
};
use est_meaning::event::Event;
use mean_ports::lists::PortLists;
use run_paths::path::Best;
use std::alloc::{AllocError, Global};

/// What was used up: the next event of a port, or the time that ends a phase.
#[derive(Clone, Copy, PartialEq, Eq)]
pub enum Used {
    At(u32),
    Time,
}

/// A phase of lists, how many events of each of its lists are used up, and what was used up from
/// the start on, in order.
#[derive(Drop)]
pub struct Rest {
    pub phase: usize,
    pub cursors: Vec<usize>,
    pub used: Vec<Used>,
}

impl Rest {
    /// All of the lists are left.
    pub fn new(alloc: Global, lists: &PortLists) -> Result<Rest, AllocError>
        ensures stands { IfOk result
            (λ rest. Stands lists.now rest (all_left lists.now.phases lists.now.times) []) }
        ensures used { IfOk result (λ rest. used_of rest ≡ []) }
    {
        let mut rest = Rest {
            phase: 0,
            cursors: Vec::new(alloc),
            used: Vec::new(alloc),
        };
        start_all(&mut rest.cursors, lists_at(lists, 0))?;
        Ok(rest)
    }

    /// Whether nothing is left.
    pub fn is_all_used(&self, lists: &PortLists) -> bool
        ensures { (left : Left) (events : List Event) → Stands lists.now self.now left events
            → (IsTrue result ↔ IsAllUsed left) }
    {
        if has_later(lists, self.phase) {
            return false;
        }
        if lists.times.len() > self.phase {
            return false;
        }
        are_used(&self.cursors, lists_at(lists, self.phase))
    }

    /// The next event of a port, where it is an arrival there.
    pub fn arrival<'l>(&self, lists: &'l PortLists, port: usize) -> Option<&'l Event>
        ensures some { IfSome result (λ e. (left : Left) (events : List Event)
            → Stands lists.now self.now left events → ArrivesNext left port e.now) }
        ensures none { IfNone result ((left : Left) (events : List Event)
            → Stands lists.now self.now left events → (e : Event) → ArrivesNext left port e → ⊥) }
        ensures small { IfSome result (λ _. port < 2 ^ 32) }
    {
        let now = lists_at(lists, self.phase);
        let Some(event) = next_in(&self.cursors, now, port) else {
            return None;
        };
        if arrives_at(event, port) {
            Some(event)
        } else {
            None
        }
    }

    /// How many units of time pass next, where the phase is used up and a time follows.
    pub fn passing(&self, lists: &PortLists) -> Option<u32>
        ensures some { IfSome result (λ units. (left : Left) (events : List Event)
            → Stands lists.now self.now left events
            → (after : Left) × PassesNext left units after) }
        ensures none { IfNone result ((left : Left) (events : List Event)
            → Stands lists.now self.now left events
            → (units : ℕ) (after : Left) → PassesNext left units after → ⊥) }
    {
        if !has_later(lists, self.phase) {
            return None;
        }
        if !are_used(&self.cursors, lists_at(lists, self.phase)) {
            return None;
        }
        let Some(units) = lists.times.get(self.phase) else {
            return None;
        };
        Some(*units)
    }

    /// Uses up the next event of a port, and says where it stands then.
    pub fn step_at(&mut self, lists: &PortLists, port: u32) -> Result<(), AllocError>
        ensures used { OnOk result (used_of self.new ≡ Used.At port ∷ used_of self.old) }
        ensures leads { OnOk result ((events : List Event) (t : Stand)
            → UsesAt lists.now (stand_of self.old events) port t → stand_of self.new t.events ≡ t) }
    {
        let now = lists_at(lists, self.phase);
        advance(&mut self.cursors, now, port as usize);
        self.used.push(Used::At(port))?;
        Ok(())
    }

    /// Uses up the next event of a port.
    pub fn take(&mut self, lists: &PortLists, port: u32) -> Result<(), AllocError>
        ensures used { OnOk result (used_of self.new ≡ Used.At port ∷ used_of self.old) }
        ensures stands { OnOk result ((left after : Left) (events : List Event) (e : Event)
            → Stands lists.now self.old left events → IsAt port e → IsNextAt left e after
            → Stands lists.now self.new after (events ++ e ∷ [])) }
    {
        self.step_at(lists, port)?;
        Ok(())
    }

    /// Uses up the time that ends the phase, and says where it stands then.
    pub fn step_over(&mut self, lists: &PortLists) -> Result<(), AllocError>
        ensures used { OnOk result (used_of self.new ≡ Used.Time ∷ used_of self.old) }
        ensures leads { OnOk result ((events : List Event) (t : Stand)
            → UsesTime lists.now (stand_of self.old events) t → stand_of self.new t.events ≡ t) }
    {
        if has_later(lists, self.phase) {
            self.phase += 1;
        }
        start_all(&mut self.cursors, lists_at(lists, self.phase))?;
        self.used.push(Used::Time)?;
        Ok(())
    }

    /// Uses up the time that ends the phase.
    pub fn pass(&mut self, lists: &PortLists) -> Result<(), AllocError>
        ensures used { OnOk result (used_of self.new ≡ Used.Time ∷ used_of self.old) }
        ensures stands { OnOk result ((left after : Left) (events : List Event) (units : ℕ)
            → Stands lists.now self.old left events → PassesNext left units after
            → Stands lists.now self.new after (events ++ Event.Passes units ∷ [])) }
    {
        self.step_over(lists)?;
        Ok(())
    }

    // Uses up an event, if it is the next one of its port. The answer says whether it is.
    fn use_one(&mut self, lists: &PortLists, out: &Event) -> Result<bool, AllocError>
        ensures { IfOk result (λ done. MatchBool done (UsedNext lists.now self.old self.new out.now)
            (NotNext lists.now self.old self.new out.now)) }
    {
        let Some(port) = port_of(out) else {
            return Ok(false);
        };
        let now = lists_at(lists, self.phase);
        let Some(event) = next_in(&self.cursors, now, port as usize) else {
            return Ok(false);
        };
        if !event.is(out) {
            return Ok(false);
        }
        self.take(lists, port)?;
        Ok(true)
    }

    /// Uses up the first of these events that are the next ones of their ports, one by one. The
    /// answer says how many.
    pub fn use_up(&mut self, lists: &PortLists, outs: &[Event]) -> Result<usize, AllocError>
        ensures within { IfOk result (λ many. many ≤ length outs.now) }
        ensures used { IfOk result (λ many. UsesMore (used_of self.old) (used_of self.new) many) }
        ensures stands { IfOk result (λ many. (left : Left) (events : List Event)
            → Stands lists.now self.old left events
            → HasUsed lists.now self.new left events outs.now many) }
    {
        let mut many = 0;
        'outs: while many < outs.len() {
            let used = self.use_one(lists, &outs[many])?;
            if !used {
                return Ok(many);
            }
            many += 1;
        }
        Ok(many)
    }

    // Undoes what was used up last.
    fn undo(&mut self, lists: &PortLists, undone: Used) -> Result<(), AllocError>
        ensures used { OnOk result (self.new.used ≡ self.old.used) }
        ensures leads { OnOk result ((s : Stand) (events : List Event)
            → Uses lists.now s undone (stand_of self.old events)
            → stand_of self.new s.events ≡ s) }
    {
        match undone {
            Used::At(port) => {
                retreat(&mut self.cursors, port as usize);
                Ok(())
            }
            Used::Time => {
                self.phase = self.phase.saturating_sub(1);
                end_all(&mut self.cursors, lists_at(lists, self.phase))?;
                Ok(())
            }
        }
    }

    /// Goes back to where so many were used up, and tells each that is undone to the best run.
    pub fn back_to(
        &mut self,
        lists: &PortLists,
        height: usize,
        best: &mut Best<Used>,
    ) -> Result<(), AllocError>
        ensures used { OnOk result (used_of self.new ≡ lower height (used_of self.old)) }
        ensures stands { OnOk result ((left before : Left) (events front : List Event)
            → Stands lists.now self.old left events
            → HasUsedUp lists.now (lower height (used_of self.old)) before front
            → Stands lists.now self.new before front) }
        ensures best { OnOk result (best.old.common ≤ length (used_of self.old)
            → KeepsBest best.old (used_of self.old) best.new (used_of self.new)) }
    {
        'back: while self.used.len() > height {
            let Some(undone) = self.used.pop() else {
                return Ok(());
            };
            self.undo(lists, undone)?;
            best.keep(self.used.len(), undone)?;
        }
        Ok(())
    }
}

// Whether a phase follows the one with this number.
fn has_later(lists: &PortLists, phase: usize) -> bool
    ensures later { IsTrue result ↔ (phase + 1 < length lists.now.phases) }
    ensures small { IsTrue result → phase + 1 < 2 ^ 64 }
{
    phase < lists.phases.len() && lists.phases.len() - phase > 1
}

/// The best run is the one that has used up so many, which are all that are used up now.
pub fn renew(best: &mut Best<Used>, yields: u32, height: usize)
    ensures yields { best.new.yields ≡ yields }
    ensures common { best.new.common ≡ height }
    ensures tail { best.new.tail.items ≡ [] }
{
    best.tail.clear();
    best.common = height;
    best.yields = yields;
}

/// What the best run uses up, in order, where these are used up now.
pub fn kept_list(alloc: Global, used: &[Used], best: &Best<Used>) -> Result<Vec<Used>, AllocError>
    ensures { IfOk result (λ list. reverse list.items ≡ kept best.now (reverse used.now)) }
{
    let common = best.common.min(used.len());
    let mut list = used[..common].to_vec(alloc)?;
    for at in (0..best.tail.len()).rev() {
        list.push(best.tail[at])?;
    }
    Ok(list)
}
