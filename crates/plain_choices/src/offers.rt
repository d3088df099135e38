//! The offered choices of one instance.
ghost use Rattle.std.specs.Prelude.{◌≡◌, ◌+◌, [], IfOk, OnOk};
ghost use Rattle.std.specs.Option.{option_map};
ghost use Rattle.std.specs.Prelude.{slice_get};
ghost use Rattle.plain_guards.specs.plain_systems.HeldSystems.{situation_of};
ghost use Rattle.plain_choices.specs.inside.InstanceOffers.{instance_of, IsLiving, HasChoice};
ghost use Rattle.plain_choices.specs.inside.InstanceOffers.{IsCandidate};
ghost use Rattle.plain_choices.specs.inside.InstanceOffers.{IsSurvey, IsUpTo, IsFiringOf};
ghost use Rattle.plain_choices.specs.inside.InstanceOffers.{IsGathered};

use est_meaning::answers::Offers;
use est_meaning::firing::Firing;
use est_meaning::mean_blocks::frame::Frame;
use plain_clauses::candidate::Candidate;
use plain_clauses::missed::is_missed;
use plain_guards::judging::judge;
use plain_systems::system::{System, Working};
use plain_transitions::behaviour::Behaviour;
use plain_transitions::fits::Fits;
use std::alloc::{AllocError, Global};

/// A living instance by its number, with its body and its state.
#[derive(Clone, Copy)]
pub struct Instance {
    pub number: u32,
    pub body: u32,
    pub state: Option<u32>,
}

/// An offered choice, with whether it is due and its priority number.
#[derive(Clone, Copy)]
pub struct Offer {
    pub firing: Firing,
    pub due: bool,
    pub priority: Option<i32>,
}

/// The instance whose row stands at a position.
pub fn instance_at(system: &System, at: usize) -> Option<Instance>
    ensures { result ≡ option_map instance_of (slice_get (situation_of system.now).rows at) }
{
    match system.rows.get().get(at) {
        None => None,
        Some(row) => {
            let row = row.get();
            Some(Instance {
                number: row.number,
                body: row.body,
                state: row.state,
            })
        }
    }
}

// Goes on by the choice of a number.
fn add_choice(
    alloc: Global,
    behaviour: &Behaviour,
    limit: u32,
    candidate: &Candidate,
    choice: u32,
    chosen: Frame,
    working: &mut Working,
    offers: &mut Vec<Offer>,
) -> Result<Offers, AllocError>
    requires choice { HasChoice behaviour.now (situation_of working.old.system) candidate.now
        choice chosen }
    requires survey { IsSurvey limit behaviour.now (situation_of working.old.system)
        (IsUpTo candidate.now.instance candidate.now.number choice) offers.old.items }
    ensures survey { IfOk result (IsGathered limit behaviour.now (situation_of working.old.system)
        (IsUpTo candidate.now.instance candidate.now.number (choice + 1)) offers.new.items) }
    ensures system { OnOk result
        (situation_of working.new.system ≡ situation_of working.old.system) }
{
    let verdict = judge(alloc, behaviour.text(), limit, candidate, chosen, working)?;
    if verdict.passes {
        return Ok(Offers::Unsettled);
    }
    if verdict.offered {
        let firing = Firing {
            instance: candidate.instance,
            transition: candidate.number,
            choice,
        };
        offers.push(Offer {
            firing,
            due: verdict.due,
            priority: candidate.transition.priority,
        })?;
    }
    Ok(Offers::Settled)
}

// Goes on by the choices of a candidate.
fn add_choices(
    alloc: Global,
    behaviour: &Behaviour,
    limit: u32,
    candidate: &Candidate,
    working: &mut Working,
    offers: &mut Vec<Offer>,
) -> Result<Offers, AllocError>
    requires candidate { IsCandidate behaviour.now (situation_of working.old.system) candidate.now }
    requires survey { IsSurvey limit behaviour.now (situation_of working.old.system)
        (IsUpTo candidate.now.instance candidate.now.number 1) offers.old.items }
    ensures survey { IfOk result (IsGathered limit behaviour.now (situation_of working.old.system)
        (IsUpTo candidate.now.instance (candidate.now.number + 1) 0) offers.new.items) }
    ensures system { OnOk result
        (situation_of working.new.system ≡ situation_of working.old.system) }
{
    let mut choice: u32 = 1;
    while let Some(chosen) = behaviour.chosen(alloc, candidate.transition, choice)? {
        match add_choice(
            alloc, behaviour, limit, candidate, choice, chosen, working, offers,
        )? {
            Offers::Settled => {}
            Offers::Unsettled => return Ok(Offers::Unsettled),
        }
        choice = choice.checked_add(1).ok_or(AllocError)?;
    }
    Ok(Offers::Settled)
}

// Goes on by the choices of a candidate, none of which is looked at where its `when` is missed.
fn add_candidate(
    alloc: Global,
    behaviour: &Behaviour,
    limit: u32,
    candidate: &Candidate,
    working: &mut Working,
    offers: &mut Vec<Offer>,
) -> Result<Offers, AllocError>
    requires candidate { IsCandidate behaviour.now (situation_of working.old.system) candidate.now }
    requires survey { IsSurvey limit behaviour.now (situation_of working.old.system)
        (IsUpTo candidate.now.instance candidate.now.number 1) offers.old.items }
    ensures survey { IfOk result (IsGathered limit behaviour.now (situation_of working.old.system)
        (IsUpTo candidate.now.instance (candidate.now.number + 1) 0) offers.new.items) }
    ensures system { OnOk result
        (situation_of working.new.system ≡ situation_of working.old.system) }
{
    if is_missed(candidate, &working.system) {
        return Ok(Offers::Settled);
    }
    add_choices(alloc, behaviour, limit, candidate, working, offers)
}

// Goes on by a transition of an instance.
fn add_transition(
    alloc: Global,
    behaviour: &Behaviour,
    limit: u32,
    instance: Instance,
    fits: &Fits,
    number: u32,
    working: &mut Working,
    offers: &mut Vec<Offer>,
) -> Result<Offers, AllocError>
    requires living { IsLiving (situation_of working.old.system) instance }
    requires fits { fits.now ≡ record {
      text = behaviour.now;
      body = instance.body;
      state = instance.state;
    } }
    requires survey { IsSurvey limit behaviour.now (situation_of working.old.system)
        (IsUpTo instance.number number 1) offers.old.items }
    ensures survey { IfOk result (IsGathered limit behaviour.now (situation_of working.old.system)
        (IsUpTo instance.number (number + 1) 0) offers.new.items) }
    ensures system { OnOk result
        (situation_of working.new.system ≡ situation_of working.old.system) }
{
    match fits.transition(number) {
        None => Ok(Offers::Settled),
        Some(transition) => {
            let candidate = Candidate {
                instance: instance.number,
                state: instance.state,
                number,
                transition,
            };
            add_candidate(alloc, behaviour, limit, &candidate, working, offers)
        }
    }
}

/// Gathers the offered choices of a living instance.
pub fn gather(
    alloc: Global,
    behaviour: &Behaviour,
    limit: u32,
    instance: Instance,
    working: &mut Working,
    offers: &mut Vec<Offer>,
) -> Result<Offers, AllocError>
    requires living { IsLiving (situation_of working.old.system) instance }
    requires empty { offers.old.items ≡ [] }
    ensures survey { IfOk result (IsGathered limit behaviour.now (situation_of working.old.system)
        (IsFiringOf instance.number) offers.new.items) }
    ensures system { OnOk result
        (situation_of working.new.system ≡ situation_of working.old.system) }
{
    let fits = behaviour.fits(instance.body, instance.state);
    let mut after: u32 = 0;
    while let Some(number) = fits.next(after) {
        match add_transition(
            alloc, behaviour, limit, instance, &fits, number, working, offers,
        )? {
            Offers::Settled => {}
            Offers::Unsettled => return Ok(Offers::Unsettled),
        }
        after = number;
    }
    Ok(Offers::Settled)
}
