//! What may pass the interaction points of a module.
#![tactic(auto, using(crate::proofs::KnownLaws::known_at, crate::proofs::KnownLaws::known_with))]

ghost use Rattle.std.specs.Prelude.{◌≡◌, ◌∷◌, ◌++◌, [], Some, IfOk, OnOk, option_copied};
ghost use Rattle.rule_scope.specs.Outline.{entry_at, member_at, names_of};
ghost use Rattle.rule_declares.specs.PortList.{kind_by, kinds_in, signal_by, signals_in};
ghost use Rattle.rule_declares.specs.PortList.{signals_of};
ghost use Rattle.rule_ports.specs.inside.KnownSides.{IsKnown, AreKnown};

use crate::known::{Known, Sides};
use est_syntax::channel::Role;
use est_syntax::est_items::{Items, Shared};
use est_syntax::kind::Kinds;
use est_syntax::name::{Bytes, Name};
use est_syntax::ports::{Direction, SharedSignals, Signal, Signals};
use rule_declares::lookups::may_pass;
use rule_scope::declaration::{Entry, Member, Side, Sort, Standing};
use rule_scope::names::Names;
use rule_scope::outline::Outline;
use std::alloc::{AllocError, Global};

// A name of these bytes.
fn name_of(alloc: Global, bytes: &[u8]) -> Result<Name, AllocError>
    ensures { IfOk result (λ name. name.bytes ≡ bytes.now) }
{
    Ok(Name {
        bytes: Bytes {
            items: Vec::from_slice(alloc, bytes)?,
        },
    })
}

// Pushes the kind of a parameter, where it has one.
fn push_kind(into: &mut Kinds, entry: Option<&Entry>) -> Result<(), AllocError>
    ensures { OnOk result (into.new ≡ into.old ++ kind_by (option_copied entry.entry)) }
{
    match entry {
        None => Ok(()),
        Some(entry) => {
            if Sort::Variable != entry.declared.sort {
                return Ok(());
            }
            match &entry.kind {
                None => Ok(()),
                Some(measured) => into.push(measured.kind.copy()?),
            }
        }
    }
}

// The kinds of the parameters among names.
fn kinds_in(alloc: Global, outline: &Outline, names: &Names) -> Result<Kinds, AllocError>
    ensures { IfOk result (λ kinds. kinds ≡ kinds_in outline.now names.now) }
{
    let mut kinds = Items::new(alloc);
    for i in 0..names.len() {
        push_kind(&mut kinds, outline.entry(names.entry(i).1.place))?;
    }
    Ok(kinds)
}

// The kinds of the parameters of an interaction, whose region this is.
fn parameter_kinds(alloc: Global, outline: &Outline, region: u32) -> Result<Kinds, AllocError>
    ensures { IfOk result (λ kinds. kinds ≡ kinds_in outline.now (names_of outline.now region)) }
{
    match outline.names(region) {
        None => Ok(Items::new(alloc)),
        Some(names) => kinds_in(alloc, outline, names),
    }
}

// Pushes the interaction that a name of a channel stands for, if for one.
fn push_signal(
    into: &mut Signals,
    outline: &Outline,
    role: Role,
    name: &[u8],
    standing: Standing,
) -> Result<(), AllocError>
    ensures { OnOk result (into.new ≡ into.old ++ signal_by outline.now role (name.now, standing)
        (member_at outline.now standing.place)) }
{
    match outline.member(standing.place) {
        Some(Member::Interaction(senders)) => {
            let alloc = *into.items.allocator();
            let kinds = parameter_kinds(alloc, outline, standing.place)?;
            into.push(Signal {
                name: name_of(alloc, name)?,
                kinds,
                sends: may_pass(Direction::Sends, role, senders),
                receives: may_pass(Direction::Receives, role, senders),
            })
        }
        _ => Ok(()),
    }
}

// The interactions among names, at a point in this role.
fn signals_in(
    alloc: Global,
    outline: &Outline,
    role: Role,
    names: &Names,
) -> Result<Signals, AllocError>
    ensures { IfOk result (λ signals. signals ≡ signals_in outline.now role names.now) }
{
    let mut signals = Items::new(alloc);
    for i in 0..names.len() {
        let (name, standing) = names.entry(i);
        push_signal(&mut signals, outline, role, name, standing)?;
    }
    Ok(signals)
}

// The interactions of a channel, at a point in this role.
fn channel_signals(
    alloc: Global,
    outline: &Outline,
    role: Role,
    channel: u32,
) -> Result<SharedSignals, AllocError>
    ensures { IfOk result
        (λ signals. signals ≡ signals_in outline.now role (names_of outline.now channel)) }
{
    match outline.names(channel) {
        None => Shared::new(alloc, Items::new(alloc)),
        Some(names) => Shared::new(alloc, signals_in(alloc, outline, role, names)?),
    }
}

// Both sides of a channel.
fn sides_of(alloc: Global, outline: &Outline, channel: u32) -> Result<Sides, AllocError>
    ensures { IfOk result (IsKnown outline.now channel) }
{
    let first = channel_signals(alloc, outline, Role::First, channel)?;
    let second = channel_signals(alloc, outline, Role::Second, channel)?;
    Ok(Sides { first, second })
}

// What may pass a point of this side, which is made where it is not known yet.
fn side_signals(
    outline: &Outline,
    known: &mut Known,
    side: Side,
) -> Result<SharedSignals, AllocError>
    requires { AreKnown outline.now known.old }
    ensures known { OnOk result (AreKnown outline.now known.new) }
    ensures signals { IfOk result (λ signals. signals ≡ signals_of outline.now (Some side)) }
{
    if let Some(sides) = known.get(side.channel) {
        return sides.of(side.role).share();
    }
    let sides = sides_of(known.alloc(), outline, side.channel)?;
    let signals = sides.of(side.role).share()?;
    known.add(side.channel, sides)?;
    Ok(signals)
}

/// What may pass a point of this side, or no signals where there is no side. Points of one side
/// share their signals.
pub fn signals_of(
    outline: &Outline,
    known: &mut Known,
    side: Option<Side>,
) -> Result<SharedSignals, AllocError>
    requires { AreKnown outline.now known.old }
    ensures known { OnOk result (AreKnown outline.now known.new) }
    ensures signals { IfOk result (λ signals. signals ≡ signals_of outline.now side) }
{
    match side {
        None => {
            let alloc = known.alloc();
            Shared::new(alloc, Items::new(alloc))
        }
        Some(side) => side_signals(outline, known, side),
    }
}
