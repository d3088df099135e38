//! The ports that a specification declares.
#![tactic(auto)]

ghost use Rattle.std.specs.Prelude.{◌≡◌, ◌++◌, IfOk, OnOk, None, Some, length, map};
ghost use Rattle.std.specs.Map.{lookup};
ghost use Rattle.est_syntax.specs.Names.{is_name};
ghost use Rattle.rule_scope.specs.Outline.{entry_at};
ghost use Rattle.rule_declares.specs.Bodies.{outline_of};
ghost use Rattle.rule_declares.specs.Differing.{HaveDifferentNames};
ghost use Rattle.rule_declares.specs.OutlineLaws.{HaveElements, elements_of};
ghost use Rattle.rule_declares.specs.OrdinalValues.{tuples_of};
ghost use Rattle.rule_declares.specs.PortList.{element, elements_by, ports_in, ports_of};
ghost use Rattle.rule_ports.specs.PortTable.{IsTable, listed, capped};
ghost use Rattle.rule_ports.specs.inside.KnownSides.{AreKnown};
ghost use Rattle.rule_ports.specs.inside.Making.{IsWith, AreMade};

use crate::known::Known;
use crate::ports::{Ports, ports_before};
use crate::signals::signals_of;
use crate::table::{Elements, PointTable};
use est_syntax::ports::SharedSignals;
use est_syntax::specification::Spec;
use rule_declares::lookups::started_header;
use rule_scope::declaration::{Entry, SharedKinds, Sort};
use rule_scope::names::Names;
use rule_scope::outline::Outline;
use std::alloc::{AllocError, Global};

// Adds an interaction point of a new name, with so many elements.
fn add_point(
    points: &mut PointTable,
    name: &[u8],
    kinds: &SharedKinds,
    signals: SharedSignals,
    elements: u64,
) -> Result<(), AllocError>
    requires table { IsTable points.old }
    requires fresh { lookup (is_name name.now) points.old ≡ None }
    requires elements { elements ≡ capped (length (tuples_of kinds.now)) }
    ensures { OnOk result (IsWith name.now
        (map (element name.now kinds.now signals) (tuples_of kinds.now)) points.old points.new) }
{
    let until = ports_before(points, points.len()).saturating_add(elements);
    let kinds = kinds.share()?;
    points.add(
        name,
        Elements {
            kinds,
            signals,
            until,
        },
    )?;
    Ok(())
}

// Adds the interaction point that a declaration of a new name is, if it is one.
fn push_entry(
    points: &mut PointTable,
    outline: &Outline,
    known: &mut Known,
    name: &[u8],
    entry: &Entry,
) -> Result<(), AllocError>
    requires known { AreKnown outline.now known.old }
    requires elements { entry.now.elements ≡ elements_of entry.now }
    requires table { IsTable points.old }
    requires fresh { lookup (is_name name.now) points.old ≡ None }
    ensures known { OnOk result (AreKnown outline.now known.new) }
    ensures point { OnOk result (IsWith name.now
        (elements_by outline.now name.now (Some entry.now)) points.old points.new) }
{
    if Sort::Point != entry.declared.sort {
        return Ok(());
    }
    match &entry.dims {
        None => Ok(()),
        Some(kinds) => {
            let signals = signals_of(outline, known, entry.side)?;
            add_point(points, name, kinds, signals, entry.elements)
        }
    }
}

// The same of what is declared at a place.
fn push_point(
    points: &mut PointTable,
    outline: &Outline,
    known: &mut Known,
    name: &[u8],
    place: u32,
) -> Result<(), AllocError>
    requires known { AreKnown outline.now known.old }
    requires elements { HaveElements outline.now }
    requires table { IsTable points.old }
    requires fresh { lookup (is_name name.now) points.old ≡ None }
    ensures known { OnOk result (AreKnown outline.now known.new) }
    ensures point { OnOk result (IsWith name.now
        (elements_by outline.now name.now (entry_at outline.now place)) points.old points.new) }
{
    match outline.entry(place) {
        None => Ok(()),
        Some(entry) => push_entry(points, outline, known, name, entry),
    }
}

// The interaction points among names.
fn points_in(alloc: Global, outline: &Outline, names: &Names) -> Result<PointTable, AllocError>
    requires elements { HaveElements outline.now }
    requires different { HaveDifferentNames (λ n. n.0) names.now }
    ensures { IfOk result (AreMade (ports_in outline.now names.now)) }
{
    let mut known = Known::new(alloc);
    let mut points = PointTable::new(alloc);
    for i in 0..names.len() {
        let (name, standing) = names.entry(i);
        push_point(&mut points, outline, &mut known, name, standing.place)?;
    }
    drop(known);
    Ok(points)
}

// The interaction points of the module that a specification with this outline starts.
fn points(alloc: Global, outline: &Outline, spec: &Spec) -> Result<PointTable, AllocError>
    requires { outline.now ≡ outline_of spec.now }
    ensures { IfOk result (AreMade (ports_of spec.now)) }
{
    match started_header(outline, &spec.first) {
        None => Ok(PointTable::new(alloc)),
        Some(header) => match outline.names(header) {
            None => Ok(PointTable::new(alloc)),
            Some(names) => points_in(alloc, outline, names),
        },
    }
}

/// The ports of a specification with this outline.
pub fn ports(alloc: Global, outline: &Outline, spec: &Spec) -> Result<Ports, AllocError>
    requires { outline.now ≡ outline_of spec.now }
    ensures { IfOk result (λ ports. ports ≡ ports_of spec.now) }
{
    Ok(Ports::new(points(alloc, outline, spec)?))
}
