//! How many bodies, transitions and ports a specification has.
#![tactic(auto, using(crate::proofs::CountRows::rows))]

ghost use Rattle.std.specs.Prelude.{◌≡◌};
ghost use Rattle.rule_scope.specs.Outline.{entry_at};
ghost use Rattle.rule_ports.specs.Counts.{part_bodies, bodies, part_transitions, transitions};
ghost use Rattle.rule_ports.specs.Counts.{declared_elements, names_elements};
ghost use Rattle.rule_ports.specs.Counts.{header_elements, counted, counts_by};
ghost use Rattle.rule_ports.specs.inside.Counted.{body_bodies, group_count, group_counts};
ghost use Rattle.rule_ports.specs.inside.Counted.{body_transitions};

use est_syntax::body::{Body, Part};
use est_syntax::specification::Spec;
use est_syntax::transition::Group;
use rule_declares::lookups::started_header;
use rule_scope::names::Names;
use rule_scope::outline::Outline;

/// The numbers of declared bodies, of transitions and of ports.
#[derive(Clone, Copy)]
pub struct Counts {
    pub bodies: u32,
    pub transitions: u32,
    pub ports: u32,
}

// A body, and the bodies within it.
#[cycle(bodies)]
fn body_bodies(body: &Body) -> u64
    ensures { result ≡ body_bodies body.now }
{
    bodies(body.parts.as_slice()).saturating_add(1)
}

// The bodies that a part declares, those within bodies too.
#[cycle(bodies)]
fn part_bodies(part: &Part) -> u64
    ensures { result ≡ part_bodies part.now }
{
    match part {
        Part::Body(body) => body_bodies(body),
        _ => 0,
    }
}

// The bodies that parts declare, those within bodies too.
#[cycle(bodies)]
fn bodies(parts: &[Part]) -> u64
    ensures { result ≡ bodies parts.now }
{
    let mut sum: u64 = 0;
    for i in (0..parts.len()).rev() {
        sum = part_bodies(&parts[i]).saturating_add(sum);
    }
    sum
}

// The transitions of groups.
fn group_counts(groups: &[Group]) -> u64
    ensures { result ≡ group_counts groups.now }
{
    let mut sum: u64 = 0;
    for i in (0..groups.len()).rev() {
        sum = (groups[i].transitions.len() as u64).saturating_add(sum);
    }
    sum
}

// The transitions of a body, and of the bodies within it.
#[cycle(transitions)]
fn body_transitions(body: &Body) -> u64
    ensures { result ≡ body_transitions body.now }
{
    group_counts(body.groups.as_slice()).saturating_add(transitions(body.parts.as_slice()))
}

// The transitions of the bodies that a part declares.
#[cycle(transitions)]
fn part_transitions(part: &Part) -> u64
    ensures { result ≡ part_transitions part.now }
{
    match part {
        Part::Body(body) => body_transitions(body),
        _ => 0,
    }
}

// The transitions of all bodies that parts declare.
#[cycle(transitions)]
fn transitions(parts: &[Part]) -> u64
    ensures { result ≡ transitions parts.now }
{
    let mut sum: u64 = 0;
    for i in (0..parts.len()).rev() {
        sum = part_transitions(&parts[i]).saturating_add(sum);
    }
    sum
}

// The elements of the interaction point that is declared at a place, if one is.
fn declared_elements(outline: &Outline, place: u32) -> u64
    ensures { result ≡ declared_elements (entry_at outline.now place) }
{
    match outline.entry(place) {
        None => 0,
        Some(entry) => entry.elements,
    }
}

// The elements of the interaction points among these names.
fn names_elements(outline: &Outline, names: &Names) -> u64
    ensures { result ≡ names_elements outline.now names.now }
{
    let mut sum: u64 = 0;
    for i in (0..names.len()).rev() {
        sum = declared_elements(outline, names.entry(i).1.place).saturating_add(sum);
    }
    sum
}

// The elements of the interaction points of a header.
fn header_elements(outline: &Outline, header: Option<u32>) -> u64
    ensures { result ≡ header_elements outline.now header }
{
    match header {
        None => 0,
        Some(header) => match outline.names(header) {
            None => 0,
            Some(names) => names_elements(outline, names),
        },
    }
}

// A number, as far as 32 bits go.
fn counted(number: u64) -> u32
    ensures { result ≡ counted number }
{
    if number > u32::MAX as u64 {
        u32::MAX
    } else {
        number as u32
    }
}

/// The numbers of a specification, whose outline this is.
pub fn numbers(outline: &Outline, spec: &Spec) -> Counts
    ensures { result ≡ counts_by outline.now spec.now }
{
    let header = started_header(outline, &spec.first);
    Counts {
        bodies: counted(bodies(spec.parts.as_slice())),
        transitions: counted(transitions(spec.parts.as_slice())),
        ports: counted(header_elements(outline, header)),
    }
}
