//! The subscripts of ports.
ghost use Rattle.std.specs.Prelude.{◌≡◌, ◌<◌, true, slice_get, IfOk};
ghost use Rattle.est_trace.specs.WrittenTraces.{kinds_at};
ghost use Rattle.est_trace.specs.inside.Subscripts.{AreSubscripts};

use est_syntax::kind::{Kind, Ordinals};
use est_syntax::name::{Bytes, Name};
use est_values::ordinals::{first_ordinal, ordinal_count};
use rule_ports::ports::Ports;
use std::alloc::{AllocError, Global};

/// The kinds of the subscripts of the port of this number; none where there is no such port.
pub fn kinds_at(ports: &Ports, port: u32) -> &[Kind]
    ensures { result.now ≡ kinds_at (slice_get ports.now port) }
{
    match ports.kinds(port) {
        None => &[],
        Some(kinds) => kinds.as_slice(),
    }
}

/// The subscripts of the port of this number. They are worked out from its place among the ports of
/// its name, and looked up before they are told. Errs where memory runs out.
pub fn subscripts(alloc: Global, ports: &Ports, port: u32) -> Result<Ordinals, AllocError>
    ensures { IfOk result (AreSubscripts ports.now port) }
{
    let name = name_of(alloc, ports, port)?;
    let index = subscripts_of(alloc, ports, port, &name);
    drop(name);
    index
}

// The name of the port of this number.
fn name_of(alloc: Global, ports: &Ports, port: u32) -> Result<Name, AllocError> {
    let bytes = ports.name(port).unwrap_or(&[]);
    Ok(Name {
        bytes: Bytes {
            items: Vec::from_slice(alloc, bytes)?,
        },
    })
}

// The subscripts of the port of this number, which has this name.
fn subscripts_of(
    alloc: Global,
    ports: &Ports,
    port: u32,
    name: &Name,
) -> Result<Ordinals, AllocError>
    ensures { IfOk result (AreSubscripts ports.now port) }
{
    let kinds = kinds_at(ports, port);
    let head = head(alloc, ports, kinds, name)?;
    let index = tuple_at(alloc, kinds, u64::from(port.saturating_sub(head)))?;
    if are_subscripts(ports, port, name, index.as_slice()) {
        Ok(index)
    } else {
        drop(index);
        Err(AllocError)
    }
}

// Whether the port of this number is the one of a name that has these subscripts.
fn are_subscripts(ports: &Ports, port: u32, name: &Name, index: &[i32]) -> bool
    ensures { result ≡ true → AreSubscripts ports.now port index.now }
{
    match ports.find(name, index) {
        Some(number) => number == port,
        None => false,
    }
}

// The number of the first port of a name, whose subscripts are of these kinds.
fn head(alloc: Global, ports: &Ports, kinds: &[Kind], name: &Name) -> Result<u32, AllocError> {
    let first = tuple_at(alloc, kinds, 0)?;
    let found = ports.find(name, first.as_slice());
    drop(first);
    Ok(found.unwrap_or(0))
}

// The tuple of ordinals of these kinds before which so many stand in lexicographic order.
fn tuple_at(alloc: Global, kinds: &[Kind], before: u64) -> Result<Ordinals, AllocError> {
    let mut tuple = Ordinals::new(alloc);
    let mut rest = before;
    for i in 0..kinds.len() {
        let size = tuple_count(&kinds[i + 1..]);
        tuple.push(ordinal_at(&kinds[i], rest / size))?;
        rest %= size;
    }
    Ok(tuple)
}

// How many tuples of ordinals of these kinds there are, and 1 where there are none.
fn tuple_count(kinds: &[Kind]) -> u64
    ensures { 0 < result }
{
    let mut count: u64 = 1;
    for kind in kinds {
        count = at_least_one(ordinal_count(kind).saturating_mul(count));
    }
    count
}

// A number, and 1 in place of 0.
fn at_least_one(number: u64) -> u64
    ensures { 0 < result }
{
    if number == 0 { 1 } else { number }
}

// The ordinal of a kind before which so many stand.
fn ordinal_at(kind: &Kind, before: u64) -> i32 {
    let most = i32::MAX as u64;
    first_ordinal(kind).saturating_add(before.min(most) as i32)
}
