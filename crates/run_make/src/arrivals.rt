//! What may arrive at the ports of a specification.
ghost use Rattle.std.specs.Prelude.{◌≡◌, ◌≤◌, ◌^◌, ◌++◌, IfOk, OnOk, OnErr};
ghost use Rattle.run_make.specs.Arrivals.{arrivals_of, received_from};

use est_syntax::ports::Signals;
use rule_ports::ports::Ports;
use std::alloc::{AllocError, Global};

/// A port and a signal that it receives, by their numbers.
#[derive(Clone, Copy)]
pub struct Arrival {
    pub port: u32,
    pub signal: u32,
}

// A number of 32 bits. Errs where there is none.
fn number_of(place: usize) -> Result<u32, AllocError>
    ensures ok { IfOk result (λ number. number ≡ place) }
    ensures err { OnErr result (2 ^ 32 ≤ place) }
{
    if place > u32::MAX as usize {
        return Err(AllocError);
    }
    Ok(place as u32)
}

// Pushes those of a port. Errs where memory runs out, or has no room for so many.
fn push_received(into: &mut Vec<Arrival>, port: u32, signals: &Signals) -> Result<(), AllocError>
    ensures { OnOk result
        (into.new.items ≡ into.old.items ++ received_from port 0 signals.now) }
{
    let signals = signals.as_slice();
    for i in 0..signals.len() {
        if signals[i].receives {
            let signal = number_of(i)?;
            into.push(Arrival { port, signal })?;
        }
    }
    Ok(())
}

/// What may arrive at the ports, in order. Errs where memory runs out, or has no room for so many.
pub fn arrivals(alloc: Global, ports: &Ports) -> Result<Vec<Arrival>, AllocError>
    ensures { IfOk result (λ arrivals. arrivals.items ≡ arrivals_of ports.now) }
{
    let mut arrivals = Vec::new(alloc);
    let count = ports.count();
    if count > u32::MAX as u64 {
        return Err(AllocError);
    }
    for number in 0..count {
        match ports.signals(number as u32) {
            None => unreachable!(),
            Some(signals) => push_received(&mut arrivals, number as u32, signals)?,
        }
    }
    Ok(arrivals)
}
