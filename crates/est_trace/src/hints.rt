//! Where signals were found before.

ghost use Rattle.std.specs.Prelude.{◌≡◌, ◌≤◌, ◌^◌, true, map, slice_get, Some};
ghost use Rattle.std.specs.Prelude.{IfOk, IfSome, OnErr, is_some, bytes_eq};
ghost use Rattle.est_trace.specs.PortNames as names;
ghost use Rattle.est_trace.specs.PortNames.{signal_name, IsNumberOf};

use est_syntax::ports::{Direction, Signal};
use indexmap::IndexMap;
use std::alloc::{AllocError, Global};

/// Where signals were found in lists of signals. All ports of one side of a channel share one
/// list, so what was found at one port mostly stands at the same place of the list of another one.
/// It is tried there first, which keeps the work from growing with ports times signals. A hint is
/// always looked at, so it may be wrong.
#[derive(Drop)]
pub struct Hints {
    alloc: Global,
    numbers: IndexMap<Vec<u8>, Vec<usize>>,
    received: Vec<usize>,
    sent: Vec<usize>,
}

impl Hints {
    /// No hints.
    pub fn new(alloc: Global) -> Hints {
        Hints {
            alloc,
            numbers: IndexMap::new(alloc),
            received: Vec::new(alloc),
            sent: Vec::new(alloc),
        }
    }

    /// Whether some of the signals passes in this direction.
    pub fn some_pass(
        &mut self,
        signals: &[Signal],
        direction: Direction,
    ) -> Result<bool, AllocError>
        ensures { IfOk result (λ found. found ≡ names.some_pass direction signals.now) }
    {
        let places = match direction {
            Direction::Receives => &mut self.received,
            Direction::Sends => &mut self.sent,
        };
        if one_passes(places.as_slice(), signals, direction) {
            return Ok(true);
        }
        match first_passing(signals, direction) {
            Some(number) => {
                places.push(number)?;
                Ok(true)
            }
            None => Ok(false),
        }
    }

    /// The number of the signal of this name. Errs where memory runs out, or where 32 bits do not
    /// tell the number.
    pub fn number_of(&mut self, signals: &[Signal], name: &[u8]) -> Result<Option<u32>, AllocError>
        ensures { IfOk result (λ found. IsNumberOf name.now (map signal_name signals.now) found) }
    {
        if let Some(number) = self.tried(signals, name) {
            return told(number);
        }
        match first_named(signals, name) {
            Some(number) => {
                self.learn(signals)?;
                told(number)
            }
            None => Ok(None),
        }
    }

    // The number of the signal of this name, where a hint tells it.
    fn tried(&self, signals: &[Signal], name: &[u8]) -> Option<usize>
        ensures { IfSome result (λ number. slice_get (map signal_name signals.now) number
            ≡ Some name.now) }
    {
        let numbers = self.numbers.get(name)?;
        for number in numbers {
            if *number < signals.len() && is_named(&signals[*number], name) {
                return Some(*number);
            }
        }
        None
    }

    // Notes the numbers of these signals.
    fn learn(&mut self, signals: &[Signal]) -> Result<(), AllocError> {
        for (number, signal) in signals.iter().enumerate() {
            self.note(signal.name.bytes.as_slice(), number)?;
        }
        Ok(())
    }

    // Notes a number of a name.
    fn note(&mut self, name: &[u8], number: usize) -> Result<(), AllocError> {
        if let Some(numbers) = self.numbers.get_mut(name) {
            if !numbers.contains(&number) {
                numbers.push(number)?;
            }
            return Ok(());
        }
        let mut numbers = Vec::new(self.alloc);
        numbers.push(number)?;
        let key = Vec::from_slice(self.alloc, name)?;
        self.numbers.insert(key, numbers)?;
        Ok(())
    }
}

/// Whether the signal passes its port in this direction.
pub fn passes(signal: &Signal, direction: Direction) -> bool
    ensures { result ≡ names.passes direction signal.now }
{
    match direction {
        Direction::Receives => signal.receives,
        Direction::Sends => signal.sends,
    }
}

// A number, where 32 bits tell it.
fn told(number: usize) -> Result<Option<u32>, AllocError>
    ensures ok { IfOk result (λ found. found ≡ Some number) }
    ensures err { OnErr result (2 ^ 32 ≤ number) }
{
    if number <= u32::MAX as usize {
        Ok(Some(number as u32))
    } else {
        Err(AllocError)
    }
}

// Whether the signal has this name.
fn is_named(signal: &Signal, name: &[u8]) -> bool
    ensures { result ≡ bytes_eq (signal_name signal.now) name.now }
{
    signal.name.bytes.as_slice() == name
}

// The number of the first signal that passes in this direction.
fn first_passing(signals: &[Signal], direction: Direction) -> Option<usize>
    ensures { is_some result ≡ names.some_pass direction signals.now }
{
    for number in 0..signals.len() {
        if passes(&signals[number], direction) {
            return Some(number);
        }
    }
    None
}

// The number of the first signal of this name.
fn first_named(signals: &[Signal], name: &[u8]) -> Option<usize>
    ensures { IsNumberOf name.now (map signal_name signals.now) result }
{
    for number in 0..signals.len() {
        if is_named(&signals[number], name) {
            return Some(number);
        }
    }
    None
}

// Whether a signal of one of these numbers passes in this direction.
fn one_passes(numbers: &[usize], signals: &[Signal], direction: Direction) -> bool
    ensures { result ≡ true → names.some_pass direction signals.now ≡ true }
{
    for number in numbers {
        if let Some(signal) = signals.get(*number) {
            if passes(signal, direction) {
                return true;
            }
        }
    }
    false
}
