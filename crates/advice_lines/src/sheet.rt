//! The moves of a run, as they are shown.

use std::alloc::Global;

/// What kind of move it is: the start, an arrival, a passing of time, or a firing.
#[derive(Clone, Copy, PartialEq, Eq)]
pub enum MoveKind {
    Start,
    Arrival,
    Time,
    Firing,
}

/// What kind of effect a move has.
#[derive(Clone, Copy, PartialEq, Eq)]
pub enum EffectKind {
    /// An interaction leaves the system.
    Leaves,
    /// An interaction comes to a queue of an instance.
    Waits,
    /// An instance begins.
    Begins,
    /// An instance is released.
    Ends,
}

/// An effect of a move, with the instance that it is on and what is said of it.
#[derive(Drop)]
pub struct Effect {
    pub kind: EffectKind,
    pub instance: u32,
    pub text: String,
}

/// A move: what happens, and the clock after it. Of a firing it has the instance and the name of
/// its module, what the transition is called and on which line it stands, and the states before and
/// after it. `taken` is the event that happens outside, or the interaction that is taken out of a
/// queue. What there is none of is empty or 0.
#[derive(Drop)]
pub struct ShownMove {
    pub kind: MoveKind,
    pub clock: u64,
    pub instance: u32,
    pub module: String,
    pub transition: String,
    pub line: usize,
    pub before: String,
    pub after: String,
    pub taken: String,
    pub effects: Vec<Effect>,
}

/// An instance, with the name of its module, and the numbers of the moves in which it begins and is
/// released, the start being 0.
#[derive(Drop)]
pub struct Life {
    pub instance: u32,
    pub module: String,
    pub begin: usize,
    pub end: Option<usize>,
}

/// What comes after the moves of a run that yields a part of a trace: the next event, whether it is
/// refused there, and what could have come in its place, a line each.
#[derive(Drop)]
pub struct Ending {
    pub event: String,
    pub is_refused: bool,
    pub wanted: Vec<String>,
}

/// The start and the moves of a run, and its instances in the order of their numbers; and what comes
/// after the moves, where that is known.
#[derive(Drop)]
pub struct Sheet {
    pub moves: Vec<ShownMove>,
    pub lives: Vec<Life>,
    pub ending: Option<Ending>,
}

impl ShownMove {
    /// A move of this kind, of which nothing else is known.
    pub fn new(alloc: Global, kind: MoveKind) -> ShownMove {
        ShownMove {
            kind,
            clock: 0,
            instance: 0,
            module: String::new(alloc),
            transition: String::new(alloc),
            line: 0,
            before: String::new(alloc),
            after: String::new(alloc),
            taken: String::new(alloc),
            effects: Vec::new(alloc),
        }
    }
}

impl Sheet {
    /// No moves.
    pub fn new(alloc: Global) -> Sheet {
        Sheet {
            moves: Vec::new(alloc),
            lives: Vec::new(alloc),
            ending: None,
        }
    }
}
