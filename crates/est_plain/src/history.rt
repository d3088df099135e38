//! The current system, and those that were left for it.

ghost use Rattle.std.specs.Prelude.{◌≡◌, [], ◌<◌, length, OnOk, OnErr, IfOk};
ghost use Rattle.est_meaning.specs.mean_blocks.KeepingLaws.{AreNumbered};
ghost use Rattle.plain_frames.specs.plain_systems.HeldSystems.{situation_of};
ghost use Rattle.est_plain.specs.inside.NumberedSystems.{AreNumbered-prop, AllNumbered};
ghost use Rattle.est_plain.specs.inside.NumberedSystems.{AllNumbered-prop};

use est_syntax::est_items::{Items, Twin};
use plain_frames::plain_systems::system::{System, Working};
use std::alloc::{AllocError, Global};
use std::mem;

/// The current system with those that moves have left, the latest last. They share what they hold.
#[derive(Drop)]
pub struct History {
    system: System,
    below: Vec<System>,
    ghost numbered: { AreNumbered (situation_of system) } by { AreNumbered-prop
        (situation_of system) },
    ghost all_numbered: { AllNumbered below.items } by { AllNumbered-prop below.items },
}

impl History {
    ghost use Rattle.est_meaning.specs.SituationStacks.{pushed, alone};
    ghost use Rattle.est_plain.specs.inside.HeldStacks.{stack_of};

    /// A system before any move.
    pub fn new(alloc: Global, system: System) -> History
        requires { AreNumbered (situation_of system) }
        ensures { stack_of result ≡ record { now = situation_of system; below = [] } }
    {
        History {
            system,
            below: Vec::new(alloc),
        }
    }

    /// The current system once more.
    pub fn current(&self, alloc: Global) -> Result<System, AllocError>
        ensures same { IfOk result (λ system. situation_of system ≡ (stack_of self.now).now) }
        ensures numbered { IfOk result (λ system. AreNumbered (situation_of system)) }
    {
        self.system.twin(alloc)
    }

    /// The current system once more, to be worked on.
    pub fn working(&self, alloc: Global) -> Result<Working, AllocError>
        ensures same { IfOk result
            (λ working. situation_of working.system ≡ (stack_of self.now).now) }
        ensures numbered { IfOk result (λ working. AreNumbered (situation_of working.system)) }
    {
        Ok(Working {
            system: self.current(alloc)?,
            outs: Items::new(alloc),
            frames: Items::new(alloc),
        })
    }

    /// Goes on to a system.
    pub fn step(&mut self, system: System) -> Result<(), AllocError>
        requires { AreNumbered (situation_of system) }
        ensures ok { OnOk result
            (stack_of self.new ≡ pushed (situation_of system) (stack_of self.old)) }
        ensures err { OnErr result (stack_of self.new ≡ stack_of self.old) }
    {
        self.below.reserve(1)?;
        let left = mem::replace(&mut self.system, system);
        self.below.push_reserved(left);
        Ok(())
    }

    /// Goes back to the system that was left last.
    pub fn back(&mut self)
        requires { 0 < length (stack_of self.old).below }
        ensures { stack_of self.old ≡ pushed (stack_of self.old).now (stack_of self.new) }
    {
        if let Some(last) = self.below.pop() {
            self.system = last;
        }
    }

    /// Keeps the current system alone.
    pub fn forget(&mut self)
        ensures { stack_of self.new ≡ alone (stack_of self.old) }
    {
        self.below.clear();
    }

    /// How many moves can be undone.
    pub fn depth(&self) -> u64
        ensures { result ≡ length (stack_of self.now).below }
    {
        self.below.len() as u64
    }
}
