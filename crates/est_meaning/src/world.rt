//! A system that can be run and undone step by step.
ghost use Rattle.std.specs.Prelude.{◌≡◌, ◌↔◌, [], ℕ, ◌+◌, ◌-◌, ◌^◌, ◌<◌, ◌≤◌, length, IsTrue};
ghost use Rattle.std.specs.Prelude.{IfOk, OnErr, OnOk};
ghost use Rattle.est_syntax.specs.declared.specification.Spec.{Spec};
ghost use Rattle.mean_blocks.specs.TextByPlace.{text_of};
ghost use Rattle.est_meaning.specs.AllowedEvents.{IsArrival};
ghost use Rattle.est_meaning.specs.FiringSteps.{outcome};
ghost use Rattle.est_meaning.specs.OutsideEvents.{after_event, later};
ghost use Rattle.est_meaning.specs.TransitionSelection.{IsSettled, IsPossible};
ghost use Rattle.est_meaning.specs.PossibleFirings.{OffersAre};
ghost use Rattle.est_meaning.specs.QuietSituations.{HasDue};
ghost use Rattle.est_meaning.specs.SituationStacks.{Stack, pushed, alone, Keeps};
ghost use Rattle.est_meaning.specs.SituationStacks.{SameStack, FiredAs};

use crate::answers::{Fired, Offers};
use crate::event::Event;
use crate::firing::Firing;
use std::alloc::{AllocError, Global};

/// A system with the situations that it can go back to, for each specification of which it
/// speaks.
pub trait World {
    /// Of which specifications it speaks.
    ghost speaks: { Self → Spec → Type 0 };

    /// For each of these, the situations that it can go back to.
    ghost stack: { Self → Spec → Stack };

    /// The limit of statements.
    ghost limit: { Self → ℕ };

    /// How many blocks were fired.
    ghost fired: { Self → ℕ };

    /// Lists the possible firings in order, or says that the situation is not settled.
    fn options(&mut self, alloc: Global, into: &mut Vec<Firing>) -> Result<Offers, AllocError>
        ensures keeps { Keeps speaks limit self.old self.new }
        ensures fired { fired self.new ≡ fired self.old }
        ensures stack { SameStack speaks stack self.old self.new }
        ensures offers { IfOk result
            (λ offers. (spec : Spec) → speaks self.old spec
            → OffersAre (limit self.old) (text_of spec) (stack self.old spec).now offers
            into.new.items) };

    /// Whether in a settled situation some choice of some instance is due.
    fn due_any(&mut self, alloc: Global) -> Result<bool, AllocError>
        requires { (spec : Spec) → speaks self.old spec
            → IsSettled (limit self.old) (text_of spec) (stack self.old spec).now }
        ensures keeps { Keeps speaks limit self.old self.new }
        ensures fired { fired self.new ≡ fired self.old }
        ensures stack { SameStack speaks stack self.old self.new }
        ensures due { IfOk result
            (λ due. (spec : Spec) → speaks self.old spec
            → IsTrue due ↔ HasDue (limit self.old) (text_of spec) (stack self.old spec).now) };

    /// Tries a possible firing. It counts, whatever comes of it.
    fn fire(
        &mut self,
        alloc: Global,
        firing: &Firing,
        outs: &mut Vec<Event>,
    ) -> Result<Fired, AllocError>
        requires possible { (spec : Spec) → speaks self.old spec
            → IsPossible (limit self.old) (text_of spec) (stack self.old spec).now firing.now }
        requires room { fired self.old < 2 ^ 64 - 1 }
        ensures keeps { Keeps speaks limit self.old self.new }
        ensures fired { fired self.new ≡ fired self.old + 1 }
        ensures answer { IfOk result
            (λ answer. (spec : Spec) → speaks self.old spec
            → FiredAs (outcome (limit self.old) (text_of spec)
            (stack self.old spec).now firing.now) answer outs.new.items (stack self.old spec)
            (stack self.new spec)) }
        ensures err { OnErr result
            (SameStack speaks stack self.old self.new × (outs.new.items ≡ [])) };

    /// Lets an interaction arrive that its port can receive.
    fn arrive(&mut self, alloc: Global, event: &Event) -> Result<(), AllocError>
        requires { (spec : Spec) → speaks self.old spec → IsArrival spec event.now }
        ensures keeps { Keeps speaks limit self.old self.new }
        ensures fired { fired self.new ≡ fired self.old }
        ensures ok { OnOk result ((spec : Spec) → speaks self.old spec
            → stack self.new spec
            ≡ pushed (after_event (text_of spec) (stack self.old spec).now event.now)
            (stack self.old spec)) }
        ensures err { OnErr result (SameStack speaks stack self.old self.new) };

    /// Lets time pass.
    fn pass(&mut self, alloc: Global, units: u64) -> Result<(), AllocError>
        requires { (spec : Spec) → speaks self.old spec
            → (stack self.old spec).now.clock + units ≤ 10 ^ 15 }
        ensures keeps { Keeps speaks limit self.old self.new }
        ensures fired { fired self.new ≡ fired self.old }
        ensures ok { OnOk result ((spec : Spec) → speaks self.old spec
            → stack self.new spec ≡ pushed (later (stack self.old spec).now units)
            (stack self.old spec)) }
        ensures err { OnErr result (SameStack speaks stack self.old self.new) };

    /// Undoes the last move.
    fn back(&mut self)
        requires { (spec : Spec) → speaks self.old spec → 0 < length (stack self.old spec).below }
        ensures keeps { Keeps speaks limit self.old self.new }
        ensures fired { fired self.new ≡ fired self.old }
        ensures stack { (spec : Spec) → speaks self.old spec
            → stack self.old spec ≡ pushed (stack self.old spec).now (stack self.new spec) };

    /// Keeps the current situation alone.
    fn forget(&mut self)
        ensures keeps { Keeps speaks limit self.old self.new }
        ensures fired { fired self.new ≡ fired self.old }
        ensures stack { (spec : Spec) → speaks self.old spec
            → stack self.new spec ≡ alone (stack self.old spec) };

    /// How many moves can be undone.
    fn depth(&self) -> u64
        ensures { (spec : Spec) → speaks self.now spec
            → result ≡ length (stack self.now spec).below };

    /// It speaks of one specification at least.
    ghost spoken: { (world : Self) → ∥ ((spec : Spec) × speaks world spec) ∥₁ };
}
