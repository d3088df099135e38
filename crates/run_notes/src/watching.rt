//! A world that notes what leaves in it.

use crate::noted::Noted;
use est_meaning::answers::{Fired, Offers};
use est_meaning::event::Event;
use est_meaning::firing::Firing;
use est_meaning::world::World;
use std::alloc::{AllocError, Global};

/// A world, and what is noted of it while a search goes through it.
#[derive(Drop)]
pub(crate) struct Watching<'t, W> {
    pub world: W,
    pub noted: Noted<'t>,
}

impl<'t, W: World + Drop> World for Watching<'t, W> {
    ghost speaks = { λ w spec. W.speaks w.world spec };

    ghost stack = { λ w spec. W.stack w.world spec };

    ghost limit = { λ w. W.limit w.world };

    ghost fired = { λ w. W.fired w.world };

    ghost spoken = { λ w. W.spoken w.world };

    fn options(&mut self, alloc: Global, into: &mut Vec<Firing>) -> Result<Offers, AllocError> {
        let offers = self.world.options(alloc, into);
        if let Ok(Offers::Unsettled) = &offers {
            self.noted.pass_limit();
        }
        offers
    }

    fn due_any(&mut self, alloc: Global) -> Result<bool, AllocError> {
        self.world.due_any(alloc)
    }

    fn fire(
        &mut self,
        alloc: Global,
        firing: &Firing,
        outs: &mut Vec<Event>,
    ) -> Result<Fired, AllocError> {
        let fired = self.world.fire(alloc, firing, outs);
        match &fired {
            Ok(Fired::Done) => self.noted.leave(alloc, firing, outs),
            Ok(Fired::Limit) => self.noted.pass_limit(),
            _ => {}
        }
        fired
    }

    fn arrive(&mut self, alloc: Global, event: &Event) -> Result<(), AllocError> {
        self.world.arrive(alloc, event)?;
        self.noted.take();
        Ok(())
    }

    fn pass(&mut self, alloc: Global, units: u64) -> Result<(), AllocError> {
        self.world.pass(alloc, units)?;
        self.noted.take();
        Ok(())
    }

    fn back(&mut self) {
        self.noted.back();
        self.world.back();
    }

    fn forget(&mut self) {
        self.world.forget();
    }

    fn depth(&self) -> u64 {
        self.world.depth()
    }
}
