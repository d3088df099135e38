//! One value on the heap with several owners.
ghost use Rattle.std.specs.Prelude.{◌≡◌, IfOk};
ghost use Rattle.std.specs.Borrow.{sem};

use crate::twin::Twin;
use std::alloc::{AllocError, Global};
use std::marker::Model;
use std::rc::Rc;

/// An `Rc` that contracts see as its value. A type may hold itself through it.
#[derive(Drop)]
pub struct Shared<T> {
    value: Rc<T>,
}

impl<T> Model for Shared<T> {
    ghost Value = { T };

    ghost coded = { T.code };

    ghost view = { λ shared. shared.value.value };
}

impl<T> Shared<T> {
    /// The value.
    pub fn get(&self) -> &T
        ensures { result.now ≡ self.now }
    {
        self.value.as_ref()
    }
}

impl<T: Drop> Shared<T> {
    /// Errs when memory runs out; the value is then dropped.
    pub fn new(alloc: Global, value: T) -> Result<Shared<T>, AllocError>
        ensures { IfOk result (λ shared. shared ≡ value) }
    {
        match Rc::new(alloc, value) {
            Ok(value) => Ok(Shared { value }),
            Err(_) => Err(AllocError),
        }
    }

    /// One more owner of the same value, which is not copied. Errs where there can be no more
    /// owners.
    pub fn share(&self) -> Result<Shared<T>, AllocError>
        ensures { IfOk result (λ shared. shared ≡ self.now) }
    {
        Ok(Shared {
            value: self.value.clone()?,
        })
    }
}

impl<T: Twin + Drop> Shared<T> {
    ghost use Rattle.est_items.specs.Lending.{LendsValue};

    /// The value, to write to. Where it has other owners, this one gets a copy of its own first
    /// and theirs stays. Errs where memory runs out; the value is then as it was.
    pub fn own(&mut self, alloc: Global) -> Result<&mut T, AllocError>
        ensures* writes_back { sem 𝓛 (LendsValue T.row self.entry result) }
        ensures value { IfOk result (λ value. value.now ≡ self.old) }
    {
        if Rc::strong_count(&self.value) != 1 {
            let copy = self.value.as_ref().twin(alloc)?;
            self.value = match Rc::new(alloc, copy) {
                Ok(value) => value,
                Err(_) => return Err(AllocError),
            };
        }
        match Rc::get_mut(&mut self.value) {
            Some(value) => Ok(value),
            None => Err(AllocError),
        }
    }
}
