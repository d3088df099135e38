//! Copies that contracts cannot tell from what they are copies of.
ghost use Rattle.std.specs.Prelude.{◌≡◌, IfOk};

use crate::boxed::Boxed;
use crate::items::Items;
use crate::shared::Shared;
use std::alloc::{AllocError, Global};

/// A type whose values can be copied, or shared where that costs less.
pub trait Twin: Sized {
    /// A value equal to this one. Errs where memory runs out, or where there can be no more owners.
    fn twin(&self, alloc: Global) -> Result<Self, AllocError>
        ensures { IfOk result (λ twin. twin ≡ self.now) };
}

impl Twin for u32 {
    fn twin(&self, alloc: Global) -> Result<u32, AllocError> {
        Ok(*self)
    }
}

impl Twin for i32 {
    fn twin(&self, alloc: Global) -> Result<i32, AllocError> {
        Ok(*self)
    }
}

impl<T: Twin> Twin for Option<T> {
    fn twin(&self, alloc: Global) -> Result<Option<T>, AllocError> {
        match self {
            None => Ok(None),
            Some(value) => Ok(Some(value.twin(alloc)?)),
        }
    }
}

impl<T: Twin + Drop> Twin for Boxed<T> {
    fn twin(&self, alloc: Global) -> Result<Boxed<T>, AllocError> {
        Boxed::new(alloc, self.get().twin(alloc)?)
    }
}

impl<T: Drop> Twin for Shared<T> {
    fn twin(&self, alloc: Global) -> Result<Shared<T>, AllocError> {
        self.share()
    }
}

impl<T: Twin + Drop> Twin for Items<T> {
    fn twin(&self, alloc: Global) -> Result<Items<T>, AllocError> {
        let mut items = Vec::with_capacity(alloc, self.items.len())?;
        for item in &self.items {
            items.push(item.twin(alloc)?)?;
        }
        Ok(Items { items })
    }
}
