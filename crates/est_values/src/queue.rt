//! A queue that queues can share.
ghost use Rattle.std.specs.Prelude.{◌≡◌, [], ◌∷◌, ◌++◌, slice_get, drop};
ghost use Rattle.std.specs.Prelude.{IfOk, OnOk, OnErr, option_copied};

use crate::chunks::Chunks;
use est_syntax::est_items::Twin;
use std::alloc::{AllocError, Global};
use std::marker::Model;

/// The items of a queue that were not yet taken, in the order in which they were put. Several
/// queues can share them.
#[derive(Drop)]
pub struct Queue<T> {
    items: Chunks<T>,
    taken: usize,
}

impl<T> Model for Queue<T> {
    ghost use Rattle.std.specs.Prelude.{List, drop, length, ◌≤◌};
    ghost use Rattle.std.specs.Coded.{coded_list};

    ghost Value = { List T };

    ghost coded = { coded_list T.code };

    ghost view = { λ queue. drop queue.taken queue.items };

    ghost invariant = { λ queue. queue.taken ≤ length queue.items };
}

impl<T> Queue<T> {
    /// The head, if there is one.
    pub fn head(&self) -> Option<&T>
        ensures { option_copied result ≡ slice_get self.now 0 }
    {
        self.items.get(self.taken)
    }
}

impl<T: Twin + Drop> Queue<T> {
    /// No items. Errs where memory runs out.
    pub fn new(alloc: Global) -> Result<Queue<T>, AllocError>
        ensures { IfOk result (λ queue. queue ≡ []) }
    {
        Ok(Queue {
            items: Chunks::new(alloc)?,
            taken: 0,
        })
    }

    // Lets go of what was taken, once it is half of what is held.
    fn shrink(&mut self, alloc: Global) -> Result<(), AllocError>
        ensures { self.new ≡ self.old }
    {
        let count = self.items.cut(alloc, self.taken)?;
        self.taken -= count;
        Ok(())
    }

    /// Puts an item at the end. Errs where memory runs out; the item is then dropped.
    pub fn put(&mut self, alloc: Global, item: T) -> Result<(), AllocError>
        ensures ok { OnOk result (self.new ≡ self.old ++ item ∷ []) }
        ensures err { OnErr result (self.new ≡ self.old) }
    {
        self.shrink(alloc)?;
        self.items.push(alloc, item)?;
        Ok(())
    }

    /// Takes the head, if there is one. Errs where memory runs out, and leaves the queue as it was.
    pub fn take(&mut self, alloc: Global) -> Result<Option<T>, AllocError>
        ensures item { IfOk result (λ item. item ≡ slice_get self.old 0) }
        ensures rest { OnOk result (self.new ≡ drop 1 self.old) }
        ensures err { OnErr result (self.new ≡ self.old) }
    {
        match self.items.get(self.taken) {
            None => Ok(None),
            Some(item) => {
                let item = item.twin(alloc)?;
                self.taken = self.taken.checked_add(1).ok_or(AllocError)?;
                Ok(Some(item))
            }
        }
    }
}

impl<T: Drop> Twin for Queue<T> {
    fn twin(&self, alloc: Global) -> Result<Queue<T>, AllocError> {
        Ok(Queue {
            items: self.items.share()?,
            taken: self.taken,
        })
    }
}
