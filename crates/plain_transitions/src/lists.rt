//! Numbers under keys.

ghost use Rattle.std.specs.Prelude.{◌≡◌, [], OnOk, nat_eq, None};
ghost use Rattle.std.specs.Map.{lookup};
ghost use Rattle.plain_transitions.specs.inside.KeyedNumbers.{listed, added};

use est_syntax::est_items::Items;
use indexmap::IndexMap;
use std::alloc::{AllocError, Global};
use std::marker::Model;

/// Lists of numbers, each under a key.
pub(crate) struct Lists {
    under: IndexMap<u32, Items<u32>>,
}

// In words, so that where they are let go of there is one call.
impl Drop for Lists {
    fn drop(self) {
        let Lists { under } = self;
        drop(under);
    }
}

impl Model for Lists {
    ghost use Rattle.std.specs.Prelude.{List, ℕ};

    ghost Value = { List (ℕ × List ℕ) };

    ghost view = { λ t. t.under.entries };
}

impl Lists {
    /// None yet.
    pub(crate) fn new(alloc: Global) -> Lists
        ensures { result ≡ [] }
    {
        Lists {
            under: IndexMap::new(alloc),
        }
    }

    /// The numbers under a key.
    pub(crate) fn listed(&self, key: u32) -> &[u32]
        ensures { result.now ≡ listed self.now key }
    {
        match self.under.get(&key) {
            None => &[],
            Some(numbers) => numbers.as_slice(),
        }
    }

    // Puts the first number under a key.
    fn put_first(&mut self, key: u32, number: u32) -> Result<(), AllocError>
        requires { lookup (nat_eq key) self.old ≡ None }
        ensures { OnOk result (self.new ≡ added None self.old key number) }
    {
        let mut numbers = Items::new(*self.under.allocator());
        numbers.push(number)?;
        self.under.insert(key, numbers)?;
        Ok(())
    }

    /// Puts a number last under a key.
    pub(crate) fn put(&mut self, key: u32, number: u32) -> Result<(), AllocError>
        ensures { OnOk result
            (self.new ≡ added (lookup (nat_eq key) self.old) self.old key number) }
    {
        if let Some(numbers) = self.under.get_mut(&key) {
            return numbers.push(number);
        }
        self.put_first(key, number)
    }
}
