//! The heads of names: of each name the port that stands alone, or the first element of its array.

ghost use Rattle.std.specs.Prelude.{◌≡◌, [], ◌∷◌, ◌++◌, None, OnOk, option_copied};
ghost use Rattle.std.specs.Map.{lookup};
ghost use Rattle.est_syntax.specs.Names.{is_name};

use est_syntax::name::Name;
use indexmap::IndexMap;
use std::alloc::{AllocError, Global};
use std::marker::Model;

/// The number of a head, and its name as ports are looked up by it.
#[derive(Drop)]
pub struct Head {
    pub name: Name,
    pub number: u32,
}

/// Heads by their names.
pub struct HeadTable {
    under: IndexMap<Vec<u8>, Head>,
}

// In words, so that where they are let go of there is one call.
impl Drop for HeadTable {
    fn drop(self) {
        let HeadTable { under } = self;
        drop(under);
    }
}

impl Model for HeadTable {
    ghost use Rattle.std.specs.Prelude.{List, ℕ, map};
    ghost use Rattle.est_trace.specs.declared.heads.Head.{Head};

    ghost Value = { List (List ℕ × Head) };

    ghost view = { λ t. map (λ e. (e.0.items, e.1)) t.under.entries };
}

impl HeadTable {
    /// No heads.
    pub fn new(alloc: Global) -> HeadTable
        ensures { result ≡ [] }
    {
        HeadTable {
            under: IndexMap::new(alloc),
        }
    }

    /// The head of a name.
    pub fn get(&self, name: &[u8]) -> Option<&Head>
        ensures { option_copied result ≡ lookup (is_name name.now) self.now }
    {
        self.under.get(name)
    }

    /// Adds a head of a name that is not there.
    pub fn add(&mut self, name: &[u8], head: Head) -> Result<(), AllocError>
        requires { lookup (is_name name.now) self.old ≡ None }
        ensures { OnOk result (self.new ≡ self.old ++ (name.now, head) ∷ []) }
    {
        let alloc = *self.under.allocator();
        let key = Vec::from_slice(alloc, name)?;
        match self.under.insert(key, head) {
            Ok(former) => drop(former),
            Err(_) => return Err(AllocError),
        }
        Ok(())
    }
}
