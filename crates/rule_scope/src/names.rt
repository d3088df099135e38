//! The names of one region, in the order of their declarations.

ghost use Rattle.std.specs.Prelude.{◌≡◌, ◌<◌, [], ◌∷◌, ◌++◌, length, slice_get, OnOk, None, Some};
ghost use Rattle.std.specs.Map.{lookup};
ghost use Rattle.est_syntax.specs.Names.{is_name};
ghost use Rattle.rule_scope.specs.Outline.{place_of};

use crate::declaration::Standing;
use est_syntax::name::Name;
use indexmap::IndexMap;
use std::alloc::{AllocError, Global};
use std::marker::Model;

/// Names, and where they stand.
pub struct Names {
    under: IndexMap<Vec<u8>, Standing>,
}

// In words, so that where names are let go of there is one call.
impl Drop for Names {
    fn drop(self) {
        let Names { under } = self;
        drop(under);
    }
}

impl Model for Names {
    ghost use Rattle.std.specs.Prelude.{List, ℕ, map};
    ghost use Rattle.rule_scope.specs.declared.declaration.Standing.{Standing};

    ghost Value = { List (List ℕ × Standing) };

    ghost view = { λ t. map (λ e. (e.0.items, e.1)) t.under.entries };
}

impl Names {
    /// No names.
    pub fn new(alloc: Global) -> Names
        ensures { result ≡ [] }
    {
        Names {
            under: IndexMap::new(alloc),
        }
    }

    /// Where a name stands, if it does.
    pub fn find(&self, name: &Name) -> Option<Standing>
        ensures { result ≡ lookup (is_name name.now.bytes) self.now }
    {
        self.under.get(name.bytes.as_slice()).copied()
    }

    /// Where the name stands that has this number, counted from 0.
    pub fn nth(&self, index: usize) -> Option<u32>
        ensures { result ≡ place_of (slice_get self.now index) }
    {
        match self.under.get_index(index) {
            None => None,
            Some((_, standing)) => Some(standing.place),
        }
    }

    /// How many names there are.
    pub fn len(&self) -> usize
        ensures { result ≡ length self.now }
    {
        self.under.len()
    }

    /// The name that has this number, counted from 0, and where it stands.
    pub fn entry(&self, index: usize) -> (&[u8], Standing)
        requires { index < length self.now }
        ensures { slice_get self.now index ≡ Some (result.0.now, result.1) }
    {
        match self.under.get_index(index) {
            None => unreachable!(),
            Some((name, standing)) => (name.as_slice(), *standing),
        }
    }

    /// Adds a name that is not there.
    pub fn add(&mut self, name: &Name, standing: Standing) -> Result<(), AllocError>
        requires { lookup (is_name name.now.bytes) self.old ≡ None }
        ensures { OnOk result (self.new ≡ self.old ++ (name.now.bytes, standing) ∷ []) }
    {
        let alloc = *self.under.allocator();
        let key = Vec::from_slice(alloc, name.bytes.as_slice())?;
        self.under.insert(key, standing)?;
        Ok(())
    }
}
