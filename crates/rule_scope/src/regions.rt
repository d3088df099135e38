//! The names of regions.

ghost use Rattle.std.specs.Prelude.{◌≡◌, [], None, OnOk, nat_eq};
ghost use Rattle.std.specs.Map.{lookup};
ghost use Rattle.std.specs.Option.{option_copied};
ghost use Rattle.rule_scope.specs.Outline.{standing_in, nth_in};
ghost use Rattle.rule_scope.specs.Declaring.{named_in};

use crate::declaration::Standing;
use crate::names::Names;
use est_syntax::name::Name;
use indexmap::IndexMap;
use std::alloc::{AllocError, Global};
use std::marker::Model;

/// Names, by the places of the owners of their regions.
pub struct RegionNames {
    under: IndexMap<u32, Names>,
}

impl Drop for RegionNames {
    fn drop(self) {
        let RegionNames { under } = self;
        drop(under);
    }
}

impl Model for RegionNames {
    ghost use Rattle.std.specs.Prelude.{List, ℕ};
    ghost use Rattle.rule_scope.specs.declared.declaration.Standing.{Standing};

    ghost Value = { List (ℕ × List (List ℕ × Standing)) };

    ghost view = { λ t. t.under.entries };
}

impl RegionNames {
    /// No regions.
    pub fn new(alloc: Global) -> RegionNames
        ensures { result ≡ [] }
    {
        RegionNames {
            under: IndexMap::new(alloc),
        }
    }

    /// Where a name stands in a region, if it does.
    pub fn standing(&self, region: u32, name: &Name) -> Option<Standing>
        ensures { result ≡ standing_in (lookup (nat_eq region) self.now) name.now.bytes }
    {
        match self.under.get(&region) {
            None => None,
            Some(names) => names.find(name),
        }
    }

    /// The names of a region, if there is one.
    pub fn names(&self, region: u32) -> Option<&Names>
        ensures { option_copied result ≡ lookup (nat_eq region) self.now }
    {
        self.under.get(&region)
    }

    /// Where the name of a region stands that has this number, counted from 0.
    pub fn nth(&self, region: u32, index: usize) -> Option<u32>
        ensures { result ≡ nth_in (lookup (nat_eq region) self.now) index }
    {
        match self.under.get(&region) {
            None => None,
            Some(names) => names.nth(index),
        }
    }

    // Adds a name to a region that has none yet.
    fn add_first(&mut self, region: u32, name: &Name, standing: Standing) -> Result<(), AllocError>
        requires { lookup (nat_eq region) self.old ≡ None }
        ensures { OnOk result
            (self.new ≡ named_in None self.old region name.now.bytes standing) }
    {
        let mut names = Names::new(*self.under.allocator());
        names.add(name, standing)?;
        self.under.insert(region, names)?;
        Ok(())
    }

    /// Adds a name that its region does not have.
    pub fn add(&mut self, region: u32, name: &Name, standing: Standing) -> Result<(), AllocError>
        requires { standing_in (lookup (nat_eq region) self.old) name.now.bytes ≡ None }
        ensures { OnOk result (self.new ≡ named_in (lookup (nat_eq region) self.old)
            self.old region name.now.bytes standing) }
    {
        if let Some(names) = self.under.get_mut(&region) {
            return names.add(name, standing);
        }
        self.add_first(region, name, standing)
    }
}
