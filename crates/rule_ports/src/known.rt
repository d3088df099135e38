//! Signals that were made already.

ghost use Rattle.std.specs.Prelude.{◌≡◌, ◌∷◌, ◌++◌, [], None, nat_eq, OnOk};
ghost use Rattle.std.specs.Map.{lookup};
ghost use Rattle.std.specs.Option.{option_copied};
ghost use Rattle.rule_ports.specs.inside.KnownSides.{side_signals};

use est_syntax::channel::Role;
use est_syntax::ports::SharedSignals;
use indexmap::IndexMap;
use std::alloc::{AllocError, Global};
use std::marker::Model;

/// What may pass the points of the first role of a channel, and of the second.
#[derive(Drop)]
pub struct Sides {
    pub first: SharedSignals,
    pub second: SharedSignals,
}

impl Sides {
    /// What may pass a point in this role.
    pub fn of(&self, role: Role) -> &SharedSignals
        ensures { result.now ≡ side_signals self.now role }
    {
        match role {
            Role::First => &self.first,
            Role::Second => &self.second,
        }
    }
}

/// The sides of channels, by the places of their names.
pub struct Known {
    under: IndexMap<u32, Sides>,
}

// In words, so that where they are let go of there is one call.
impl Drop for Known {
    fn drop(self) {
        let Known { under } = self;
        drop(under);
    }
}

impl Model for Known {
    ghost use Rattle.std.specs.Prelude.{List, ℕ};
    ghost use Rattle.std.specs.Coded.{codes};
    ghost use Rattle.est_syntax.specs.contracts.kind.Kind as kind;
    ghost use Rattle.rule_ports.specs.declared.known.Sides.{Sides};

    ghost Value = { List (ℕ × Sides) };

    ghost coded = { Prim.hlevel (codes, kind.the_row.coded) };

    ghost view = { λ t. t.under.entries };
}

impl Known {
    /// Nothing.
    pub fn new(alloc: Global) -> Known
        ensures { result ≡ [] }
    {
        Known {
            under: IndexMap::new(alloc),
        }
    }

    /// Where more goes.
    pub fn alloc(&self) -> Global {
        *self.under.allocator()
    }

    /// The sides of a channel.
    pub fn get(&self, channel: u32) -> Option<&Sides>
        ensures { option_copied result ≡ lookup (nat_eq channel) self.now }
    {
        self.under.get(&channel)
    }

    /// Adds the sides of a channel that is not there.
    pub fn add(&mut self, channel: u32, sides: Sides) -> Result<(), AllocError>
        requires { lookup (nat_eq channel) self.old ≡ None }
        ensures { OnOk result (self.new ≡ self.old ++ (channel, sides) ∷ []) }
    {
        match self.under.insert(channel, sides) {
            Ok(former) => drop(former),
            Err(_) => return Err(AllocError),
        }
        Ok(())
    }
}
