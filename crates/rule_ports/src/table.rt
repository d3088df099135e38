//! The interaction points of a module, in the order of their declarations.

ghost use Rattle.std.specs.Prelude.{◌≡◌, ◌<◌, [], ◌∷◌, ◌++◌, length, None, Some, OnOk};
ghost use Rattle.std.specs.Prelude.{slice_get, option_copied};
ghost use Rattle.std.specs.Map.{lookup};
ghost use Rattle.std.specs.Option.{option_map};
ghost use Rattle.est_syntax.specs.Names.{is_name};
ghost use Rattle.rule_ports.specs.PortTable.{IsNumberOf};

use est_syntax::ports::SharedSignals;
use indexmap::IndexMap;
use rule_scope::declaration::SharedKinds;
use std::alloc::{AllocError, Global};
use std::marker::Model;

/// The elements of an interaction point: the kinds of its subscripts, what may pass each of them,
/// and how many ports there are up to the last one, as far as 64 bits go.
#[derive(Drop)]
pub struct Elements {
    pub kinds: SharedKinds,
    pub signals: SharedSignals,
    pub until: u64,
}

/// Interaction points by their names.
pub struct PointTable {
    under: IndexMap<Vec<u8>, Elements>,
}

// In words, so that where they are let go of there is one call.
impl Drop for PointTable {
    fn drop(self) {
        let PointTable { under } = self;
        drop(under);
    }
}

impl Model for PointTable {
    ghost use Rattle.std.specs.Prelude.{List, ℕ, map};
    ghost use Rattle.std.specs.Coded.{codes};
    ghost use Rattle.est_syntax.specs.contracts.kind.Kind as kind;
    ghost use Rattle.rule_ports.specs.declared.table.Elements.{Elements};

    ghost Value = { List (List ℕ × Elements) };

    ghost coded = { Prim.hlevel (codes, kind.the_row.coded) };

    ghost view = { λ t. map (λ e. (e.0.items, e.1)) t.under.entries };
}

impl PointTable {
    /// No interaction points.
    pub fn new(alloc: Global) -> PointTable
        ensures { result ≡ [] }
    {
        PointTable {
            under: IndexMap::new(alloc),
        }
    }

    /// How many there are.
    pub fn len(&self) -> usize
        ensures { result ≡ length self.now }
    {
        self.under.len()
    }

    /// The elements of the one that has this number, counted from 0.
    pub fn elements(&self, number: usize) -> Option<&Elements>
        ensures { option_copied result ≡ option_map (λ p. p.1) (slice_get self.now number) }
    {
        match self.under.get_index(number) {
            None => None,
            Some((_, elements)) => Some(elements),
        }
    }

    /// The name of the one that has this number.
    pub fn name(&self, number: usize) -> Option<&[u8]>
        ensures { option_copied result ≡ option_map (λ p. p.0) (slice_get self.now number) }
    {
        match self.under.get_index(number) {
            None => None,
            Some((name, _)) => Some(name.as_slice()),
        }
    }

    /// The number of the one that has this name.
    pub fn number_of(&self, name: &[u8]) -> Option<usize>
        ensures { IsNumberOf name.now self.now result }
    {
        self.under.get_index_of(name)
    }

    /// Adds one of a name that is not there.
    pub fn add(&mut self, name: &[u8], elements: Elements) -> Result<(), AllocError>
        requires { lookup (is_name name.now) self.old ≡ None }
        ensures { OnOk result (self.new ≡ self.old ++ (name.now, elements) ∷ []) }
    {
        let alloc = *self.under.allocator();
        let key = Vec::from_slice(alloc, name)?;
        match self.under.insert(key, elements) {
            Ok(former) => drop(former),
            Err(_) => return Err(AllocError),
        }
        Ok(())
    }
}
