//! A text with what it declares, whose routines and bodies are found by the places of their names.

ghost use Rattle.std.specs.Prelude.{◌≡◌, IfOk};
ghost use Rattle.std.specs.Option.{option_copied};
ghost use Rattle.plain_declared.specs.rule_scope.Uses.{meaning};
ghost use Rattle.plain_declared.specs.mean_blocks.NamesInRuns.{head, declared_at, interaction_of};
ghost use Rattle.plain_declared.specs.mean_blocks.TextByPlace.{routine_at, body_at, queue_told};
ghost use Rattle.plain_declared.specs.mean_blocks.TextByPlace.{discipline};
ghost use Rattle.plain_declared.specs.ShownNames.{head_of};

use crate::indices::{Index, index_of};
use crate::known::KnownNames;
use est_syntax::body::Body;
use est_syntax::header::Queue;
use est_syntax::name::Used;
use est_syntax::routine::Routine;
use est_syntax::specification::Spec;
use plain_declared::heads::Head;
use plain_declared::rule_scope::declaration::Meant;
use plain_declared::rule_scope::outline::Outline;
use std::alloc::{AllocError, Global};
use std::marker::Model;

/// A specification and what it declares. No part of the tree is walked again where a routine or a
/// body is looked up, and what most names of a block mean is looked up once.
pub struct Text<'t> {
    spec: &'t Spec,
    outline: &'t Outline,
    index: Index<'t>,
    known: KnownNames<'t>,
}

// In words, so that where it is let go of there is one call.
impl<'t> Drop for Text<'t> {
    fn drop(self) {
        let Text {
            spec: _,
            outline: _,
            index,
            known,
        } = self;
        drop(index);
        drop(known);
    }
}

impl<'t> Model for Text<'t> {
    ghost use Rattle.std.specs.Prelude.{◌≡◌};
    ghost use Rattle.std.specs.Coded.{codes};
    ghost use Rattle.est_syntax.specs.contracts.specification.Spec as tree;
    ghost use Rattle.plain_declared.specs.rule_scope.contracts.outline.Outline as declarations;
    ghost use Rattle.plain_declared.specs.mean_blocks.TextByPlace.{Text};

    ghost Value = { Text };

    ghost coded = { Prim.hlevel (codes, tree.the_row.coded, declarations.the_row.coded) };

    ghost use Rattle.plain_declared.specs.mean_blocks.TextByPlace.{parts_of};
    ghost use Rattle.plain_texts.specs.PartIndices.{IsIndex};

    ghost view = { λ t. record { spec = t.spec.now; outline = t.outline.now } };

    ghost invariant = { λ t.
        IsIndex (parts_of (record { spec = t.spec.now; outline = t.outline.now })) t.index
        × (t.known ≡ t.outline.now) };
}

impl<'t> Text<'t> {
    /// The text of a specification, of whose names these are kept.
    pub fn new(alloc: Global, spec: &'t Spec, known: KnownNames<'t>) -> Result<Text<'t>, AllocError>
        ensures { IfOk result
            (λ text. text ≡ record { spec = spec.now; outline = known.entry }) }
    {
        let outline = known.outline();
        let index = match index_of(alloc, spec.parts.as_slice()) {
            Ok(index) => index,
            Err(error) => {
                drop(known);
                return Err(error);
            }
        };
        Ok(Text {
            spec,
            outline,
            index,
            known,
        })
    }

    /// The specification.
    pub fn spec(&self) -> &'t Spec
        ensures { result.now ≡ self.now.spec }
    {
        self.spec
    }

    /// What it declares.
    pub fn outline(&self) -> &'t Outline
        ensures { result.now ≡ self.now.outline }
    {
        self.outline
    }

    /// What a name means at its place.
    pub fn meaning(&self, used: &Used) -> Meant
        ensures { result ≡ meaning self.now.outline used.now }
    {
        self.known.meaning(used)
    }

    /// What a name stands for at its place.
    pub fn head(&self, used: &Used) -> Head<'t>
        ensures { head_of result ≡ head self.now.outline used.now }
    {
        self.known.head(used)
    }

    /// Where a name is declared.
    pub fn declared_at(&self, used: &Used) -> Option<u32>
        ensures { result ≡ declared_at self.now.outline used.now }
    {
        match self.meaning(used) {
            Meant::Seen(place) => Some(place),
            _ => None,
        }
    }

    /// Where the interaction is declared that a name means at the interaction point at a place.
    pub fn interaction_of(&self, point: u32, used: &Used) -> Option<u32>
        ensures { result ≡ interaction_of self.now.outline point used.now }
    {
        self.known.interaction_of(point, used)
    }

    /// The routine whose name stands at a place.
    pub fn routine(&self, place: u32) -> Option<&'t Routine>
        ensures { option_copied result ≡ routine_at self.now place }
    {
        self.index.routines.get(&place).copied()
    }

    /// The body whose name stands at a place.
    pub fn body(&self, place: u32) -> Option<&'t Body>
        ensures { option_copied result ≡ body_at self.now place }
    {
        self.index.bodies.get(&place).copied()
    }

    // How the declaration of an interaction point says that its interactions are queued.
    fn queue_told(&self, place: u32) -> Option<Queue>
        ensures { result ≡ queue_told self.now place }
    {
        match self.outline.entry(place) {
            None => None,
            Some(entry) => entry.queue,
        }
    }

    /// How the interactions of an interaction point are queued.
    pub fn discipline(&self, place: u32) -> Queue
        ensures { result ≡ discipline self.now place }
    {
        match (self.queue_told(place), self.spec.queue) {
            (Some(queue), _) => queue,
            (None, Some(queue)) => queue,
            (None, None) => Queue::Individual,
        }
    }
}
