//! The table of a specification.

ghost use Rattle.std.specs.Prelude.{◌≡◌, IfOk, None, Some, flat_map};
ghost use Rattle.std.specs.Option.{option_copied, option_map};
ghost use Rattle.est_syntax.specs.Least.{IsIn, IsLeast};
ghost use Rattle.rule_scope.specs.Outline.{meant};
ghost use Rattle.rule_scope.specs.LeastSoFar.{least_with};
ghost use Rattle.rule_declares.specs.rule_kinds.Constants.{value_by};
ghost use Rattle.rule_declares.specs.Bodies.{outline_of};
ghost use Rattle.est_types.specs.DeclarationFaults.{part_faults, declaration_faults};
ghost use Rattle.est_types.specs.Table.{declaration, kind_of, constant_of, dims_at};
ghost use Rattle.est_types.specs.declared.modules.Owner.TheVariants as owners;

use crate::modules::Owner;
use crate::parts::check_parts;
use est_syntax::est_items::Boxed;
use est_syntax::kind::{Kind, Kinds};
use est_syntax::name::Name;
use est_syntax::rule::Fault;
use est_syntax::specification::Spec;
use rule_outline::bodies::outline_of;
use rule_scope::declaration::{Declared, Entry, Meant, Sort};
use rule_scope::least::Least;
use rule_scope::outline::Outline;
use std::alloc::{AllocError, Global};
use std::marker::Model;

// An outline, and the least fault of the declarations.
#[derive(Drop)]
struct Whole {
    outline: Outline,
    fault: Option<Fault>,
}

/// What a specification declares, and the least rule that its declarations break. It moves as one
/// pointer and is let go of here.
pub struct Table {
    kept: Boxed<Whole>,
}

impl Model for Table {
    ghost use Rattle.std.specs.Coded.{codes};
    ghost use Rattle.est_syntax.specs.contracts.kind.Kind as kind;
    ghost use Rattle.est_types.specs.Table.{Table};

    ghost Value = { Table };

    ghost coded = { Prim.hlevel (codes, kind.the_row.coded) };

    ghost view = { λ t. record { outline = t.kept.outline; fault = t.kept.fault } };
}

// In words, so that no crate above follows the tables down to their last list.
impl Drop for Table {
    fn drop(self) {
        let Table { kept } = self;
        drop(kept);
    }
}

impl Table {
    /// What a name means at a place.
    pub fn meant(&self, name: &Name, place: u32) -> Meant
        ensures { result ≡ meant self.now.outline name.now.bytes place }
    {
        self.kept.get().outline.meant(name, place)
    }

    /// All that the specification declares.
    pub fn outline(&self) -> &Outline
        ensures { result.now ≡ self.now.outline }
    {
        &self.kept.get().outline
    }

    /// The sort and the body of the name that is declared at a place.
    pub fn declaration(&self, place: u32) -> Option<&Declared>
        ensures { option_copied result ≡ declaration self.now.outline place }
    {
        match self.kept.get().outline.entry(place) {
            None => None,
            Some(entry) => Some(&entry.declared),
        }
    }

    /// The kind of the name that is declared at a place, for a function that of its result.
    pub fn kind_of(&self, place: u32) -> Option<&Kind>
        ensures { option_copied result ≡ kind_of self.now.outline place }
    {
        match self.kept.get().outline.entry(place) {
            None => None,
            Some(entry) => match &entry.kind {
                None => None,
                Some(measured) => Some(&measured.kind),
            },
        }
    }

    /// The ordinal of the constant that is declared at a place.
    pub fn constant_of(&self, place: u32) -> Option<i32>
        ensures { result ≡ constant_of self.now.outline place }
    {
        match self.kept.get().outline.entry(place) {
            None => None,
            Some(entry) => ordinal_of(entry),
        }
    }

    /// The kinds of the subscripts of the interaction point or module variable that is declared at
    /// a place: an empty list where it has no subscripts.
    pub fn dims_of(&self, place: u32) -> Option<&Kinds>
        ensures { option_copied result ≡ dims_at self.now.outline place }
    {
        match self.kept.get().outline.entry(place) {
            None => None,
            Some(entry) => match &entry.dims {
                None => None,
                Some(kinds) => Some(kinds.get()),
            },
        }
    }

    /// The least rule that the declarations break, by place, and then by its number.
    pub fn first_fault(&self) -> Option<Fault>
        ensures { result ≡ self.now.fault }
    {
        self.kept.get().fault
    }
}

// The ordinal of a declaration, where it is that of a constant and has one.
fn ordinal_of(entry: &Entry) -> Option<i32>
    ensures { result ≡ option_map (λ v. v.ordinal) (value_by (Some entry.now)) }
{
    if Sort::Constant != entry.declared.sort {
        return None;
    }
    match &entry.kind {
        None => None,
        Some(_) => entry.ordinal,
    }
}

// The least rule that the declarations of a specification break.
fn least_fault(alloc: Global, outline: &Outline, spec: &Spec) -> Result<Option<Fault>, AllocError>
    ensures { IfOk result
        (λ fault. fault ≡ least_with None
        (flat_map (part_faults outline.now owners.Specification) spec.now.parts)) }
{
    let mut least = Least { at: None };
    check_parts(
        alloc,
        outline,
        Owner::Specification,
        spec.parts.as_slice(),
        &mut least,
    )?;
    Ok(least.at)
}

/// The table of a specification.
pub fn declare(alloc: Global, spec: &Spec) -> Result<Table, AllocError>
    ensures outline { IfOk result (λ table. table.outline ≡ outline_of spec.now) }
    ensures least { IfOk result
        (λ table. table.fault ≡ least_with None (declaration_faults spec.now)) }
    ensures fault { IfOk result
        (λ table. IsLeast (λ f. IsIn f (declaration_faults spec.now)) table.fault) }
{
    let outline = outline_of(alloc, spec)?;
    let fault = least_fault(alloc, &outline, spec)?;
    Ok(Table {
        kept: Boxed::new(alloc, Whole { outline, fault })?,
    })
}
