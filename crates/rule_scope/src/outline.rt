//! What a specification declares, and where its regions lie.

ghost use Rattle.std.specs.Prelude.{◌≡◌, OnOk, nat_eq};
ghost use Rattle.std.specs.Map.{lookup};
ghost use Rattle.std.specs.Option.{option_copied};
ghost use Rattle.rule_scope.specs.Outline.{standing, nth, entry_at, member_at, extent_at, lies_in};
ghost use Rattle.rule_scope.specs.Declaring.{empty, standing_of, taken, declared, put, lying};
ghost use Rattle.rule_scope.specs.Declaring.{amended, with_kind, with_closed, with_header};

use crate::declaration::{Entry, Extent, Measured, Member, Standing, Within};
use crate::extent::Extents;
use crate::names::Names;
use crate::regions::RegionNames;
use est_syntax::name::{Name, Used};
use indexmap::IndexMap;
use std::alloc::{AllocError, Global};
use std::marker::Model;

/// The declarations of a text by their places, the names of its channels and records, its regions,
/// and where they lie.
pub struct Outline {
    entries: IndexMap<u32, Entry>,
    members: IndexMap<u32, Member>,
    regions: RegionNames,
    extents: Extents,
}

// In words, so that no crate above follows the tables down to their last list.
impl Drop for Outline {
    fn drop(self) {
        let Outline {
            entries,
            members,
            regions,
            extents,
        } = self;
        drop(entries);
        drop(members);
        drop(regions);
        drop(extents);
    }
}

impl Model for Outline {
    ghost use Rattle.rule_scope.specs.Outline.{Outline};
    ghost use Rattle.std.specs.Coded.{codes};
    ghost use Rattle.est_syntax.specs.contracts.kind.Kind as kind;

    ghost Value = { Outline };

    ghost coded = { Prim.hlevel (codes, kind.the_row.coded) };

    ghost view = { λ t. record {
      entries = t.entries.entries;
      members = t.members.entries;
      regions = t.regions;
      extents = t.extents;
    } };
}

impl Outline {
    /// Nothing declared.
    pub fn new(alloc: Global) -> Outline
        ensures { result ≡ empty }
    {
        Outline {
            entries: IndexMap::new(alloc),
            members: IndexMap::new(alloc),
            regions: RegionNames::new(alloc),
            extents: Extents::new(alloc),
        }
    }

    /// Where a name stands in a region, if it does.
    pub fn standing(&self, region: u32, name: &Name) -> Option<Standing>
        ensures { result ≡ standing self.now region name.now.bytes }
    {
        self.regions.standing(region, name)
    }

    /// The names of a region, in the order of their declarations, if there is such a region.
    pub fn names(&self, region: u32) -> Option<&Names>
        ensures { option_copied result ≡ lookup (nat_eq region) self.now.regions }
    {
        self.regions.names(region)
    }

    /// The place of the name of a region that has this number, counted from 0.
    pub fn nth(&self, region: u32, index: usize) -> Option<u32>
        ensures { result ≡ nth self.now region index }
    {
        self.regions.nth(region, index)
    }

    /// What is declared at a place.
    pub fn entry(&self, place: u32) -> Option<&Entry>
        ensures { option_copied result ≡ entry_at self.now place }
    {
        self.entries.get(&place)
    }

    /// The name of a channel or a record that stands at a place.
    pub fn member(&self, place: u32) -> Option<Member>
        ensures { result ≡ member_at self.now place }
    {
        self.members.get(&place).copied()
    }

    /// Where the text lies from a place on.
    pub fn extent(&self, place: u32) -> Option<&Extent>
        ensures { option_copied result ≡ extent_at self.now.extents place }
    {
        self.extents.at(place)
    }

    /// Whether a place of the text lies in the region of this owner.
    pub fn lies_in(&self, place: u32, region: u32) -> bool
        ensures { result ≡ lies_in self.now place region }
    {
        match self.extent(place) {
            None => false,
            Some(extent) => {
                extent.own.get().as_slice().contains(&region)
                    || extent.around.get().as_slice().contains(&region)
            },
        }
    }

    // Where a name stands among those of a header.
    fn standing_of(&self, header: Option<u32>, name: &Name) -> Option<Standing>
        ensures { result ≡ standing_of self.now header name.now.bytes }
    {
        match header {
            None => None,
            Some(header) => self.standing(header, name),
        }
    }

    // Where a name stands that a part of the text would declare anew.
    fn taken(&self, within: &Within, name: &Name) -> Option<Standing>
        ensures { result ≡ taken self.now within.now name.now.bytes }
    {
        match self.standing(within.region, name) {
            Some(standing) => Some(standing),
            None => self.standing_of(within.header, name),
        }
    }

    /// Declares a name, in force after the place `last`, where it is not declared already.
    pub fn declare(
        &mut self,
        within: &Within,
        used: &Used,
        last: u32,
        entry: Entry,
    ) -> Result<(), AllocError>
        ensures { OnOk result (self.new ≡ declared within.now used.now last entry self.old) }
    {
        if self.taken(within, &used.name).is_some() {
            drop(entry);
            return Ok(());
        }
        let standing = Standing {
            place: used.place,
            last,
        };
        match self.entries.insert(used.place, entry) {
            Ok(former) => drop(former),
            Err(_) => return Err(AllocError),
        }
        self.regions.add(within.region, &used.name, standing)?;
        Ok(())
    }

    /// Puts a name under a channel or a record, where it is not there already.
    pub fn put(&mut self, region: u32, used: &Used, member: Member) -> Result<(), AllocError>
        ensures { OnOk result (self.new ≡ put region used.now member self.old) }
    {
        if self.standing(region, &used.name).is_some() {
            return Ok(());
        }
        let standing = Standing {
            place: used.place,
            last: used.place,
        };
        self.regions.add(region, &used.name, standing)?;
        self.members.insert(used.place, member)?;
        Ok(())
    }

    /// From a place on, the text lies within these regions.
    pub fn lie(&mut self, within: &Within, place: u32) -> Result<(), AllocError>
        ensures { OnOk result (self.new ≡ lying within.now place self.old) }
    {
        self.extents.extend(within, place)
    }

    /// Gives a declaration its kind.
    pub fn give_kind(&mut self, place: u32, kind: Option<Measured>)
        ensures { self.new ≡ amended (with_kind kind) place self.old }
    {
        match self.entries.get_mut(&place) {
            None => drop(kind),
            Some(entry) => entry.kind = kind,
        }
    }

    /// Gives a body its header.
    pub fn give_header(&mut self, place: u32, header: Option<u32>)
        ensures { self.new ≡ amended (with_header header) place self.old }
    {
        if let Some(entry) = self.entries.get_mut(&place) {
            entry.header = header;
        }
    }

    /// Says of a routine whether it is closed.
    pub fn close(&mut self, place: u32, closed: bool)
        ensures { self.new ≡ amended (with_closed closed) place self.old }
    {
        if let Some(entry) = self.entries.get_mut(&place) {
            entry.closed = closed;
        }
    }
}
