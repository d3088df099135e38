//! Module bodies, blocks and the parts that declare (ISO 9074, module-body-definition).

use crate::channel::Channel;
use crate::constant::ConstDefs;
use crate::header::{Header, ModvarDefs, Points};
use crate::name::{Used, UsedNames};
use crate::routine::Routine;
use crate::statement::Statements;
use crate::transition::Groups;
use crate::type_text::{TypeDefs, VarDefs};
use est_items::Items;

/// A name and the states that it stands for (ISO 9074, state-set-definition).
#[derive(Drop)]
pub struct StateSet {
    pub name: Used,
    pub states: UsedNames,
}

/// Such definitions in the order of the text.
pub type StateSets = Items<StateSet>;

/// Declarations and statements (ISO 7185, block). The place is that of `begin`.
#[cycle(part)]
#[derive(Drop)]
pub struct Block {
    pub parts: Parts,
    pub statements: Statements,
    pub place: u32,
}

/// The initialize part of a body (ISO 9074, initialization-part): the first state, where there is
/// one, and the block.
#[cycle(part)]
#[derive(Drop)]
pub struct FirstPart {
    pub to: Option<Used>,
    pub block: Block,
}

/// A module body for a header (ISO 9074, module-body-definition).
#[cycle(part)]
#[derive(Drop)]
pub struct Body {
    pub name: Used,
    pub header: Used,
    pub parts: Parts,
    pub first: Option<FirstPart>,
    pub groups: Groups,
}

/// A declaration part of a specification, a body or a block (ISO 9074, declaration-part). One part
/// is what stands after one `const`, `type`, `modvar`, `ip`, `var`, `state` or `stateset`.
#[cycle(part)]
#[derive(Drop)]
pub enum Part {
    Consts(ConstDefs),
    Types(TypeDefs),
    Channel(Channel),
    Header(Header),
    Body(Body),
    Modvars(ModvarDefs),
    Points(Points),
    Vars(VarDefs),
    States(UsedNames),
    StateSets(StateSets),
    Routine(Routine),
}

/// Declaration parts in the order of the text.
pub type Parts = Items<Part>;
