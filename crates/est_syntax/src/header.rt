//! Module headers, interaction points and module variables (ISO 9074, module-header-definition).

use crate::name::{Used, UsedNames};
use crate::type_text::{TypeTexts, VarDefs};
use est_items::Items;

/// How the interactions of an interaction point are queued (ISO 9074, queue-discipline).
#[derive(Clone, Copy, PartialEq, Eq)]
pub enum Queue {
    Individual,
    Common,
}

/// Interaction points declared together (ISO 9074, interaction-point-declaration). The place is
/// that of `array`, or of the first name.
#[derive(Drop)]
pub struct Point {
    pub names: UsedNames,
    pub dims: TypeTexts,
    pub channel: Used,
    pub role: Used,
    pub queue: Option<Queue>,
    pub place: u32,
}

/// Declarations of interaction points in the order of the text.
pub type Points = Items<Point>;

/// A module header (ISO 9074, module-header-definition). `system` says that it is a
/// `systemactivity`, and no `activity`.
#[derive(Drop)]
pub struct Header {
    pub name: Used,
    pub system: bool,
    pub params: VarDefs,
    pub points: Points,
    pub exports: VarDefs,
}

/// Module variables declared together (ISO 9074, module-variable-declaration). The place is that of
/// `array`, or of the first name.
#[derive(Drop)]
pub struct ModvarDef {
    pub names: UsedNames,
    pub dims: TypeTexts,
    pub header: Used,
    pub place: u32,
}

/// Declarations of module variables in the order of the text.
pub type ModvarDefs = Items<ModvarDef>;
