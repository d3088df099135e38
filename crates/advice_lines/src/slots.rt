//! What may stand where a name does.

use rule_scope::declaration::Sort;
use rule_scope::outline::Outline;

/// What may stand where a name does.
#[derive(Clone, Copy, PartialEq, Eq)]
pub enum Slot {
    /// Whatever is declared.
    Any,
    /// Nothing that is declared in the regions around: the name is looked up in a channel, a record
    /// or a header, or is declared there.
    Nothing,
    Constant,
    TypeName,
    Channel,
    Header,
    HeaderOrType,
    Body,
    State,
    StateOrSet,
    Point,
    ModuleVariable,
    PointOrModule,
    Procedure,
    /// A function with arguments.
    Function,
    /// An operand that is a name alone.
    Operand,
    /// The first name of what has subscripts or fields.
    Selected,
    /// All of what is written.
    Target,
}

/// Whether something of a sort may stand in a slot.
pub fn takes(slot: Slot, sort: Sort) -> bool {
    match slot {
        Slot::Any => true,
        Slot::Nothing => false,
        Slot::Constant => sort == Sort::Constant,
        Slot::TypeName => sort == Sort::TypeName,
        Slot::Channel => sort == Sort::Channel,
        Slot::Header => sort == Sort::Header,
        Slot::HeaderOrType => matches!(sort, Sort::Header | Sort::TypeName),
        Slot::Body => sort == Sort::Body,
        Slot::State => sort == Sort::State,
        Slot::StateOrSet => matches!(sort, Sort::State | Sort::StateSet),
        Slot::Point => sort == Sort::Point,
        Slot::ModuleVariable => sort == Sort::ModuleVariable,
        Slot::PointOrModule => matches!(sort, Sort::Point | Sort::ModuleVariable),
        Slot::Procedure => sort == Sort::Procedure,
        Slot::Function => sort == Sort::Function,
        Slot::Operand => matches!(sort, Sort::Constant | Sort::Variable | Sort::Function),
        Slot::Selected => matches!(sort, Sort::Variable | Sort::ModuleVariable),
        Slot::Target => sort == Sort::Variable,
    }
}

/// Whether what is declared at a place may stand in a slot at another one, of whatever is in force
/// there. A function may be written within itself.
pub fn may_stand(outline: &Outline, slot: Slot, declared: u32, place: u32) -> bool {
    let Some(entry) = outline.entry(declared) else {
        return slot == Slot::Any;
    };
    let sort = entry.declared.sort;
    let is_own = sort == Sort::Function && outline.lies_in(place, declared);
    takes(slot, sort) || is_own && slot == Slot::Target
}
