//! The rules that a sentence may break beyond its grammar (ISO 9074 and ISO 7185).

/// A rule, with its number.
#[derive(Clone, Copy, Debug, PartialEq, Eq)]
pub enum Rule {
    /// No declaration that is in force where the name is used gives it a meaning.
    UnknownName = 1,
    /// One region has two declarations of the name.
    DeclaredTwice = 2,
    /// The name belongs to an outer body, which keeps such things to itself.
    NotSeenHere = 3,
    /// The name is known, but for a thing that cannot stand there, as a state for a channel.
    WrongSort = 4,
    /// A number exceeds `maxint`.
    NumberTooLarge = 5,
    /// A subrange runs downwards, or from one type to another.
    WrongBounds = 6,
    /// A type, a choice by `any` or the variables of a block exceed a size that the profile fixes.
    TooLarge = 7,
    /// An expression, a constant or a type does not suit its use.
    WrongKind = 8,
    /// The count of arguments or subscripts is not that of the declaration.
    WrongNumber = 9,
    /// What would change may only be read here, or is no variable.
    NotWritable = 10,
    /// A function calls a procedure, or has a statement that only Estelle knows, as `output`.
    NotInFunction = 11,
    /// By its role an interaction point cannot receive what is awaited there, or send what is
    /// output.
    WrongDirection = 12,
    /// A delayed transition also awaits an interaction or makes a choice.
    DelayNotAlone = 13,
    /// A body declares states, but none of them is said to be the first.
    NoFirstState = 14,
    /// A specification has a variable for a module that is no system, or a body one for a system.
    WrongAttribute = 15,
    /// A module would start with a body for another header than its own, or within that body
    /// itself.
    WrongBody = 16,
    /// Two interaction points cannot be linked: for where they belong, or for their channels or
    /// roles.
    WrongLink = 17,
    /// Two choices of one `case` have the same constant.
    CaseTwice = 18,
}

/// A rule that is broken at a place, the number of a token from 0.
#[derive(Clone, Copy, PartialEq, Eq)]
pub struct Fault {
    pub place: u32,
    pub rule: Rule,
}
