//! Texts of types and what is declared with them (ISO 7185, 6.4 and 6.5).

use crate::constant::Constant;
use crate::name::{Used, UsedNames};
use est_items::{Boxed, Items};

/// The text of a type (ISO 7185, type-denoter). The place is that of its first token; a name and a
/// range have it in what they are made of.
#[cycle(type_text)]
#[derive(Drop)]
pub enum TypeText {
    Named(Used),
    /// The ordinals from one constant to another (subrange-type).
    Range {
        low: Constant,
        high: Constant,
    },
    /// The names of an enumeration (enumerated-type).
    Names {
        names: UsedNames,
        place: u32,
    },
    /// An array with one or more index types (array-type).
    Array {
        index: TypeTexts,
        of: Boxed<TypeText>,
        place: u32,
    },
    /// The fields of a record (record-type).
    Fields {
        fields: VarDefs,
        place: u32,
    },
    /// The sets over a base (set-type).
    Set {
        of: Boxed<TypeText>,
        place: u32,
    },
}

/// Texts of types in the order of the text.
pub type TypeTexts = Items<TypeText>;

/// Names declared with one type (ISO 7185, variable-declaration): variables, fields, parameters,
/// exports, or the names of an `any`.
#[cycle(type_text)]
#[derive(Drop)]
pub struct VarDef {
    pub names: UsedNames,
    pub text: TypeText,
}

/// Such declarations in the order of the text.
pub type VarDefs = Items<VarDef>;

/// A name and the type that it stands for (ISO 7185, type-definition).
#[derive(Drop)]
pub struct TypeDef {
    pub name: Used,
    pub text: TypeText,
}

/// Such definitions in the order of the text.
pub type TypeDefs = Items<TypeDef>;
