//! Constants (ISO 7185, 6.3).

ghost use Rattle.std.specs.Prelude.{◌≡◌};
ghost use Rattle.est_syntax.specs.Signs.{is_minus};

use crate::name::Used;
use est_items::Items;

/// A sign that is written, `+` or `-` (ISO 7185, sign).
#[derive(Clone, Copy, PartialEq, Eq)]
pub enum Sign {
    Plus,
    Minus,
}

/// Whether what follows is negated: whether the sign before it, if there is one, is `-`.
pub fn is_minus(sign: Option<Sign>) -> bool
    ensures { result ≡ is_minus sign }
{
    match sign {
        Some(Sign::Minus) => true,
        _ => false,
    }
}

/// A constant (ISO 7185, constant): a number, the name of a constant, or a character. `sign` is the
/// sign before it, where one is written. The place is that of the first token, so that of the sign
/// where there is one.
#[derive(Drop)]
pub enum Constant {
    Number {
        sign: Option<Sign>,
        number: u64,
        place: u32,
    },
    Named {
        sign: Option<Sign>,
        name: Used,
        place: u32,
    },
    Character {
        code: u8,
        place: u32,
    },
}

/// Constants in the order of the text.
pub type Constants = Items<Constant>;

/// A name and the constant that it stands for (ISO 7185, constant-definition). The place of `name`
/// is that of the name.
#[derive(Drop)]
pub struct ConstDef {
    pub name: Used,
    pub value: Constant,
}

/// Such definitions in the order of the text.
pub type ConstDefs = Items<ConstDef>;
