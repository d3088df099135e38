//! The predeclared functions (ISO 7185, 6.6.6).
ghost use Rattle.std.specs.Prelude.{◌≡◌};
ghost use Rattle.rule_declares.specs.RequiredFunctions.{required_function};

use rule_kinds::rule_scope::predeclared::PredeclaredName;

/// A function that is predeclared (ISO 7185, 6.6.6).
#[derive(Clone, Copy)]
pub enum Required {
    Ord,
    Chr,
    Succ,
    Pred,
    Abs,
    Odd,
    Sqr,
}

/// The function that is predeclared under a name.
pub fn required_function(known: PredeclaredName) -> Option<Required>
    ensures { result ≡ required_function known }
{
    match known {
        PredeclaredName::Ord => Some(Required::Ord),
        PredeclaredName::Chr => Some(Required::Chr),
        PredeclaredName::Succ => Some(Required::Succ),
        PredeclaredName::Pred => Some(Required::Pred),
        PredeclaredName::Abs => Some(Required::Abs),
        PredeclaredName::Odd => Some(Required::Odd),
        PredeclaredName::Sqr => Some(Required::Sqr),
        _ => None,
    }
}
