//! The predeclared names.

ghost use Rattle.std.specs.Prelude.{◌≡◌};
ghost use Rattle.std.specs.Map.{lookup};
ghost use Rattle.est_syntax.specs.Names.{is_name};
ghost use Rattle.rule_scope.specs.Predeclared.{predeclared_name};
ghost use Rattle.rule_scope.specs.inside.Rows.{rows};

use est_syntax::name::Name;

/// A name that is predeclared in the profile (ISO 7185, required identifiers).
#[derive(Clone, Copy, PartialEq, Eq)]
pub enum PredeclaredName {
    Integer,
    Boolean,
    Char,
    False,
    True,
    Maxint,
    Ord,
    Chr,
    Succ,
    Pred,
    Abs,
    Odd,
    Sqr,
}

// A predeclared name: how it is spelled, in lower case, and which one it is.
type Row = (&'static [u8], PredeclaredName);

// The predeclared names of the profile.
static PREDECLARED: [Row; 13] = [
    (b"integer", PredeclaredName::Integer),
    (b"boolean", PredeclaredName::Boolean),
    (b"char", PredeclaredName::Char),
    (b"false", PredeclaredName::False),
    (b"true", PredeclaredName::True),
    (b"maxint", PredeclaredName::Maxint),
    (b"ord", PredeclaredName::Ord),
    (b"chr", PredeclaredName::Chr),
    (b"succ", PredeclaredName::Succ),
    (b"pred", PredeclaredName::Pred),
    (b"abs", PredeclaredName::Abs),
    (b"odd", PredeclaredName::Odd),
    (b"sqr", PredeclaredName::Sqr),
];

// Which of these names is spelled so.
fn name_in(names: &[Row], bytes: &[u8]) -> Option<PredeclaredName>
    ensures { result ≡ lookup (is_name bytes.now) (rows names.now) }
{
    for row in names {
        if bytes == row.0 {
            return Some(row.1);
        }
    }
    None
}

/// Which predeclared name a name is, if it is one.
#[tactic(auto, unfolding(crate::specs::Predeclared::predeclared_names))]
pub fn predeclared_name(name: &Name) -> Option<PredeclaredName>
    ensures { result ≡ predeclared_name name.now.bytes }
{
    name_in(&PREDECLARED, name.bytes.as_slice())
}
