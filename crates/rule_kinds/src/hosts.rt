//! Ordinal kinds and the hosts of their ordinals.

ghost use Rattle.std.specs.Prelude.{◌≡◌, ◌-ℤ◌};
ghost use Rattle.est_syntax.specs.Kinds.{is_ordinal};
ghost use Rattle.rule_kinds.specs.Constants.{is_integer};
ghost use Rattle.rule_kinds.specs.TypeTexts.{same_host, counted, count, scalar, is_within};

use est_syntax::kind::Kind;
use rule_scope::declaration::Measured;

/// The greatest number of scalars of a type.
pub const MOST_SCALARS: u64 = 65536;

// The greatest number of levels of arrays and records of a type.
const MOST_LEVELS: u64 = 32;

/// Whether a kind is that of the integers.
pub fn is_integer(kind: &Kind) -> bool
    ensures { result ≡ is_integer kind.now }
{
    match kind {
        Kind::Integer => true,
        _ => false,
    }
}

/// Whether the values of a kind are ordinals.
pub fn is_ordinal(kind: &Kind) -> bool
    ensures { result ≡ is_ordinal kind.now }
{
    match kind {
        Kind::Integer => true,
        Kind::Boolean => true,
        Kind::Char => true,
        Kind::Enumeration { .. } => true,
        Kind::Part { .. } => true,
        _ => false,
    }
}

/// Whether two hosts are one. An enumeration is known by the place of its declaration.
pub fn same_host(one: &Kind, other: &Kind) -> bool
    ensures { result ≡ same_host one.now other.now }
{
    match (one, other) {
        (Kind::Integer, Kind::Integer) => true,
        (Kind::Boolean, Kind::Boolean) => true,
        (Kind::Char, Kind::Char) => true,
        (
            Kind::Enumeration { declared, names: _ },
            Kind::Enumeration {
                declared: other,
                names: _,
            },
        ) => { *declared == *other },
        _ => false,
    }
}

// How many ordinals lie from one to another.
fn counted(low: i32, high: i32) -> u64
    ensures { result ≡ counted (high -ℤ low) }
{
    let distance = high as i64 - low as i64;
    if distance < 0 { 0 } else { distance as u64 + 1 }
}

/// How many values an ordinal kind has, and 0 of any other.
pub fn count(kind: &Kind) -> u64
    ensures { result ≡ count kind.now }
{
    match kind {
        Kind::Integer => 4294967295,
        Kind::Boolean => 2,
        Kind::Char => 128,
        Kind::Enumeration { declared: _, names } => names.get().len() as u64,
        Kind::Part { host: _, low, high } => counted(*low, *high),
        _ => 0,
    }
}

/// A kind with one scalar.
pub fn scalar(kind: Kind) -> Measured
    ensures { result ≡ scalar kind }
{
    Measured {
        kind,
        scalars: 1,
        levels: 0,
    }
}

/// Whether a kind of these sizes is within the limits of a type.
pub fn is_within(scalars: u64, levels: u64) -> bool
    ensures { result ≡ is_within scalars levels }
{
    scalars <= MOST_SCALARS && levels <= MOST_LEVELS
}
