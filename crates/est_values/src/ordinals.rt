//! The ordinals of kinds.
ghost use Rattle.std.specs.Prelude.{◌≡◌, ◌+ℤ◌, pos};
ghost use Rattle.std.specs.Int.{int_gap};
ghost use Rattle.est_values.specs.FittingValues.{first_ordinal, last_constant, last_ordinal};
ghost use Rattle.est_values.specs.FittingValues.{ordinal_count};

use est_syntax::kind::{Kind, MAXINT};

/// The first ordinal of an ordinal kind, and 0 for any other.
pub fn first_ordinal(kind: &Kind) -> i32
    ensures { result ≡ first_ordinal kind.now }
{
    match kind {
        Kind::Integer => -(MAXINT as i32),
        Kind::Part {
            host: _,
            low,
            high: _,
        } => *low,
        _ => 0,
    }
}

/// The last ordinal of an enumeration of so many constants.
pub fn last_constant(count: usize) -> i32
    ensures { result ≡ last_constant count }
{
    let most = MAXINT as usize;
    if count <= most {
        count as i32 - 1
    } else {
        MAXINT as i32
    }
}

/// The last ordinal of an ordinal kind, and -1 for any other.
pub fn last_ordinal(kind: &Kind) -> i32
    ensures { result ≡ last_ordinal kind.now }
{
    match kind {
        Kind::Integer => MAXINT as i32,
        Kind::Boolean => 1,
        Kind::Char => 127,
        Kind::Enumeration { declared: _, names } => last_constant(names.get().len()),
        Kind::Part {
            host: _,
            low: _,
            high,
        } => *high,
        _ => -1,
    }
}

/// How many ordinals lie from one to another.
pub fn counted(first: i32, last: i32) -> u64
    ensures { result ≡ int_gap first (last +ℤ pos 1) }
{
    let distance = last as i64 - first as i64;
    if distance < 0 { 0 } else { distance as u64 + 1 }
}

/// How many ordinals a kind has.
pub fn ordinal_count(kind: &Kind) -> u64
    ensures { result ≡ ordinal_count kind.now }
{
    counted(first_ordinal(kind), last_ordinal(kind))
}
