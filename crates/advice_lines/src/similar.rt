//! Names that a slip of a finger makes of each other, or a cut.

// The shortest name of which others are told.
const SHORTEST: usize = 3;

// How many bytes two names have in common from the start on, whatever their letter case.
fn common(one: &[u8], other: &[u8]) -> usize {
    for (at, (byte, against)) in one.iter().zip(other.iter()).enumerate() {
        if !byte.eq_ignore_ascii_case(against) {
            return at;
        }
    }
    one.len().min(other.len())
}

// What follows some bytes of a name.
fn after(name: &[u8], count: usize) -> &[u8] {
    &name[count.min(name.len())..]
}

// Whether two names that begin with other bytes are alike when the first two bytes are swapped.
fn is_swapped(one: &[u8], other: &[u8]) -> bool {
    match (one.get(0), one.get(1), other.get(0), other.get(1)) {
        (Some(first), Some(second), Some(third), Some(fourth)) => {
            first.eq_ignore_ascii_case(fourth)
                && second.eq_ignore_ascii_case(third)
                && after(one, 2).eq_ignore_ascii_case(after(other, 2))
        },
        _ => false,
    }
}

// Whether two names that begin with other bytes differ in one letter, or in two that are swapped.
fn is_slip(one: &[u8], other: &[u8]) -> bool {
    let (rest, against) = (after(one, 1), after(other, 1));
    rest.eq_ignore_ascii_case(other)
        || one.eq_ignore_ascii_case(against)
        || rest.eq_ignore_ascii_case(against)
        || is_swapped(one, other)
}

/// Whether two names differ in one letter that is inserted, dropped or exchanged, or in two that
/// are swapped, or one begins the other. Letter case makes no difference, and of short names
/// nothing is told.
pub fn is_similar(one: &[u8], other: &[u8]) -> bool {
    let (longer, shorter) = (one.len().max(other.len()), one.len().min(other.len()));
    let count = common(one, other);
    if longer < SHORTEST || count == longer {
        return false;
    }
    if longer - shorter > 1 {
        return shorter >= SHORTEST && count == shorter;
    }
    is_slip(after(one, count), after(other, count))
}
