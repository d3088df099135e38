//! The marks of comments.

// The byte at a place, and 0 after the text.
fn byte_at(text: &[u8], place: usize) -> u8 {
    text.get(place).copied().unwrap_or(0)
}

// How many bytes the one or two have that stand at a place.
fn mark_at(text: &[u8], place: usize, one: u8, two: [u8; 2]) -> usize {
    let [first, second] = two;
    if byte_at(text, place) == one {
        1
    } else if byte_at(text, place) == first && byte_at(text, place.saturating_add(1)) == second {
        2
    } else {
        0
    }
}

/// How many bytes the mark has that opens a comment at a place, and 0 where there is none.
pub(crate) fn opening_at(text: &[u8], place: usize) -> usize {
    mark_at(text, place, b'{', [b'(', b'*'])
}

/// How many bytes the mark has that closes a comment at a place, and 0 where there is none.
pub(crate) fn closing_at(text: &[u8], place: usize) -> usize {
    mark_at(text, place, b'}', [b'*', b')'])
}
