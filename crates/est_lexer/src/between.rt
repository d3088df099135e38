//! Blanks and comments, which lie between tokens.

ghost use Rattle.std.specs.Prelude.{◌≡◌, ◌≤◌, ◌<◌, ◌+◌, ℕ, false, length};
ghost use Rattle.std.specs.Prelude.{slice_index, MatchOption, IfNone, IfSome};
ghost use Rattle.est_lexer.specs.inside.Scanning.{IsBegin, HasNoEnd};
ghost use Rattle.est_lexer.specs.Between.{is_blank, opening, closing};
ghost use Rattle.est_lexer.specs.Between.{IsBetween, IsFirstEnd, IsUnended};

// The byte at a place, and 0 after the text.
pub(crate) fn byte_at(text: &[u8], place: usize) -> u8
    ensures { result ≡ slice_index text.now place }
{
    text.get(place).copied().unwrap_or(0)
}

// How many bytes the mark has that begins a comment at a place.
#[tactic(auto, unfolding(crate::specs::Between::opening))]
pub(crate) fn opening_at(text: &[u8], place: usize) -> usize
    requires { place ≤ length text.now }
    ensures { result ≡ opening text.now place }
{
    if byte_at(text, place) == b'{' {
        1
    } else if byte_at(text, place) == b'(' && byte_at(text, place + 1) == b'*' {
        2
    } else {
        0
    }
}

// How many bytes the mark has that ends a comment at a place.
#[tactic(auto, unfolding(crate::specs::Between::closing))]
fn closing_at(text: &[u8], place: usize) -> usize
    requires { place ≤ length text.now }
    ensures { result ≡ closing text.now place }
{
    if byte_at(text, place) == b'}' {
        1
    } else if byte_at(text, place) == b'*' && byte_at(text, place + 1) == b')' {
        2
    } else {
        0
    }
}

// The end of the first mark from a place on that ends a comment.
fn first_end(text: &[u8], from: usize) -> Option<usize>
    ensures { MatchOption result (IsUnended text.now from) (IsFirstEnd text.now from) }
{
    for mark in from..text.len() {
        let size = closing_at(text, mark);
        if size > 0 {
            return Some(mark + size);
        }
    }
    None
}

// The end of the comment that begins at a place, if one does and it has an end.
fn comment_end(text: &[u8], place: usize) -> Option<usize>
    requires { place ≤ length text.now }
    ensures between { IfSome result (λ end. IsBetween text.now place end) }
    ensures onward { IfSome result (λ end. place < end) }
    ensures inside { IfSome result (λ end. end ≤ length text.now) }
    ensures unended { IfNone result (HasNoEnd text.now place) }
{
    let mark = opening_at(text, place);
    if mark == 0 {
        None
    } else {
        first_end(text, place + mark)
    }
}

// The end of the blanks in a row from a place on.
fn blanks_end(text: &[u8], from: usize) -> usize
    requires { from ≤ length text.now }
    ensures between { IsBetween text.now from result }
    ensures inside { result ≤ length text.now }
    ensures ended { is_blank (slice_index text.now result) ≡ false }
{
    let mut end = from;
    while end < text.len() && is_blank_byte(text[end]) {
        end += 1;
    }
    end
}

// Whether the byte is a blank.
fn is_blank_byte(byte: u8) -> bool
    ensures { result ≡ is_blank byte }
{
    byte <= b' ' && matches!(byte, b'\t' | b'\n' | b'\x0c' | b'\r' | b' ')
}

/// The first place from `from` on at which neither a blank nor a comment that has an end begins.
pub(crate) fn begin_from(text: &[u8], from: usize) -> usize
    requires { from ≤ length text.now }
    ensures between { IsBetween text.now from result }
    ensures inside { result ≤ length text.now }
    ensures begin { IsBegin text.now result }
{
    let mut place = blanks_end(text, from);
    while let Some(end) = comment_end(text, place) {
        place = blanks_end(text, end);
    }
    place
}
