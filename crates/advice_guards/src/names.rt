//! Names as they stand in the text.

use est_lexer::tokens::Tokens;

/// The name that stands at a place.
pub(crate) fn name_at<'t>(tokens: &'t Tokens, place: u32) -> &'t [u8] {
    if place < tokens.count() {
        tokens.spelled(place)
    } else {
        &[]
    }
}
