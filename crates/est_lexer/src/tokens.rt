//! The token list of a text, and where its tokens stand.

ghost use Rattle.std.specs.Prelude.{◌≡◌, ◌≤◌, ◌<◌, ◌+◌, length, slice_get, IfSome, count_by, not};
ghost use Rattle.std.specs.List.{suffix_len};
ghost use Rattle.est_lexer.specs.Lines.{is_line_feed};
ghost use Rattle.est_lexer.specs.TokenList.{AreWithin, AreSpelled};
ghost use Rattle.est_lexer.specs.declared.tokens.TheConstants.{MOST_BYTES};

use crate::kind::Token;

const LINE_FEED: u8 = b'\n';

/// The most bytes that a text may have.
pub const MOST_BYTES: usize = 134_217_728;

const _: () = prove!(size_of::<Token>() <= 24);

/// A text with its tokens. The text is borrowed.
#[derive(Drop)]
pub struct Tokens<'t> {
    pub(crate) text: &'t [u8],
    pub(crate) list: Vec<Token>,
    ghost short: { length text.now ≤ MOST_BYTES },
    ghost few: { length list.items ≤ length text.now },
    ghost inside: { AreWithin text.now list.items },
    ghost kinds: { AreSpelled text.now list.items },
}

impl Tokens<'_> {
    ghost use Rattle.est_lexer.specs.Lines.{line_at, column_at};
    ghost use Rattle.est_lexer.specs.Offsets.{text_of, tokens_of, offset_at};
    ghost use Rattle.est_lexer.specs.Spans.{spelling};

    /// How many tokens the text has.
    pub fn count(&self) -> u32
        ensures { result ≡ length (tokens_of self.now) }
    {
        self.list.len() as u32
    }

    /// The token at a place, if there is one.
    pub fn token_at(&self, place: u32) -> Option<Token>
        ensures { result ≡ slice_get (tokens_of self.now) place }
    {
        self.list.get(place as usize).copied()
    }

    /// The bytes of the token at a place.
    pub fn spelled(&self, place: u32) -> &[u8]
        requires { place < length (tokens_of self.now) }
        ensures { IfSome (slice_get (tokens_of self.now) place)
            (λ token. result.now ≡ spelling (text_of self.now) token) }
    {
        let token = self.list[place as usize];
        let start = token.start as usize;
        &self.text[start..start + token.length as usize]
    }

    /// The line and the column of a place, counted in bytes from 1. The place after all tokens
    /// lies where the last one ends.
    pub fn line_column(&self, place: u32) -> (u32, u32)
        requires { place ≤ length (tokens_of self.now) }
        ensures line { result.0 ≡ line_at (text_of self.now)
            (offset_at (tokens_of self.now) place) }
        ensures column { result.1
            ≡ column_at (text_of self.now) (offset_at (tokens_of self.now) place) }
    {
        let before = &self.text[..self.offset(place)];
        (line_after(before), column_after(before))
    }

    // Where the token of a place starts, or the last one ends.
    fn offset(&self, place: u32) -> usize
        requires { place ≤ length (tokens_of self.now) }
        ensures value { result ≡ offset_at (tokens_of self.now) place }
        ensures inside { result ≤ length (text_of self.now) }
    {
        match self.list.get(place as usize) {
            Some(token) => token.start as usize,
            None => match self.list.last() {
                Some(token) => token.start as usize + token.length as usize,
                None => 0,
            },
        }
    }
}

// The line of the byte after these.
fn line_after(before: &[u8]) -> u32
    requires { length before.now ≤ MOST_BYTES }
    ensures { result ≡ 1 + count_by is_line_feed before.now }
{
    1 + before.iter().filter(|byte| **byte == LINE_FEED).count() as u32
}

// The column of the byte after these.
fn column_after(before: &[u8]) -> u32
    requires { length before.now ≤ MOST_BYTES }
    ensures { result ≡ 1 + suffix_len (λ byte. not (is_line_feed byte)) before.now }
{
    let mut column = 1;
    for byte in before {
        if *byte == LINE_FEED {
            column = 1;
        } else {
            column += 1;
        }
    }
    column
}
