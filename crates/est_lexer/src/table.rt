//! The words and symbols of the profile with their spellings.

ghost use Rattle.std.specs.Prelude.{◌≡◌, ◌<◌, ℕ, true, false, length, slice_index};
ghost use Rattle.std.specs.Prelude.{option_map, find, nat_eq, IsTrue};
ghost use Rattle.std.specs.Char.{is_ascii_alphabetic};
ghost use Rattle.std.specs.List.{starts_with};
ghost use Rattle.std.specs.Str.{str_eq_ignore_ascii_case};
ghost use Rattle.est_lexer.specs.inside.Scanning.{rows, groups, all_of, is_by_letter};
ghost use Rattle.est_lexer.specs.inside.Symbols.{begins_several, symbol_at};
ghost use Rattle.est_lexer.specs.Spellings.{name_kind};
ghost use Rattle.est_lexer.specs.Words.{symbols};

use crate::between::byte_at;
use crate::kind::TokenKind::{LeftOut, Reserved};
use crate::kind::{LeftOutToken, ReservedWord, Symbol, TokenKind};

// A word: its spelling, in lower case, and its kind.
type Word = (&'static [u8], TokenKind);

// The reserved and the left-out words by their first letter, from `a` to `z`.
static WORDS: [&[Word]; 26] = [
    &[
        (b"activity", Reserved(ReservedWord::Activity)),
        (b"all", Reserved(ReservedWord::All)),
        (b"and", Reserved(ReservedWord::And)),
        (b"any", Reserved(ReservedWord::Any)),
        (b"array", Reserved(ReservedWord::Array)),
        (b"attach", Reserved(ReservedWord::Attach)),
    ],
    &[
        (b"begin", Reserved(ReservedWord::Begin)),
        (b"body", Reserved(ReservedWord::Body)),
        (b"by", Reserved(ReservedWord::By)),
    ],
    &[
        (b"case", Reserved(ReservedWord::Case)),
        (b"channel", Reserved(ReservedWord::Channel)),
        (b"common", Reserved(ReservedWord::Common)),
        (b"connect", Reserved(ReservedWord::Connect)),
        (b"const", Reserved(ReservedWord::Const)),
    ],
    &[
        (b"default", Reserved(ReservedWord::Default)),
        (b"delay", Reserved(ReservedWord::Delay)),
        (b"detach", Reserved(ReservedWord::Detach)),
        (b"disconnect", Reserved(ReservedWord::Disconnect)),
        (b"div", Reserved(ReservedWord::Div)),
        (b"do", Reserved(ReservedWord::Do)),
        (b"downto", Reserved(ReservedWord::Downto)),
    ],
    &[
        (b"else", Reserved(ReservedWord::Else)),
        (b"end", Reserved(ReservedWord::End)),
        (b"exist", LeftOut(LeftOutToken::Exist)),
        (b"export", Reserved(ReservedWord::Export)),
        (b"external", LeftOut(LeftOutToken::External)),
    ],
    &[
        (b"file", LeftOut(LeftOutToken::File)),
        (b"for", Reserved(ReservedWord::For)),
        (b"forone", LeftOut(LeftOutToken::Forone)),
        (b"forward", LeftOut(LeftOutToken::Forward)),
        (b"from", Reserved(ReservedWord::From)),
        (b"function", Reserved(ReservedWord::Function)),
    ],
    &[(b"goto", LeftOut(LeftOutToken::Goto))],
    &[],
    &[
        (b"if", Reserved(ReservedWord::If)),
        (b"in", Reserved(ReservedWord::In)),
        (b"individual", Reserved(ReservedWord::Individual)),
        (b"init", Reserved(ReservedWord::Init)),
        (b"initialize", Reserved(ReservedWord::Initialize)),
        (b"ip", Reserved(ReservedWord::Ip)),
    ],
    &[],
    &[],
    &[(b"label", LeftOut(LeftOutToken::Label))],
    &[
        (b"mod", Reserved(ReservedWord::Mod)),
        (b"module", Reserved(ReservedWord::Module)),
        (b"modvar", Reserved(ReservedWord::Modvar)),
    ],
    &[
        (b"name", Reserved(ReservedWord::Name)),
        (b"nil", LeftOut(LeftOutToken::Nil)),
        (b"not", Reserved(ReservedWord::Not)),
    ],
    &[
        (b"of", Reserved(ReservedWord::Of)),
        (b"or", Reserved(ReservedWord::Or)),
        (b"otherwise", Reserved(ReservedWord::Otherwise)),
        (b"output", Reserved(ReservedWord::Output)),
    ],
    &[
        (b"packed", Reserved(ReservedWord::Packed)),
        (b"primitive", LeftOut(LeftOutToken::Primitive)),
        (b"priority", Reserved(ReservedWord::Priority)),
        (b"procedure", Reserved(ReservedWord::Procedure)),
        (b"process", LeftOut(LeftOutToken::Process)),
        (b"provided", Reserved(ReservedWord::Provided)),
        (b"pure", Reserved(ReservedWord::Pure)),
    ],
    &[(b"queue", Reserved(ReservedWord::Queue))],
    &[
        (b"real", LeftOut(LeftOutToken::Real)),
        (b"record", Reserved(ReservedWord::Record)),
        (b"release", Reserved(ReservedWord::Release)),
        (b"repeat", Reserved(ReservedWord::Repeat)),
    ],
    &[
        (b"same", Reserved(ReservedWord::Same)),
        (b"set", Reserved(ReservedWord::Set)),
        (b"specification", Reserved(ReservedWord::Specification)),
        (b"state", Reserved(ReservedWord::State)),
        (b"stateset", Reserved(ReservedWord::Stateset)),
        (b"suchthat", LeftOut(LeftOutToken::Suchthat)),
        (b"systemactivity", Reserved(ReservedWord::Systemactivity)),
        (b"systemprocess", LeftOut(LeftOutToken::Systemprocess)),
    ],
    &[
        (b"terminate", LeftOut(LeftOutToken::Terminate)),
        (b"then", Reserved(ReservedWord::Then)),
        (b"timescale", Reserved(ReservedWord::Timescale)),
        (b"to", Reserved(ReservedWord::To)),
        (b"trans", Reserved(ReservedWord::Trans)),
        (b"type", Reserved(ReservedWord::Type)),
    ],
    &[(b"until", Reserved(ReservedWord::Until))],
    &[(b"var", Reserved(ReservedWord::Var))],
    &[
        (b"when", Reserved(ReservedWord::When)),
        (b"while", Reserved(ReservedWord::While)),
        (b"with", Reserved(ReservedWord::With)),
    ],
    &[],
    &[],
    &[],
];

/// The kind of an identifier or a word with these bytes.
pub(crate) fn word_or_identifier(bytes: &[u8]) -> TokenKind
    requires some { 0 < length bytes.now }
    requires letter { is_ascii_alphabetic (slice_index bytes.now 0) ≡ true }
    ensures { result ≡ name_kind bytes.now }
{
    find_by_letter(&WORDS, bytes).unwrap_or(TokenKind::Identifier)
}

// The kind of the word that has these bytes, in any letter case.
fn find_by_letter(table: &[&[Word]], bytes: &[u8]) -> Option<TokenKind>
    requires full { length table.now ≡ 26 }
    requires by_letter { IsTrue (is_by_letter 97 (groups table.now)) }
    requires some { 0 < length bytes.now }
    requires letter { is_ascii_alphabetic (slice_index bytes.now 0) ≡ true }
    ensures { result ≡ option_map (λ w. w.1)
        (find (λ w. str_eq_ignore_ascii_case w.0 bytes.now) (all_of (groups table.now))) }
{
    find_word(
        table[(bytes[0].to_ascii_lowercase() - b'a') as usize],
        bytes,
    )
}

// The kind of the first of these words that has these bytes, in any letter case.
fn find_word(words: &[Word], bytes: &[u8]) -> Option<TokenKind>
    ensures { result ≡ option_map (λ w. w.1)
        (find (λ w. str_eq_ignore_ascii_case w.0 bytes.now) (rows words.now)) }
{
    for word in words {
        if word.0.eq_ignore_ascii_case(bytes) {
            return Some(word.1);
        }
    }
    None
}

/// The length and the kind of the longest symbol that these bytes begin with.
pub(crate) fn symbol_before(rest: &[u8]) -> Option<(usize, TokenKind)>
    ensures { result ≡ option_map (λ w. (length w.0, w.1))
        (find (λ w. starts_with nat_eq rest.now w.0) symbols) }
{
    let first = byte_at(rest, 0);
    if begins_several_symbols(first) {
        longest_symbol(first, byte_at(rest, 1), byte_at(rest, 2))
    } else {
        single_symbol(first)
    }
}

// Whether more than one symbol begins with this byte.
fn begins_several_symbols(first: u8) -> bool
    ensures { result ≡ begins_several first }
{
    matches!(first, b'.' | b':' | b'<' | b'>')
}

// The length and the kind of the longest symbol that these three bytes begin with.
fn longest_symbol(first: u8, second: u8, third: u8) -> Option<(usize, TokenKind)>
    requires { begins_several first ≡ true }
    ensures { result ≡ symbol_at first second third }
{
    match (first, second, third) {
        (b'.', b'.', b'.') => Some((3, LeftOut(LeftOutToken::Ellipsis))),
        (b'.', b'.', _) => Some((2, TokenKind::Symbol(Symbol::DoublePeriod))),
        (b'.', _, _) => Some((1, TokenKind::Symbol(Symbol::Period))),
        (b':', b'=', _) => Some((2, TokenKind::Symbol(Symbol::Assign))),
        (b':', _, _) => Some((1, TokenKind::Symbol(Symbol::Colon))),
        (b'<', b'>', _) => Some((2, TokenKind::Symbol(Symbol::Unequal))),
        (b'<', b'=', _) => Some((2, TokenKind::Symbol(Symbol::AtMost))),
        (b'<', _, _) => Some((1, TokenKind::Symbol(Symbol::Below))),
        (b'>', b'=', _) => Some((2, TokenKind::Symbol(Symbol::AtLeast))),
        (b'>', _, _) => Some((1, TokenKind::Symbol(Symbol::Above))),
        _ => None,
    }
}

// The length and the kind of the symbol that alone begins with this byte.
fn single_symbol(first: u8) -> Option<(usize, TokenKind)>
    requires { begins_several first ≡ false }
    ensures { (second third : ℕ) → result ≡ symbol_at first second third }
{
    match first {
        b'=' => Some((1, TokenKind::Symbol(Symbol::Equal))),
        b'+' => Some((1, TokenKind::Symbol(Symbol::Plus))),
        b'-' => Some((1, TokenKind::Symbol(Symbol::Minus))),
        b'*' => Some((1, TokenKind::Symbol(Symbol::Star))),
        b'(' => Some((1, TokenKind::Symbol(Symbol::LeftParenthesis))),
        b')' => Some((1, TokenKind::Symbol(Symbol::RightParenthesis))),
        b'[' => Some((1, TokenKind::Symbol(Symbol::LeftBracket))),
        b']' => Some((1, TokenKind::Symbol(Symbol::RightBracket))),
        b',' => Some((1, TokenKind::Symbol(Symbol::Comma))),
        b';' => Some((1, TokenKind::Symbol(Symbol::Semicolon))),
        b'_' => Some((1, TokenKind::Symbol(Symbol::Underscore))),
        b'?' => Some((1, TokenKind::Symbol(Symbol::QuestionMark))),
        b'^' => Some((1, LeftOut(LeftOutToken::Caret))),
        b'@' => Some((1, LeftOut(LeftOutToken::At))),
        b'/' => Some((1, LeftOut(LeftOutToken::Slash))),
        _ => None,
    }
}
