//! How words and symbols are spelled.

ghost use Rattle.std.specs.Prelude.{◌≡◌, ◌<◌, [], length, map, slice_index_or};
ghost use Rattle.est_lexer.specs.declared.kind.TokenKind.TheVariants as token;
ghost use Rattle.text_printer.specs.PlainSpelling.{IsSpelledPlainly};

use est_lexer::kind::{ReservedWord, Symbol};

// The reserved words in their order.
static WORDS: [&[u8]; 67] = [
    b"activity",
    b"all",
    b"and",
    b"any",
    b"array",
    b"attach",
    b"begin",
    b"body",
    b"by",
    b"case",
    b"channel",
    b"common",
    b"connect",
    b"const",
    b"default",
    b"delay",
    b"detach",
    b"disconnect",
    b"div",
    b"do",
    b"downto",
    b"else",
    b"end",
    b"export",
    b"for",
    b"from",
    b"function",
    b"if",
    b"in",
    b"individual",
    b"init",
    b"initialize",
    b"ip",
    b"mod",
    b"module",
    b"modvar",
    b"name",
    b"not",
    b"of",
    b"or",
    b"otherwise",
    b"output",
    b"packed",
    b"priority",
    b"procedure",
    b"provided",
    b"pure",
    b"queue",
    b"record",
    b"release",
    b"repeat",
    b"same",
    b"set",
    b"specification",
    b"state",
    b"stateset",
    b"systemactivity",
    b"then",
    b"timescale",
    b"to",
    b"trans",
    b"type",
    b"until",
    b"var",
    b"when",
    b"while",
    b"with",
];

// The symbols in their order.
static SYMBOLS: [&[u8]; 21] = [
    b"+", b"-", b"*", b"=", b"<>", b"<", b"<=", b">", b">=", b"(", b")", b"[", b"]", b",", b";",
    b":", b":=", b".", b"..", b"_", b"?",
];

/// The spelling of a reserved word.
pub fn word_spelling(word: ReservedWord) -> &'static [u8]
    ensures { IsSpelledPlainly (token.Reserved word) result.now }
{
    spelling_at(&WORDS, word as usize)
}

/// The spelling of a symbol.
pub fn symbol_spelling(symbol: Symbol) -> &'static [u8]
    ensures { IsSpelledPlainly (token.Symbol symbol) result.now }
{
    spelling_at(&SYMBOLS, symbol as usize)
}

// The spelling at a place of a table.
fn spelling_at(table: &'static [&'static [u8]], place: usize) -> &'static [u8]
    requires { place < length table.now }
    ensures { result.now ≡ slice_index_or (map (λ spelling. spelling.now) table.now) place [] }
{
    table[place]
}
