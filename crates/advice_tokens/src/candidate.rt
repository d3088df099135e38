//! Tokens that are tried at a place.
ghost use Rattle.std.specs.Prelude.{◌≡◌};
ghost use Rattle.advice_tokens.specs.Spelled.{spelling_of};

/// A token that could stand at a place: any of a sort, or the word or symbol of a spelling.
#[derive(Clone, Copy)]
pub enum Candidate {
    Name,
    Number,
    Character,
    Spelled(&'static str),
}

impl Candidate {
    /// The bytes of such a token.
    pub fn spelling(self) -> &'static str
        ensures { result.now ≡ spelling_of self }
    {
        match self {
            Candidate::Name => "a",
            Candidate::Number => "1",
            Candidate::Character => "'a'",
            Candidate::Spelled(spelling) => spelling,
        }
    }
}

/// The symbols and the reserved words that close something or go on after it.
pub(crate) static GOING_ON: [&str; 10] = [
    ";", ",", ")", "]", "do", "end", "of", "then", "to", "until",
];

/// The other ones that stand in specifications.
pub(crate) static SPELLINGS: [&str; 76] = [
    ":",
    ":=",
    ".",
    "..",
    "(",
    "[",
    "=",
    "<>",
    "<",
    "<=",
    ">",
    ">=",
    "+",
    "-",
    "*",
    "activity",
    "all",
    "and",
    "any",
    "array",
    "attach",
    "begin",
    "body",
    "by",
    "case",
    "channel",
    "common",
    "connect",
    "const",
    "default",
    "delay",
    "detach",
    "disconnect",
    "div",
    "downto",
    "else",
    "export",
    "for",
    "from",
    "function",
    "if",
    "in",
    "individual",
    "init",
    "initialize",
    "ip",
    "mod",
    "module",
    "modvar",
    "name",
    "not",
    "or",
    "otherwise",
    "output",
    "packed",
    "priority",
    "procedure",
    "provided",
    "pure",
    "queue",
    "record",
    "release",
    "repeat",
    "same",
    "set",
    "specification",
    "state",
    "stateset",
    "systemactivity",
    "timescale",
    "trans",
    "type",
    "var",
    "when",
    "while",
    "with",
];
