//! What the rules ask, each in a sentence.

use crate::selected::follows;
use est_lexer::kind::{ReservedWord, TokenKind};
use est_lexer::tokens::Tokens;
use est_syntax::rule::Rule;

// What the limit is that a part passes which begins with a token of this kind.
fn limit_sentence(kind: TokenKind) -> &'static str {
    match kind {
        TokenKind::Reserved(ReservedWord::Set) => "the base of a set has at most 64 values",
        TokenKind::Reserved(ReservedWord::Any) => "an any has at most 1024 choices in all",
        TokenKind::Reserved(ReservedWord::Begin) => {
            "the variables of a block have at most 65536 scalars in all"
        },
        TokenKind::Identifier => {
            "the variables of a body or a routine have at most 65536 scalars in all"
        },
        _ => {
            "a type has at most 65536 scalars and 32 levels, the base of a set 64 values, and an \
             array of interaction points or module variables 256 elements"
        },
    }
}

// What is asked of the type of what stands at a place, or of its value.
fn kind_sentence(tokens: &Tokens, place: u32) -> &'static str {
    if follows(tokens, place, b"priority") {
        "a priority is an integer of 0 or more"
    } else {
        "what stands here is not of a type that its place takes"
    }
}

/// What a rule asks that is broken at a place.
pub(crate) fn rule_sentence(tokens: &Tokens, place: u32, rule: Rule) -> &'static str {
    match rule {
        Rule::UnknownName => {
            "nothing that can be meant here has this name, and names are declared before they are \
                used"
        },
        Rule::DeclaredTwice => {
            "a name is declared once in its region; a body has the names of its header too"
        },
        Rule::NotSeenHere => {
            "of the bodies around it a nested body sees only constants, types, channels, headers, \
             bodies, and routines that use nothing else of them"
        },
        Rule::WrongSort => "a name of this sort cannot be used so here",
        Rule::NumberTooLarge => "the greatest number is 2147483647",
        Rule::WrongBounds => {
            "the bounds of a range are constants of one type, and the first is not the greater one"
        },
        Rule::TooLarge => match tokens.token_at(place) {
            None => "a limit is passed",
            Some(token) => limit_sentence(token.kind),
        },
        Rule::WrongKind => kind_sentence(tokens, place),
        _ => later_sentence(rule),
    }
}

// What a rule asks that has a number above 8.
fn later_sentence(rule: Rule) -> &'static str {
    match rule {
        Rule::WrongNumber => {
            "after a name stand as many arguments or subscripts as its declaration says"
        },
        Rule::NotWritable => {
            "what is written is a variable, parameter or export of the own body, routine or block \
             (in a function only its own, and its result) or an export of a module variable; and \
             none of an any, a when, an all, or a for around"
        },
        Rule::NotInFunction => {
            "a function only computes: it calls no procedure, sends, starts, releases and links \
             nothing, and has no var parameter"
        },
        Rule::WrongDirection => {
            "an interaction point sends what its channel lets its role send, and receives what the \
             other role may send"
        },
        Rule::DelayNotAlone => {
            "a transition with delay has neither when nor any; clauses of the transitions before \
             it after one trans are its own too"
        },
        Rule::NoFirstState => {
            "a body with states names the first one, as in: initialize to IDLE begin end;"
        },
        Rule::WrongAttribute => {
            "module variables of the specification are for a systemactivity, those of a body for \
             an activity"
        },
        Rule::WrongBody => {
            "init takes a body for the header of its module variable, and none around itself"
        },
        Rule::WrongLink => {
            "connect joins internal points, or points of children, with one channel and opposite \
             roles; attach joins an external point to one of a child with the same role"
        },
        _ => "a constant stands only once in a case",
    }
}
