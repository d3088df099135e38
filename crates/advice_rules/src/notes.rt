//! Notes on the first rule that a specification breaks.

use crate::append_facts;
use crate::dropped::append_dropped;
use est_grammar::{ParseError, parse};
use est_lexer::tokens::Tokens;
use est_syntax::rule::Rule;
use est_syntax::specification::Spec;
use rule_outline::bodies::outline_of;
use std::alloc::{AllocError, Global};

// Adds notes on a rule that a specification breaks at a place.
fn append_outlined(
    alloc: Global,
    tokens: &Tokens,
    spec: &Spec,
    place: u32,
    rule: Rule,
    notes: &mut String,
) -> Result<(), AllocError> {
    let outline = outline_of(alloc, spec)?;
    append_facts(alloc, tokens, &outline, place, rule, notes)?;
    match rule {
        Rule::UnknownName => {
            append_dropped(alloc, tokens, &outline, spec.parts.as_slice(), place, notes)
        }
        _ => Ok(()),
    }
}

/// Adds notes on the rule that these tokens break at a place, where they are a sentence: lines
/// `specification:R:C: note: TEXT`, of which the first says what the rule asks.
pub fn append_rule(
    alloc: Global,
    tokens: &Tokens,
    place: u32,
    rule: Rule,
    notes: &mut String,
) -> Result<(), AllocError> {
    match parse(alloc, tokens) {
        Ok(tree) => append_outlined(alloc, tokens, tree.spec(), place, rule, notes),
        Err(ParseError::Memory(error)) => Err(error),
        Err(_) => Ok(()),
    }
}
