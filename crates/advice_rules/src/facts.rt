//! All that is told of a rule that is broken at a place.

use crate::led_to::{append_led_to, leads_on};
use crate::members::{append_owner, append_similar_members};
use crate::operators::append_operators;
use crate::owner::{Owner, owner_at, region_of};
use crate::parameters::{append_parameters, append_taken};
use crate::selected::is_name;
use crate::sentences::rule_sentence;
use crate::signals::append_signal;
use crate::slot_at::slot_at;
use crate::tight::append_tight;
use crate::wanted::{append_target, append_wanted};
use advice_lines::alike_names::append_similar;
use advice_lines::lines::{Mark, append_line, append_token, begin_line};
use advice_lines::near::{append_declaration, append_near, name_at};
use advice_lines::slots::{Slot, takes};
use advice_lines::sorts::{predeclared_sort, predeclared_word};
use est_lexer::tokens::Tokens;
use est_syntax::rule::Rule;
use rule_scope::declaration::Meant;
use rule_scope::outline::Outline;
use std::alloc::{AllocError, Global};

// Whether a rule is broken at a name that is used, and not at one that is declared there.
fn is_of_use(rule: Rule) -> bool {
    match rule {
        Rule::TooLarge => false,
        Rule::DelayNotAlone => false,
        Rule::NoFirstState => false,
        _ => true,
    }
}

// Whether a rule is broken by what a name means.
fn is_of_meaning(rule: Rule) -> bool {
    matches!(
        rule,
        Rule::UnknownName | Rule::NotSeenHere | Rule::WrongSort
    )
}

// What may stand where the name at a place does, which a rule is broken at.
fn slot_for(tokens: &Tokens, place: u32, rule: Rule) -> Slot {
    if rule == Rule::DeclaredTwice {
        Slot::Nothing
    } else {
        slot_at(tokens, place)
    }
}

// What the name at a place means there.
fn meant_at(
    alloc: Global,
    tokens: &Tokens,
    outline: &Outline,
    place: u32,
) -> Result<Meant, AllocError> {
    let name = name_at(alloc, tokens, place)?;
    Ok(outline.meant(&name, place))
}

// Adds a line on the name at a place where it is predeclared, and answers whether it may stand in
// the slot there.
fn append_predeclared(
    tokens: &Tokens,
    slot: Slot,
    meant: Meant,
    place: u32,
    notes: &mut String,
) -> Result<bool, AllocError> {
    let Meant::Predeclared(known) = meant else {
        return Ok(false);
    };
    begin_line(tokens, Mark::Note, place, notes)?;
    append_token(tokens, place, notes)?;
    notes.push_str(" is ")?;
    notes.push_str(predeclared_word(known))?;
    notes.push_str("\n")?;
    Ok(takes(slot, predeclared_sort(known)))
}

// Adds lines on what the name at a place is, and on similar names where it may not stand there and
// the rule says so, and answers whether a name is told that may.
fn append_meanings(
    alloc: Global,
    tokens: &Tokens,
    outline: &Outline,
    slot: Slot,
    meant: Meant,
    place: u32,
    rule: Rule,
    notes: &mut String,
) -> Result<bool, AllocError> {
    let is_fit = append_predeclared(tokens, slot, meant, place, notes)?;
    let count = append_near(alloc, tokens, outline, slot, place, notes)?;
    if is_fit || count > 0 || !is_of_meaning(rule) {
        return Ok(is_fit || count > 0);
    }
    Ok(append_similar(alloc, tokens, outline, slot, place, notes)? > 0)
}

// Adds lines on a name at a place that is looked up in the regions around.
fn append_around(
    alloc: Global,
    tokens: &Tokens,
    outline: &Outline,
    place: u32,
    rule: Rule,
    notes: &mut String,
) -> Result<(), AllocError> {
    let meant = meant_at(alloc, tokens, outline, place)?;
    let slot = slot_for(tokens, place, rule);
    let is_told = append_meanings(alloc, tokens, outline, slot, meant, place, rule, notes)?;
    match rule {
        Rule::UnknownName => append_wanted(tokens, slot, is_told, place, notes),
        Rule::WrongSort => append_wanted(tokens, slot, is_told, place, notes),
        Rule::NotSeenHere if !is_told => append_wanted(tokens, slot, is_told, place, notes),
        Rule::WrongNumber => match meant {
            Meant::Seen(declared) => append_taken(alloc, tokens, outline, declared, place, notes),
            _ => Ok(()),
        },
        _ => Ok(()),
    }
}

// Where the name at a place stands among those of its owner, if it does.
fn standing_in(
    alloc: Global,
    tokens: &Tokens,
    outline: &Outline,
    owner: Owner<'_>,
    place: u32,
) -> Result<Option<u32>, AllocError> {
    let Some(region) = region_of(owner) else {
        return Ok(None);
    };
    let name = name_at(alloc, tokens, place)?;
    Ok(match outline.standing(region, &name) {
        None => None,
        Some(standing) => Some(standing.place),
    })
}

// Adds lines on what a name at a place is that does not stand in its owner.
fn append_strange(
    alloc: Global,
    tokens: &Tokens,
    outline: &Outline,
    owner: Owner<'_>,
    place: u32,
    notes: &mut String,
) -> Result<(), AllocError> {
    append_near(alloc, tokens, outline, Slot::Nothing, place, notes)?;
    append_similar_members(alloc, tokens, outline, owner, place, notes)
}

// Adds a line on what the name at a place takes, which is declared in its owner: an interaction its
// parameters, and what a module has its subscripts.
fn append_taken_of(
    alloc: Global,
    tokens: &Tokens,
    outline: &Outline,
    owner: Owner<'_>,
    declared: u32,
    place: u32,
    notes: &mut String,
) -> Result<(), AllocError> {
    match owner {
        Owner::Signals {
            point: _,
            direction: _,
            side: _,
        } => append_parameters(alloc, tokens, outline, declared, place, notes),
        _ => append_taken(alloc, tokens, outline, declared, place, notes),
    }
}

// Adds lines on a name at a place that is looked up in its owner.
fn append_member(
    alloc: Global,
    tokens: &Tokens,
    outline: &Outline,
    owner: Owner<'_>,
    place: u32,
    rule: Rule,
    notes: &mut String,
) -> Result<(), AllocError> {
    let standing = standing_in(alloc, tokens, outline, owner, place)?;
    match standing {
        None => append_strange(alloc, tokens, outline, owner, place, notes)?,
        Some(declared) => {
            append_declaration(alloc, tokens, outline, declared, place, notes)?;
            if rule == Rule::WrongNumber {
                append_taken_of(alloc, tokens, outline, owner, declared, place, notes)?;
            }
        },
    }
    match owner {
        Owner::Signals {
            point,
            direction,
            side,
        } => append_signal(
            tokens, outline, direction, point, side, standing, place, notes,
        ),
        _ => if is_of_meaning(rule) {
            append_owner(alloc, tokens, outline, owner, place, notes)
        } else {
            Ok(())
        },
    }
}

// Adds lines on the name at a place.
fn append_name(
    alloc: Global,
    tokens: &Tokens,
    outline: &Outline,
    place: u32,
    rule: Rule,
    notes: &mut String,
) -> Result<(), AllocError> {
    match owner_at(alloc, tokens, outline, place)? {
        None => append_around(alloc, tokens, outline, place, rule, notes),
        Some(owner) => append_member(alloc, tokens, outline, owner, place, rule, notes),
    }
}

const UNSELECTED: &str = "nothing can be selected from it so";

// Adds lines on the operand at a place.
fn append_operand(
    alloc: Global,
    tokens: &Tokens,
    outline: &Outline,
    place: u32,
    notes: &mut String,
) -> Result<(), AllocError> {
    append_led_to(alloc, tokens, outline, place, notes)?;
    if leads_on(alloc, tokens, outline, place)? {
        append_target(alloc, tokens, outline, place, notes)?;
    } else {
        append_line(tokens, Mark::Note, place, UNSELECTED, notes)?;
    }
    append_operators(tokens, place, notes)?;
    append_tight(tokens, place, notes)
}

/// Adds lines on a rule that a specification with this outline breaks at a place.
pub fn append_facts(
    alloc: Global,
    tokens: &Tokens,
    outline: &Outline,
    place: u32,
    rule: Rule,
    notes: &mut String,
) -> Result<(), AllocError> {
    let sentence = rule_sentence(tokens, place, rule);
    append_line(tokens, Mark::Note, place, sentence, notes)?;
    if is_name(tokens, place) && is_of_use(rule) {
        append_name(alloc, tokens, outline, place, rule, notes)?;
    }
    if rule == Rule::WrongKind {
        append_operand(alloc, tokens, outline, place, notes)?;
    }
    Ok(())
}
