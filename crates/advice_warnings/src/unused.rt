//! Names that are declared and not used.

use crate::warning::{Slip, Warning};
use advice_lines::declared::is_declared;
use advice_lines::lines::spelled;
use advice_lines::near::name_at;
use est_lexer::kind::TokenKind;
use est_lexer::tokens::Tokens;
use rule_scope::declaration::{Entry, Meant, Section, Sort};
use rule_scope::outline::Outline;
use std::alloc::{AllocError, Global};

/// Whether the token at a place is a name that declares nothing there.
pub(crate) fn is_use(tokens: &Tokens, outline: &Outline, place: u32) -> bool {
    match tokens.token_at(place) {
        None => false,
        Some(token) => token.kind == TokenKind::Identifier && !is_declared(outline, place),
    }
}

/// The place of the declaration that a use of a name means, if there is one.
pub(crate) fn meant_by(
    alloc: Global,
    tokens: &Tokens,
    outline: &Outline,
    place: u32,
) -> Result<Option<u32>, AllocError> {
    let name = name_at(alloc, tokens, place)?;
    let meant = outline.meant(&name, place);
    drop(name);
    Ok(match meant {
        Meant::Seen(declared) => Some(declared),
        Meant::Unseen(declared) => Some(declared),
        _ => None,
    })
}

/// Notes the declaration that is used.
pub(crate) fn mark(used: &mut Vec<bool>, declared: Option<u32>) {
    if let Some(declared) = declared {
        if let Some(flag) = used.get_mut(declared as usize) {
            *flag = true;
        }
    }
}

/// For each place, whether what is declared there is used.
pub(crate) fn uses(
    alloc: Global,
    tokens: &Tokens,
    outline: &Outline,
) -> Result<Vec<bool>, AllocError> {
    let mut used = vec![in alloc; false; tokens.count() as usize]?;
    for place in 0..tokens.count() {
        if is_use(tokens, outline, place) {
            let declared = meant_by(alloc, tokens, outline, place)?;
            mark(&mut used, declared);
        }
    }
    Ok(used)
}

// Whether a section declares names that are there to be used in the body or block around.
fn is_own(section: Section) -> bool {
    match section {
        Section::Body => true,
        Section::Block => true,
        _ => false,
    }
}

// Whether a declaration is one of which it is told that it is not used. Of states something else is
// told, and constants of enumerations, which `=` does not follow, stand for themselves.
fn is_told(tokens: &Tokens, entry: &Entry, place: u32) -> bool {
    match entry.declared.sort {
        Sort::State => false,
        Sort::Constant => spelled(tokens, place.saturating_add(1)) == b"=".as_slice(),
        _ => is_own(entry.section),
    }
}

// Whether something is declared at a place that is told where it is not used.
fn is_candidate(tokens: &Tokens, outline: &Outline, place: u32) -> bool {
    match outline.entry(place) {
        None => false,
        Some(entry) => is_told(tokens, entry, place),
    }
}

/// Adds the names that are declared and not used, where it is known of each place whether it is.
pub(crate) fn push_unused(
    tokens: &Tokens,
    outline: &Outline,
    used: &[bool],
    found: &mut Vec<Warning>,
) -> Result<(), AllocError> {
    for place in 0..tokens.count() {
        let is_used = used.get(place as usize).copied().unwrap_or(true);
        if !is_used && is_candidate(tokens, outline, place) {
            found.push(Warning {
                place,
                slip: Slip::NotUsed,
            })?;
        }
    }
    Ok(())
}
