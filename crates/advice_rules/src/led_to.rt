//! What names with subscripts and fields after them lead to.

use crate::selected::{after_operand, after_subscripts, depth_on, follows, is_name};
use advice_lines::kinds::append_kind;
use advice_lines::lines::{Mark, append_token, begin_line, spelled};
use advice_lines::near::name_at;
use est_lexer::kind::{Symbol, TokenKind};
use est_lexer::tokens::Tokens;
use est_syntax::kind::Kind;
use rule_scope::declaration::{Entry, Meant, Section, Sort};
use rule_scope::outline::Outline;
use std::alloc::{AllocError, Global};

// A kind, and the place of the selectors that choose from it.
#[derive(Clone, Copy)]
struct Base<'k> {
    kind: &'k Kind,
    from: u32,
}

/// What the name at a place means there, where it is declared and seen.
pub(crate) fn declared_by<'o>(
    alloc: Global,
    tokens: &Tokens,
    outline: &'o Outline,
    place: u32,
) -> Result<Option<&'o Entry>, AllocError> {
    let name = name_at(alloc, tokens, place)?;
    Ok(match outline.meant(&name, place) {
        Meant::Seen(declared) => outline.entry(declared),
        _ => None,
    })
}

// The kind of what is declared, where it has one.
fn kind_of(entry: &Entry) -> Option<&Kind> {
    match &entry.kind {
        None => None,
        Some(measured) => Some(&measured.kind),
    }
}

// The kind of the export of a header that stands at a place, after a period.
fn export_kind<'o>(
    alloc: Global,
    tokens: &Tokens,
    outline: &'o Outline,
    header: u32,
    place: u32,
) -> Result<Option<&'o Kind>, AllocError> {
    if !follows(tokens, place, b".") {
        return Ok(None);
    }
    let name = name_at(alloc, tokens, place)?;
    let Some(standing) = outline.standing(header, &name) else {
        return Ok(None);
    };
    let Some(entry) = outline.entry(standing.place) else {
        return Ok(None);
    };
    Ok(match entry.section {
        Section::Header => kind_of(entry),
        _ => None,
    })
}

// The kind of what selectors choose from after the name at a place: that of a variable, or of the
// export of a module variable.
fn base_of<'o>(
    alloc: Global,
    tokens: &Tokens,
    outline: &'o Outline,
    place: u32,
) -> Result<Option<Base<'o>>, AllocError> {
    let Some(entry) = declared_by(alloc, tokens, outline, place)? else {
        return Ok(None);
    };
    let (kind, last) = match (entry.declared.sort, entry.header) {
        (Sort::Variable, _) => (kind_of(entry), place),
        (Sort::ModuleVariable, Some(header)) => {
            let export = after_subscripts(tokens, place).saturating_add(1);
            let kind = export_kind(alloc, tokens, outline, header, export)?;
            (kind, export)
        },
        _ => (None, place),
    };
    let from = last.saturating_add(1);
    Ok(match kind {
        None => None,
        Some(kind) => Some(Base { kind, from }),
    })
}

// What an array of this kind holds.
fn element(kind: &Kind) -> Option<&Kind> {
    match kind {
        Kind::ArrayOf { of, .. } => Some(of.get()),
        _ => None,
    }
}

// The field of this name that a record of this kind has.
fn field<'k>(kind: &'k Kind, name: &[u8]) -> Option<&'k Kind> {
    let Kind::Fields(fields) = kind else {
        return None;
    };
    for field in fields.get().as_slice() {
        if field.name.bytes.as_slice().eq_ignore_ascii_case(name) {
            return Some(&field.kind);
        }
    }
    None
}

// What is chosen from this kind by the token at a place, before which so many brackets are open.
fn chosen<'k>(tokens: &Tokens, kind: &'k Kind, place: u32, depth: u32) -> Option<&'k Kind> {
    match tokens.token_at(place)?.kind {
        TokenKind::Symbol(Symbol::LeftBracket) if depth == 0 => element(kind),
        TokenKind::Symbol(Symbol::Comma) if depth == 1 => element(kind),
        TokenKind::Identifier if depth == 0 => field(kind, spelled(tokens, place)),
        _ => Some(kind),
    }
}

// How far the selectors lead that stand before a place, and to what.
fn led_by<'k>(tokens: &Tokens, base: Base<'k>, end: u32) -> Base<'k> {
    let mut reached = base;
    let mut kind = base.kind;
    let mut depth: u32 = 0;
    for place in base.from..end {
        let Some(next) = chosen(tokens, kind, place, depth) else {
            return reached;
        };
        kind = next;
        depth = depth_on(tokens, place, depth);
        if depth == 0 && spelled(tokens, place) != b".".as_slice() {
            let from = place.saturating_add(1);
            reached = Base { kind, from };
        }
    }
    reached
}

/// The kind of what the name at a place leads to, with what selects from it before another one.
pub(crate) fn kind_to<'o>(
    alloc: Global,
    tokens: &Tokens,
    outline: &'o Outline,
    place: u32,
    end: u32,
) -> Result<Option<&'o Kind>, AllocError> {
    let Some(base) = base_of(alloc, tokens, outline, place)? else {
        return Ok(None);
    };
    let reached = led_by(tokens, base, end);
    Ok(if reached.from == end {
        Some(reached.kind)
    } else {
        None
    })
}

/// Whether nothing selects from what stands at a place, or all that does leads to something.
pub(crate) fn leads_on(
    alloc: Global,
    tokens: &Tokens,
    outline: &Outline,
    place: u32,
) -> Result<bool, AllocError> {
    let next = spelled(tokens, place.saturating_add(1));
    if !is_name(tokens, place) || next != b".".as_slice() && next != b"[".as_slice() {
        return Ok(true);
    }
    match kind_to(alloc, tokens, outline, place, after_operand(tokens, place))? {
        None => Ok(false),
        Some(_) => Ok(true),
    }
}

/// Adds the tokens from a place up to another one, with blanks around words.
pub(crate) fn append_tokens(
    tokens: &Tokens,
    from: u32,
    end: u32,
    notes: &mut String,
) -> Result<(), AllocError> {
    for place in from..end {
        let (before, after) = match tokens.token_at(place) {
            None => ("", ""),
            Some(token) => match token.kind {
                TokenKind::Reserved(_) => (" ", " "),
                TokenKind::Symbol(Symbol::Comma) => ("", " "),
                _ => ("", ""),
            },
        };
        notes.push_str(before)?;
        append_token(tokens, place, notes)?;
        notes.push_str(after)?;
    }
    Ok(())
}

/// Adds a line on the type of what the name at a place leads to, with as many selectors as fit.
pub(crate) fn append_led_to(
    alloc: Global,
    tokens: &Tokens,
    outline: &Outline,
    place: u32,
    notes: &mut String,
) -> Result<(), AllocError> {
    if !is_name(tokens, place) || follows(tokens, place, b".") {
        return Ok(());
    }
    let Some(base) = base_of(alloc, tokens, outline, place)? else {
        return Ok(());
    };
    let reached = led_by(tokens, base, after_operand(tokens, place));
    if reached.from == place.saturating_add(1) {
        return Ok(());
    }
    begin_line(tokens, Mark::Note, place, notes)?;
    append_tokens(tokens, place, reached.from, notes)?;
    notes.push_str(" is of type ")?;
    append_kind(alloc, tokens, reached.kind, notes)?;
    notes.push_str("\n")
}
