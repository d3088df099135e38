//! In what names are looked up that are no names of a region around.

use crate::heads::{head_before, slot_in_part};
use crate::led_to::{declared_by, kind_to};
use crate::selected::{after_subscripts, first_before, follows};
use crate::signals::{direction_at, passes};
use advice_lines::lines::spelled;
use advice_lines::near::name_at;
use advice_lines::slots::Slot;
use est_lexer::tokens::Tokens;
use est_syntax::kind::Kind;
use est_syntax::ports::Direction;
use rule_scope::declaration::{Entry, Meant, Member, Section, Side, Sort};
use rule_scope::outline::Outline;
use std::alloc::{AllocError, Global};

/// In what a name is looked up.
#[derive(Clone, Copy)]
pub(crate) enum Owner<'o> {
    /// The roles of a channel.
    Roles(u32),
    /// The interactions that pass the side of a point this way.
    Signals {
        point: u32,
        direction: Direction,
        side: Side,
    },
    /// The exported variables of a header.
    Exports(u32),
    /// The interaction points of a header.
    Points(u32),
    /// The fields of a record.
    Fields(&'o Kind),
}

/// The region of an owner that has one.
pub(crate) fn region_of(owner: Owner<'_>) -> Option<u32> {
    match owner {
        Owner::Roles(channel) => Some(channel),
        Owner::Signals { side, .. } => Some(side.channel),
        Owner::Exports(header) => Some(header),
        Owner::Points(header) => Some(header),
        Owner::Fields(_) => None,
    }
}

// Whether a role stands at a place.
fn is_role(outline: &Outline, place: u32) -> bool {
    match outline.member(place) {
        Some(Member::Role(_)) => true,
        _ => false,
    }
}

// Whether an exported variable stands at a place.
fn is_export(outline: &Outline, place: u32) -> bool {
    let Some(entry) = outline.entry(place) else {
        return false;
    };
    match entry.section {
        Section::Header => entry.declared.sort == Sort::Variable,
        _ => false,
    }
}

/// Whether a name of the owner's region, which stands at a place, can be meant.
pub(crate) fn can_be_meant(outline: &Outline, owner: Owner<'_>, place: u32) -> bool {
    match owner {
        Owner::Roles(_) => is_role(outline, place),
        Owner::Signals {
            direction,
            side,
            ..
        } => passes(outline, direction, side, place),
        Owner::Exports(_) => is_export(outline, place),
        Owner::Points(_) => outline.is_sort(Sort::Point, place),
        Owner::Fields(_) => false,
    }
}

// The place of the channel that the name at a place means, if it means one.
fn channel_by(
    alloc: Global,
    tokens: &Tokens,
    outline: &Outline,
    place: u32,
) -> Result<Option<u32>, AllocError> {
    let name = name_at(alloc, tokens, place)?;
    Ok(match outline.meant(&name, place) {
        Meant::Seen(declared) if outline.is_sort(Sort::Channel, declared) => Some(declared),
        _ => None,
    })
}

// The place of the channel whose text a place lies in.
fn channel_around(tokens: &Tokens, outline: &Outline, place: u32) -> Option<u32> {
    for distance in 1..place {
        let declared = place - distance;
        if follows(tokens, declared, b"channel") {
            let is_channel = outline.is_sort(Sort::Channel, declared);
            return if is_channel { Some(declared) } else { None };
        }
    }
    None
}

// The place of the channel of which a role stands at a place, if one does.
fn role_channel(
    alloc: Global,
    tokens: &Tokens,
    outline: &Outline,
    place: u32,
) -> Result<Option<u32>, AllocError> {
    let head = head_before(tokens, place);
    if spelled(tokens, head).eq_ignore_ascii_case(b"by") {
        return Ok(channel_around(tokens, outline, head));
    }
    if spelled(tokens, head) == b"(".as_slice() && slot_in_part(tokens, head) == Slot::Channel {
        return channel_by(alloc, tokens, outline, head.saturating_sub(1));
    }
    Ok(None)
}

// Whether an end of a link begins at a place.
fn is_end(tokens: &Tokens, place: u32) -> bool {
    let head = head_before(tokens, place);
    let word = spelled(tokens, head);
    word.eq_ignore_ascii_case(b"connect")
        || word.eq_ignore_ascii_case(b"disconnect")
        || word.eq_ignore_ascii_case(b"detach")
        || word.eq_ignore_ascii_case(b"to") && !follows_assign(tokens, head)
}

// Whether the word `to` at a place is one of a `for`.
fn follows_assign(tokens: &Tokens, word: u32) -> bool {
    spelled(tokens, head_before(tokens, word)) == b":=".as_slice()
}

// The fields of a record of this kind.
fn fields_of(kind: &Kind) -> Option<Owner<'_>> {
    match kind {
        Kind::Fields(_) => Some(Owner::Fields(kind)),
        _ => None,
    }
}

// The record of what stands before the period before a place, from a name on.
fn record_owner<'o>(
    alloc: Global,
    tokens: &Tokens,
    outline: &'o Outline,
    first: u32,
    place: u32,
) -> Result<Option<Owner<'o>>, AllocError> {
    let end = place.saturating_sub(1);
    Ok(match kind_to(alloc, tokens, outline, first, end)? {
        None => None,
        Some(kind) => fields_of(kind),
    })
}

// In what the name is looked up that stands after a period after the name at a place, which is
// declared so.
fn owner_after<'o>(tokens: &Tokens, entry: &'o Entry, place: u32) -> Option<Owner<'o>> {
    match (entry.declared.sort, entry.side, entry.header) {
        (Sort::Point, Some(side), _) => Some(Owner::Signals {
            point: place,
            direction: direction_at(tokens, place),
            side,
        }),
        (Sort::ModuleVariable, _, Some(header)) => Some(if is_end(tokens, place) {
            Owner::Points(header)
        } else {
            Owner::Exports(header)
        }),
        _ => None,
    }
}

// In what the name after the period before a place is looked up.
fn selected_owner<'o>(
    alloc: Global,
    tokens: &Tokens,
    outline: &'o Outline,
    place: u32,
) -> Result<Option<Owner<'o>>, AllocError> {
    let Some(first) = first_before(tokens, place.saturating_sub(1)) else {
        return Ok(None);
    };
    let Some(entry) = declared_by(alloc, tokens, outline, first)? else {
        return Ok(None);
    };
    if after_subscripts(tokens, first).saturating_add(1) == place {
        if let Some(owner) = owner_after(tokens, entry, first) {
            return Ok(Some(owner));
        }
    }
    record_owner(alloc, tokens, outline, first, place)
}

/// In what the name at a place is looked up, where that is no region around and is known.
pub(crate) fn owner_at<'o>(
    alloc: Global,
    tokens: &Tokens,
    outline: &'o Outline,
    place: u32,
) -> Result<Option<Owner<'o>>, AllocError> {
    if follows(tokens, place, b".") {
        return selected_owner(alloc, tokens, outline, place);
    }
    Ok(match role_channel(alloc, tokens, outline, place)? {
        None => None,
        Some(channel) => Some(Owner::Roles(channel)),
    })
}
