//! Ports at which no transition takes what comes.

use crate::unused::{mark, meant_by};
use crate::warning::{Slip, Warning};
use advice_lines::started::{count_in, header_of};
use est_lexer::kind::{ReservedWord, TokenKind};
use est_lexer::tokens::Tokens;
use est_syntax::channel::Role;
use est_syntax::specification::Spec;
use indexmap::IndexMap;
use rule_scope::declaration::{Member, Senders, Side, Sort};
use rule_scope::outline::Outline;
use std::alloc::{AllocError, Global};

const NOBODY: Senders = Senders {
    first: false,
    second: false,
};

// Who sends anything in the channels that were looked at, by the places of their names.
type Known = IndexMap<u32, Senders>;

// The word before a place, if one stands there.
fn word_before(tokens: &Tokens, place: u32) -> Option<ReservedWord> {
    match tokens.token_at(place.checked_sub(1)?)?.kind {
        TokenKind::Reserved(word) => Some(word),
        _ => None,
    }
}

// Whether an interaction point that a name after this word means may have readers.
fn is_before_readers(word: ReservedWord) -> bool {
    match word {
        ReservedWord::When => true,
        ReservedWord::Attach => true,
        ReservedWord::Connect => true,
        ReservedWord::To => true,
        _ => false,
    }
}

// Whether what the name at a place means is awaited there, or linked.
fn is_read(tokens: &Tokens, place: u32) -> bool {
    match word_before(tokens, place) {
        None => false,
        Some(word) => is_before_readers(word),
    }
}

// For each place, whether what is declared there is awaited or linked somewhere.
fn reads(alloc: Global, tokens: &Tokens, outline: &Outline) -> Result<Vec<bool>, AllocError> {
    let mut read = vec![in alloc; false; tokens.count() as usize]?;
    for place in 0..tokens.count() {
        if is_read(tokens, place) {
            let declared = meant_by(alloc, tokens, outline, place)?;
            mark(&mut read, declared);
        }
    }
    Ok(read)
}

// Whether a role of a channel is sent something where these send.
fn is_sent_to(role: Role, senders: Senders) -> bool {
    match role {
        Role::First => senders.second,
        Role::Second => senders.first,
    }
}

// Who sends what a channel has at a place.
fn senders_at(outline: &Outline, place: u32) -> Senders {
    match outline.member(place) {
        Some(Member::Interaction(senders)) => senders,
        _ => NOBODY,
    }
}

// Who sends anything in a channel.
fn senders_in(outline: &Outline, channel: u32) -> Senders {
    let mut all = NOBODY;
    for number in 0..count_in(outline, channel) {
        let place = outline.nth(channel, number).unwrap_or(0);
        let senders = senders_at(outline, place);
        all = Senders {
            first: all.first || senders.first,
            second: all.second || senders.second,
        };
    }
    all
}

// Whether something may come at this side of a channel. Each channel is looked at once.
fn receives(outline: &Outline, side: Side, known: &mut Known) -> Result<bool, AllocError> {
    if let Some(senders) = known.get(&side.channel) {
        return Ok(is_sent_to(side.role, *senders));
    }
    let senders = senders_in(outline, side.channel);
    known.insert(side.channel, senders)?;
    Ok(is_sent_to(side.role, senders))
}

// Whether an interaction point is declared at a place, at which something may come.
fn is_receiver(outline: &Outline, place: u32, known: &mut Known) -> Result<bool, AllocError> {
    let Some(entry) = outline.entry(place) else {
        return Ok(false);
    };
    match (entry.declared.sort, entry.side) {
        (Sort::Point, Some(side)) => receives(outline, side, known),
        _ => Ok(false),
    }
}

// Adds the interaction points of a header at which something may come and that are not read.
fn push_receivers(
    alloc: Global,
    outline: &Outline,
    header: u32,
    read: &[bool],
    found: &mut Vec<Warning>,
) -> Result<(), AllocError> {
    let mut known = IndexMap::new(alloc);
    for number in 0..count_in(outline, header) {
        let place = outline.nth(header, number).unwrap_or(0);
        let has_readers = read.get(place as usize).copied().unwrap_or(true);
        if !has_readers && is_receiver(outline, place, &mut known)? {
            found.push(Warning {
                place,
                slip: Slip::NotRead,
            })?;
        }
    }
    Ok(())
}

/// Adds the ports at which something may come that no transition takes: no `when` names them, and
/// no link.
pub(crate) fn push_unread(
    alloc: Global,
    tokens: &Tokens,
    outline: &Outline,
    spec: &Spec,
    found: &mut Vec<Warning>,
) -> Result<(), AllocError> {
    let Some(header) = header_of(outline, spec) else {
        return Ok(());
    };
    let read = reads(alloc, tokens, outline)?;
    push_receivers(alloc, outline, header, &read, found)
}
