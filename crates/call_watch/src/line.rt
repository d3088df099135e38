//! What a line says.
ghost use Rattle.std.specs.Prelude.{◌≡◌, ◌-◌, ◌≤◌, IfOk, length};
ghost use Rattle.est_lexer.specs.Offsets.{offset_at, text_of, tokens_of};
ghost use Rattle.est_lexer.specs.Lines.{column_at};
ghost use Rattle.est_lexer.specs.TokenList.{IsTokenList};
ghost use Rattle.est_syntax.specs.declared.specification.Spec.{Spec};
ghost use Rattle.est_meaning.specs.AllowedEvents.{most_events};
ghost use Rattle.est_meaning.specs.rule_declares.PortList.{ports_of};
ghost use Rattle.est_trace.specs.LineReaders.{IsLineReader};
ghost use Rattle.call_files.specs.Files.{limit_of};
ghost use Rattle.call_watch.specs.Lines.{judged, room_after, tokens_before};
ghost use Rattle.call_watch.specs.inside.Work.{AreFewAllowed, IsFound, IsRefusedAt};

use crate::recording::Recording;
use call_files::file::File;
use est_lexer::lex::lex;
use est_lexer::tokens::Tokens;
use est_meaning::event::Events;
use est_trace::error::TraceError;
use std::alloc::{AllocError, Global};

// The most events that a trace may have.
const MOST_EVENTS: u32 = 200_000;

/// What a line says that has tokens and is not `end`: its events, or where it is refused and why.
#[derive(Drop)]
pub enum Found {
    Events(Events),
    Refused { column: u32, why: &'static str },
}

/// What the next line of a recording says, which has these tokens of its own, and is not `end`.
pub fn read_line<W>(
    recording: &mut Recording<'_, W>,
    bytes: &[u8],
    own: &Tokens<'_>,
) -> Result<Found, AllocError>
    ghost spec: { Spec }
    requires reader { IsLineReader spec recording.old.reader }
    requires few { recording.old.given ≤ most_events }
    requires short { length bytes.now ≤ limit_of File.Trace }
    requires text { text_of own.now ≡ bytes.now }
    requires own { IsTokenList bytes.now (tokens_of own.now) }
    ensures others { recording.new ≡ record recording.old { reader = recording.new.reader } }
    ensures reader { IsLineReader spec recording.new.reader }
    ensures found { IfOk result (IsFound (ports_of spec) (room_after recording.old.given)
        recording.old.is_first bytes.now) }
    ensures allowed { IfOk result (AreFewAllowed spec (room_after recording.old.given)) }
{
    let first = recording.is_first;
    let most = MOST_EVENTS - recording.given;
    let text = judged(recording.alloc, bytes, first)?;
    let tokens = lex(recording.alloc, text.as_slice())?;
    match recording.reader.read(&tokens, most) {
        Ok(events) => Ok(Found::Events(events)),
        Err(TraceError::BadToken { place }) => Ok(refused(own, first, place, "bad token")),
        Err(TraceError::TooMany { place }) => Ok(refused(own, first, place, "too many events")),
        Err(TraceError::Memory(error)) => Err(error),
    }
}

// The text as which a line is judged.
fn judged(alloc: Global, line: &[u8], first: bool) -> Result<Vec<u8>, AllocError>
    ensures { IfOk result (λ text. text.items ≡ judged first line.now) }
{
    let mut text = Vec::new(alloc);
    if !first {
        text.extend_from_slice(b"trace 1\n")?;
    }
    text.extend_from_slice(line)?;
    text.extend_from_slice(b"\nend")?;
    Ok(text)
}

// The refusal of a line at a token of the text as which it is judged.
fn refused(own: &Tokens<'_>, first: bool, place: u32, why: &'static str) -> Found
    ensures { IsRefusedAt (column_at (text_of own.now)
        (offset_at (tokens_of own.now) (place - tokens_before first))) why.entry.now result }
{
    let before = if first { 0 } else { 2 };
    let place = place.saturating_sub(before).min(own.count());
    let (_, column) = own.line_column(place);
    Found::Refused { column, why }
}
