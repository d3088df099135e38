//! The call of advice.

use crate::specification::append_specification;
use crate::words::{Asked, asked_of};
use call_files::status::Status;
use call_files::{Shelf, Sink, write_whole};
use std::alloc::{AllocError, Global};

/// Does what the words ask for: reads files as the other commands do, and writes what is known of
/// the first text that is refused (`advise`), or what a good specification is warned of (`warn`).
/// Where there is nothing to say, and of a file that cannot be read, it writes nothing.
pub fn advise<S: Shelf, K: Sink>(
    alloc: Global,
    words: &[String],
    shelf: &mut S,
    sink: &mut K,
) -> Status {
    match asked_of(alloc, words) {
        Ok(Some(asked)) => match notes_of(alloc, shelf, asked) {
            Ok(notes) => deliver(&notes, sink),
            Err(_) => Status::OutOfMemory,
        },
        Ok(None) => Status::Usage,
        Err(_) => Status::OutOfMemory,
    }
}

// The notes that are asked for.
fn notes_of<S: Shelf>(
    alloc: Global,
    shelf: &mut S,
    asked: Asked<'_>,
) -> Result<String, AllocError> {
    let mut notes = String::new(alloc);
    append_specification(alloc, shelf, asked, &mut notes)?;
    Ok(notes)
}

// Writes notes.
fn deliver<K: Sink>(notes: &str, sink: &mut K) -> Status {
    match write_whole(sink, notes.as_bytes()) {
        Ok(()) => Status::Fine,
        Err(_) => Status::WriteFault,
    }
}
