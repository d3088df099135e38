//! The specification of a call, with its text.

use call_files::est_check::Checked;
use call_files::file::File;
use call_files::specification::specification_in;
use call_files::status::Status;
use call_files::{MemShelf, ReadError, Report, Shelf, Stop, read_whole};
use std::alloc::{AllocError, Global};

// How many bytes of a text are handed on at once.
const PIECE: usize = 16384;

// Stops with the report of a specification that is longer than its limit.
fn too_long(alloc: Global) -> Stop {
    match String::from_str(alloc, "specification: too long\n") {
        Ok(text) => Stop::Refused(Report {
            status: Status::TooLong,
            text: text.into_bytes(),
        }),
        Err(_) => Stop::OutOfMemory,
    }
}

/// The bytes of the file of a specification.
pub(crate) fn text_in<S: Shelf>(alloc: Global, shelf: &mut S, name: &str) -> Result<Vec<u8>, Stop> {
    match read_whole(alloc, shelf, name, File::Specification.limit()) {
        Ok(text) => Ok(text),
        Err(ReadError::TooLong) => Err(too_long(alloc)),
        Err(ReadError::Failed) => Err(Stop::ReadFault),
        Err(ReadError::Memory(_)) => Err(Stop::OutOfMemory),
    }
}

// A shelf that holds a text alone, under no name.
fn shelf_of(alloc: Global, text: &[u8]) -> Result<MemShelf, AllocError> {
    let mut shelf = MemShelf::new(alloc, PIECE, &[])?;
    match shelf.add("", text) {
        Ok(()) => Ok(shelf),
        Err(error) => {
            drop(shelf);
            Err(error)
        }
    }
}

/// The specification that a text is.
pub(crate) fn specification_of(alloc: Global, text: &[u8]) -> Result<Checked, Stop> {
    let mut shelf = shelf_of(alloc, text)?;
    let checked = specification_in(alloc, &mut shelf, "");
    drop(shelf);
    checked
}
