//! The bytes of a file.
ghost use Rattle.call_files.specs.Seen.{seen, shelved};
ghost use Rattle.call_files.specs.RefusalLines.{too_long_line};
ghost use Rattle.call_files.specs.Reads.{StopsWith, ReadsBytes};

use crate::file::File;
use crate::report::{Report, too_long_report};
use crate::status::Status;
use crate::stop::Stop;
use crate::{ReadError, Shelf, read_whole};
use std::alloc::Global;

/// The bytes of the file of this name, which is read whole.
pub fn read_text<S: Shelf>(
    alloc: Global,
    shelf: &mut S,
    name: &str,
    file: File,
) -> Result<Vec<u8>, Stop>
    ensures { ReadsBytes file name.now (seen
        (shelved (S.told shelf.old) (S.faults shelf.old) (S.started shelf.old) (S.taken shelf.old))
        (shelved (S.told shelf.new) (S.faults shelf.new) (S.started shelf.new) (S.taken shelf.new)))
        result }
{
    match read_whole(alloc, shelf, name, file.limit()) {
        Ok(text) => Ok(text),
        Err(ReadError::TooLong) => Err(too_long(alloc, file)),
        Err(ReadError::Failed) => Err(Stop::ReadFault),
        Err(ReadError::Memory(_)) => Err(Stop::OutOfMemory),
    }
}

/// Stops with the report of a file that is longer than its limit.
pub fn too_long(alloc: Global, file: File) -> Stop
    ensures { StopsWith Status.TooLong (too_long_line file) result }
{
    match too_long_report(alloc, file) {
        Ok(text) => Stop::Refused(Report {
            status: Status::TooLong,
            text: text.into_bytes(),
        }),
        Err(_) => Stop::OutOfMemory,
    }
}
