//! The bytes of a file.

use call_files::file::File;
use call_files::{ReadError, Shelf, read_whole};
use std::alloc::{AllocError, Global};

/// The bytes of the file of this name, where it can be read and is not too long.
pub(crate) fn text_in<S: Shelf>(
    alloc: Global,
    shelf: &mut S,
    name: &str,
    file: File,
) -> Result<Option<Vec<u8>>, AllocError> {
    match read_whole(alloc, shelf, name, file.limit()) {
        Ok(text) => Ok(Some(text)),
        Err(ReadError::TooLong) => Ok(None),
        Err(ReadError::Failed) => Ok(None),
        Err(ReadError::Memory(error)) => Err(error),
    }
}
