//! Files in memory.

use crate::counting::Count;

/// A file in memory, with the count of its faults.
#[derive(Drop)]
pub struct MemFile {
    pub(crate) name: String,
    pub(crate) bytes: Vec<u8>,
    pub(crate) faults: Count,
}
