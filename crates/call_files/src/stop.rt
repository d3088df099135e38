//! Why a function stops before its work is done.
ghost use Rattle.std.specs.Prelude.{◌≡◌};
ghost use Rattle.call_files.specs.declared.stop.Stop.TheVariants.{OutOfMemory};

use crate::report::Report;
use std::alloc::AllocError;

/// Why a function stops before its work is done.
#[derive(Drop)]
pub enum Stop {
    /// A file is refused: the report that says so.
    Refused(Report),
    /// A file could not be read.
    ReadFault,
    /// Out of memory.
    OutOfMemory,
}

impl From<AllocError> for Stop {
    ghost from_gives = { λ error stop. stop ≡ OutOfMemory };

    fn from(_: AllocError) -> Stop {
        Stop::OutOfMemory
    }
}
