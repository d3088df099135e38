//! Why an evaluation stops.

use crate::fault::BlockFault;
use std::alloc::AllocError;

/// Why an evaluation gives nothing: a fault; the limit on statements or on levels of calls; or
/// want of memory.
#[derive(Drop)]
pub enum Stop {
    Fault(BlockFault),
    Limit,
    Memory(AllocError),
}

impl From<AllocError> for Stop {
    ghost use Rattle.std.specs.Prelude.{◌≡◌};
    ghost use Rattle.mean_blocks.specs.declared.stop.Stop.TheVariants.{Memory};

    ghost from_gives = { λ error stop. stop ≡ Memory error };

    fn from(error: AllocError) -> Stop {
        Stop::Memory(error)
    }
}

impl From<BlockFault> for Stop {
    ghost use Rattle.std.specs.Prelude.{◌≡◌};
    ghost use Rattle.mean_blocks.specs.declared.stop.Stop.TheVariants.{Fault};

    ghost from_gives = { λ fault stop. stop ≡ Fault fault };

    fn from(fault: BlockFault) -> Stop {
        Stop::Fault(fault)
    }
}
