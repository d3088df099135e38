//! What a replay answers.

use est_meaning::mean_blocks::fault::BlockFault;

/// Why an explanation is rejected.
#[derive(Clone, Copy, PartialEq, Eq)]
pub enum Why {
    /// The specification's initialize part faults.
    NoStart(BlockFault),
    /// A block or a guard passes the limit of statements.
    Limit,
    /// An outside event differs from the next event of the trace, or comes after its end.
    WrongOutput,
    /// No event is left that can be taken.
    NoEvent,
    /// The firing is not possible.
    NotOffered,
    /// The block of the firing faults.
    Fault(BlockFault),
    /// Too many silent firings stand in a row.
    TooSilent,
    /// The moves do not yield the claim.
    NotAll,
}

/// What came of a replay.
#[derive(Clone, Copy, PartialEq, Eq)]
pub enum Replayed {
    /// The moves yield the claim.
    Confirmed { events: u32 },
    /// The first check that fails: at the start with 0, at a move with its number from 1, at the
    /// end with one more than there are moves.
    Rejected { at: u32, why: Why },
}
