//! What of a report a replay can read.
ghost use Rattle.std.specs.Prelude.{◌↔◌, IsTrue};
ghost use Rattle.est_explanation.specs.CanonicalExplanation.{IsWritable, IsWritableFiring};
ghost use Rattle.est_explanation.specs.CanonicalExplanation.{IsWritableMove};

use est_meaning::firing::Firing;
use est_meaning::run::Move;

// The greatest number of an instance, a transition or a choice that an explanation may have.
const MOST_ORDINAL: u32 = 999_999_999;

// The greatest claim that an explanation may have.
const MOST_CLAIM: u32 = 200_001;

/// Whether the numbers of a firing are those that an explanation may have.
pub(crate) fn is_readable_firing(firing: Firing) -> bool
    ensures { IsTrue result ↔ IsWritableFiring firing }
{
    firing.instance <= MOST_ORDINAL
        && firing.transition <= MOST_ORDINAL
        && firing.choice <= MOST_ORDINAL
}

// Whether the numbers of a move are.
fn is_readable_move(next: &Move) -> bool
    ensures { IsTrue result ↔ IsWritableMove next.now }
{
    match next {
        Move::Take => true,
        Move::Fire(firing) => is_readable_firing(*firing),
    }
}

/// Whether all numbers of an explanation are.
pub(crate) fn is_readable(moves: &[Move], claim: u32) -> bool
    ensures { IsTrue result ↔ IsWritable (record { moves = moves.now; claim = claim }) }
{
    claim <= MOST_CLAIM && moves.iter().all(is_readable_move)
}
