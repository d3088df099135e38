//! What holds of all tuples of ordinals.
ghost use Rattle.est_values.specs.OrdinalTuples.{TuplesFollow};

/// In the list of the tuples of some kinds each one is followed by its next one.
#[tactic(auto, using(crate::proofs::TuplesInOrder::tuples_follow))]
pub fn tuples_are_in_order()
    ensures { TuplesFollow }
{}
