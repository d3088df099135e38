//! What a value that was seen whole says.
ghost use Rattle.est_seen.specs.SeenValues.{KnownMatchesOne};

/// What is seen of a whole value matches no other.
pub fn known_matches_one()
    ensures { KnownMatchesOne }
{}
