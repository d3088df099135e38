//! Interaction points that are one, and instances that are among some.
ghost use Rattle.std.specs.Prelude.{◌≡◌};
ghost use Rattle.mean_blocks.specs.GlobalSituation.{is_point};
ghost use Rattle.mean_blocks.specs.InstanceEffects.{is_among};

use mean_blocks::situation::InteractionPoint;

/// Whether both are one interaction point.
pub fn is_point(one: &InteractionPoint, other: &InteractionPoint) -> bool
    ensures { result ≡ is_point one.now other.now }
{
    one.instance == other.instance
        && one.declared == other.declared
        && one.index.as_slice() == other.index.as_slice()
}

/// Whether an instance is one of these.
pub fn is_among(numbers: &[u32], number: u32) -> bool
    ensures { result ≡ is_among numbers.now number }
{
    numbers.iter().any(|own| number == *own)
}
