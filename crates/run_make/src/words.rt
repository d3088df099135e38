//! The words of the generator.
ghost use Rattle.std.specs.Prelude.{◌≡◌};
ghost use Rattle.run_make.specs.Words.{IsDrawn, stream_at, words_of};

use rand_core::Rng;
use rand_pcg::Lcg64Xsh32;

// The generator of a seed, before its first word.
pub(crate) fn generator(seed: u64) -> Lcg64Xsh32
    ensures { stream_at result ≡ words_of seed }
{
    Lcg64Xsh32::new(seed, 0)
}

// Draws the next word.
pub(crate) fn draw(rng: &mut Lcg64Xsh32) -> u32
    ensures { IsDrawn (stream_at rng.old) result (stream_at rng.new) }
{
    rng.next_u32()
}
