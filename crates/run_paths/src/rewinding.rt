//! The way back to where a search began.
ghost use Rattle.std.specs.Prelude.{◌≡◌, []};
ghost use Rattle.est_syntax.specs.declared.specification.Spec.{Spec};
ghost use Rattle.est_meaning.specs.SituationStacks.{Keeps};
ghost use Rattle.run_paths.specs.Bottoms.{SameBottom};

use est_meaning::world::World;

/// Goes back to where no move was made.
pub fn rewind<W: World>(world: &mut W)
    ensures keeps { Keeps W.speaks W.limit world.old world.new }
    ensures fired { W.fired world.new ≡ W.fired world.old }
    ensures bottom { SameBottom W.speaks W.stack world.old world.new }
    ensures below { (spec : Spec) → W.speaks world.old spec
        → (W.stack world.new spec).below ≡ [] }
{
    let depth = world.depth();
    for step in 0..depth {
        world.back();
    }
}
