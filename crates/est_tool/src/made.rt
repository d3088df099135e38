//! Traces that checked specifications make of themselves.
ghost use Rattle.std.specs.Prelude.{IfOk};
ghost use Rattle.run_make.specs.Recipe.{task_of, IsMade, IsMadeExplained};

use call_files::est_check::Checked;
use est_meaning::answers::Started;
use est_meaning::run::Limits;
use est_replay::PlainWorld;
use run_make::made::Made;
use run_make::making::{Asked, make_in};
use std::alloc::{AllocError, Global};

/// Makes a trace of a specification from a seed, until it has so many events, and the run that
/// explains it. Nothing else can be made of these (`laws::one_is_made`). Errs where memory runs
/// out.
pub fn make(
    alloc: Global,
    checked: &Checked,
    seed: u64,
    count: u32,
    limits: &Limits,
) -> Result<Made, AllocError>
    ensures made { IfOk result (λ made.
        IsMade (task_of limits.now.statements limits.now.silent checked.now) seed count made) }
    ensures explained { IfOk result (λ made.
        IsMadeExplained (task_of limits.now.statements limits.now.silent checked.now) made) }
{
    let started = PlainWorld::start(alloc, checked, limits.statements)?;
    match started {
        Started::Fault(fault) => Ok(Made::NoStart(fault)),
        Started::Limit => Ok(Made::StartLimit),
        Started::Ready { world, outs } => {
            let mut world = world;
            make_in(
                alloc,
                &mut world,
                outs,
                checked.ports(),
                &Asked {
                    seed,
                    count,
                    silent: limits.silent,
                },
            )
        }
    }
}
