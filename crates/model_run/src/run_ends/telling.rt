//! The journals of a run that has ended.
ghost use Rattle.std.specs.Prelude.{◌≡◌, [], true, IfOk};
ghost use Rattle.model_run.specs.part_posts.Items.{items_of};
ghost use Rattle.model_run.specs.part_source.Calls.{seen, seen_in};
ghost use Rattle.model_run.specs.run_ends.Ends.{IsAtEnd};
ghost use Rattle.model_run.specs.run_ends.Runs.{RanThrough};

use crate::part_source::PartSource;
use crate::run_ends::finished::finish_all;
use controller::{Controller, Environment, Plant};
use journal::Journals;
use room_kinds::Sequence;
use std::alloc::{AllocError, Global};

/// The journals of a run that has ended, what was left, and the lines that were not posted: those that are
/// left behind the part at which the source stands. If the run is done, there are none.
pub fn told<S: PartSource>(
    alloc: Global,
    plant: &Plant,
    controllers: Vec<Controller>,
    environment: Environment,
    source: &S,
    fuel: u64,
    done: bool,
) -> Result<Journals, AllocError>
    requires at_end { IsAtEnd plant.now (items_of plant.now.wiring (S.given source.now)) fuel
        controllers.items environment done }
    requires whole { done ≡ true → S.left source.now ≡ [] }
    ensures ran { IfOk result (λ j.
        RanThrough plant.now (S.given source.now) (S.left source.now) fuel j) }
    ensures seen { IfOk result (λ j. seen_in j ≡ seen controllers.items environment) }
{
    let count = plant.wiring.controller_count();
    let finished = finish_all(alloc, count, controllers)?;
    let posts = environment.finish();
    let unposted = source.numbers_left(alloc)?;
    Ok(Journals {
        controllers: Sequence::from(finished.journals),
        environment: posts,
        left: Sequence::from(finished.left),
        unposted: Sequence::from(unposted),
        done,
    })
}
