//! What comes after a round.
ghost use Rattle.std.specs.Prelude.{◌≡◌, ◌+◌, ◌<◌, true, map, length, IfOk, OnOk, IfSome, IfNone};
ghost use Rattle.std.specs.List.{list_all};
ghost use Rattle.model_run.specs.part_posts.Items.{items_of};
ghost use Rattle.model_run.specs.part_source.Calls.{seen, StoodQuiet, Asks};
ghost use Rattle.model_run.specs.run_loop.Plays.{InPart, rests};
ghost use Rattle.model_run.specs.run_loop.Runs.{StandsBetween, IsInRound, IsOver, StandsAtPart, StaysAtPart, RoundBegins};

use crate::part_source::PartSource;
use crate::run_loop::rests::{have_stopped, someone_waits};
use crate::run_loop::rounds::{begin_part, open};
use crate::run_loop::state::Run;
use controller::Plant;
use mail_core::Mail;
use std::alloc::{AllocError, Global};

/// After a part at whose end all controllers are at rest: goes to the next one, if no message waits and the
/// source has a part more. It answers whether there is a next part; if not, the run is over.
fn next_part<S: PartSource>(
    alloc: Global,
    plant: &Plant,
    run: &mut Run,
    source: &mut S,
    fuel: u64,
) -> Result<bool, AllocError>
    requires within { InPart plant.now (items_of plant.now.wiring (S.given source.old)) fuel
        run.old.controllers.items run.old.environment }
    requires stopped { list_all (rests fuel) run.old.controllers.items ≡ true }
    ensures stands { IfOk result (λ more.
        StandsAtPart plant.now (S.given source.new) (S.stands_at source.new) (S.left source.new)
        fuel run.new more) }
    ensures fits { OnOk result (S.fits plant.now.wiring source.old
        → S.fits plant.now.wiring source.new) }
    ensures some { IfOk result (λ more. more ≡ true → 0 < length (S.stands_at source.new)) }
    ensures stays { OnOk result (StaysAtPart run.old run.new) }
    ensures asks { IfOk result (λ more.
        Asks S.goes_on (λ s journals. StoodQuiet plant.now (S.given s) fuel journals)
        source.old source.new (seen run.old.controllers.items run.old.environment)
        (seen run.new.controllers.items run.new.environment)) }
{
    if someone_waits(&run.controllers) {
        return Ok(false);
    }
    let more = source.next_part(alloc, run.controllers.as_slice(), &run.environment)?;
    if !more {
        return Ok(false);
    }
    run.environment.catch_up(run.controllers.as_slice());
    Ok(true)
}

/// Begins the next round of a run: the office and the ends of its mail, the environment's end last, at which
/// the lines of a part were posted if a part begins. None where the run is over.
pub(crate) fn next_round<M: Mail + Drop, S: PartSource>(
    alloc: Global,
    plant: &Plant,
    run: &mut Run,
    source: &mut S,
    fuel: u64,
) -> Result<Option<(M::Office, Vec<M>)>, AllocError>
where
    M::Office: Drop,
    requires stands { StandsBetween plant.now (S.given source.old) (S.stands_at source.old) fuel
        run.old }
    requires fits { S.fits plant.now.wiring source.old }
    ensures begun { IfOk result (λ next.
        IfSome next (λ made.
        IsInRound plant.now (items_of plant.now.wiring (S.given source.new)) fuel run.new
        (map M.log made.1.items))) }
    ensures count { IfOk result (λ next.
        IfSome next (λ made. length made.1.items ≡ length plant.now.wiring.controllers + 1)) }
    ensures tied { IfOk result (λ next. IfSome next (λ made. M.tied made.0 made.1.items)) }
    ensures begins { IfOk result (λ next. IfSome next (λ made. RoundBegins fuel run.old run.new)) }
    ensures over { IfOk result (λ next.
        IfNone next (IsOver plant.now (S.given source.new) (S.left source.new) fuel run.new)) }
    ensures fits { OnOk result (S.fits plant.now.wiring source.new) }
    ensures asks { IfOk result (λ next.
        Asks S.goes_on (λ s journals. StoodQuiet plant.now (S.given s) fuel journals)
        source.old source.new (seen run.old.controllers.items run.old.environment)
        (seen run.new.controllers.items run.new.environment)) }
{
    if run.in_part {
        if !have_stopped(&run.controllers, fuel) {
            return Ok(Some(open::<M>(alloc, plant)?));
        }
        let more = next_part(alloc, plant, run, source, fuel)?;
        if !more {
            return Ok(None);
        }
    }
    Ok(Some(begin_part::<M, S>(alloc, plant, run, source, fuel)?))
}
