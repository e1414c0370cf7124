//! The system at a stamp of journals.
ghost use Rattle.std.specs.Prelude.{◌≡◌, length, IfOk};
ghost use Rattle.inject_reader.specs.Fitting.{LinesFit};
ghost use Rattle.room_verify.specs.Showing.{CameToSee};

use crate::checks::{first_out_of_order, first_wrong_start};
use crate::judging::starts_passed;
use crate::merging::{Outcome, replay_merge};
use crate::replay::Replay;
use crate::verdict::Verdict;
use controller::Plant;
use inject_reader::inject_lines::Line;
use journal::Journals;
use room_show::Snapshot;
use std::alloc::{AllocError, Global};

/// What came of a look at journals at a stamp.
#[derive(Drop)]
pub enum Seen {
    /// The system after all that happened up to the stamp.
    Shown(Snapshot),
    /// The journals' stamps don't rise, they begin with a wrong start, or an entry up to the stamp can't happen.
    Unlawful(Verdict),
}

/// The system after all that happened by journals up to a stamp: each entry up to it happens again, one after another
/// by the merge of the journals. That their stamps rise and that they begin with their starts is asked of the whole
/// journals; nothing else is asked of entries behind the stamp. There is a journal for each controller, and the lines
/// name what the wiring has.
pub fn show(
    alloc: Global,
    plant: &Plant,
    lines: &[Line],
    j: &Journals,
    at: u64,
) -> Result<Seen, AllocError>
    requires count { length j.now.controllers ≡ length plant.now.wiring.controllers }
    requires fit { LinesFit plant.now.wiring lines.now }
    ensures { IfOk result (CameToSee plant.now lines.now j.now at) }
{
    let _count = plant.wiring.controller_count();
    if let Some(party) = first_out_of_order(j) {
        return Ok(Seen::Unlawful(Verdict::Order(party)));
    }
    let begun = Replay::start(alloc, plant)?;
    let starts = begun.entries.as_slice();
    if let Some(c) = first_wrong_start(j, starts) {
        return Ok(Seen::Unlawful(Verdict::Start(c)));
    }
    let passed = starts_passed(alloc, starts)?;
    let outcome = replay_merge(begun.replay, plant, lines, j, Some(at), passed)?;
    match outcome {
        Outcome::Refused(party, stamp) => Ok(Seen::Unlawful(Verdict::Entry(party, stamp))),
        Outcome::Reached(replay) => {
            let snapshot = replay.view(alloc, plant, at)?;
            Ok(Seen::Shown(snapshot))
        }
    }
}
