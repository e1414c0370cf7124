//! Journals that happen again, entry by entry of their merge.
ghost use Rattle.std.specs.Prelude.{◌≡◌, ◌+◌, length, IfOk};
ghost use Rattle.inject_reader.specs.Fitting.{LinesFit};
ghost use Rattle.room_verify.specs.Merging.{CameTo, HasPassedUpTo, is_up_to};

use crate::heads::{journal_of, next_head};
use crate::replay::Replay;
use controller::Plant;
use inject_reader::inject_lines::Line;
use journal::Journals;
use room_kinds::{ControllerId, Stamp};
use std::alloc::AllocError;

/// What came of the merge of journals.
#[derive(Drop)]
pub enum Outcome {
    /// The first entry that is refused, of this party with this stamp.
    Refused(ControllerId, Stamp),
    /// Each entry has happened, or each up to a stamp, and this is where they lead.
    Reached(Replay),
}

/// Whether a stamp is at most this one; each is where there is none.
fn is_up_to(until: Option<u64>, stamp: u64) -> bool
    ensures { result ≡ is_up_to until stamp }
{
    match until {
        Some(last) => stamp <= last,
        None => true,
    }
}

/// Lets the entries of the merge of journals happen, one after another, where so many entries of each party are
/// passed; where a stamp is given, only those up to it.
pub fn replay_merge(
    mut replay: Replay,
    plant: &Plant,
    lines: &[Line],
    j: &Journals,
    until: Option<u64>,
    mut passed: Vec<usize>,
) -> Result<Outcome, AllocError>
    requires passed { HasPassedUpTo plant.now lines.now j.now until passed.items replay }
    requires count { length j.now.controllers ≡ length plant.now.wiring.controllers }
    requires fit { LinesFit plant.now.wiring lines.now }
    ensures { IfOk result (CameTo plant.now lines.now j.now until) }
{
    let _count = plant.wiring.controller_count();
    for _entry in 0..u64::MAX {
        let Some(head) = next_head(j, passed.as_slice()) else {
            return Ok(Outcome::Reached(replay));
        };
        if !is_up_to(until, head.stamp) {
            return Ok(Outcome::Reached(replay));
        }
        let at = passed[head.party];
        let entry = &journal_of(j, head.party)[at];
        let party = ControllerId(head.party as u8);
        if !replay.step(plant, lines, party, entry)? {
            return Ok(Outcome::Refused(party, Stamp(head.stamp)));
        }
        passed[head.party] = at + 1;
    }
    Err(AllocError)
}
