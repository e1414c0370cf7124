//! Whether a message is of the form of its kind.
ghost use Rattle.std.specs.Prelude.{◌≡◌, ◌≢◌, ◌<◌, pos, length, MatchOption};
ghost use Rattle.service_messages.specs.slot_runs.Runs.{IsDepthFirst, AreRunEnds};
ghost use Rattle.frame_service.specs.Forms.{may_go, numbers_of, has_form, first_number};

use crate::frame_imports::{is_announced, is_answer, is_back, is_forth, is_part_told, is_request};
use room_kinds::{ControllerId, Endpoint, Msg, SysKind};
use room_wiring::Wiring;
use service_messages::SlotRuns;

/// Whether a message of a kind may go from this source to that target.
fn may_go(
    wiring: &Wiring,
    runs: &SlotRuns,
    me: ControllerId,
    kind: SysKind,
    source: Endpoint,
    target: Endpoint,
) -> bool
    requires order { IsDepthFirst wiring.now }
    requires runs { AreRunEnds wiring.now runs.now }
    requires me { me.0 < length wiring.now.controllers }
    ensures { result ≡ may_go wiring.now me.0 kind source target }
{
    match kind {
        SysKind::Create | SysKind::Destroy => is_request(wiring, me, source, target),
        SysKind::CreateDone => is_answer(wiring, me, source, target) && source.generation.0 != 0,
        SysKind::DestroyDone => is_answer(wiring, me, source, target),
        SysKind::CreateRefused => {
            is_answer(wiring, me, source, target) && source.generation.0 == 0
        }
        SysKind::Import | SysKind::Deport => is_forth(wiring, me, source, target),
        SysKind::ImportDone | SysKind::ImportRefused | SysKind::ImportEnded | SysKind::DeportDone =>
            is_back(wiring, me, source, target),
        SysKind::Announce => is_announced(wiring, me, source, target),
        SysKind::PartMake | SysKind::PartEnd => is_part_told(wiring, runs, me, source, target),
        SysKind::Register
        | SysKind::Withdraw
        | SysKind::Bound
        | SysKind::Ended
        | SysKind::NameReply => false,
    }
}

/// How many numbers a message of a kind has.
fn numbers_of(kind: SysKind) -> usize
    ensures { result ≡ numbers_of kind }
{
    match kind {
        SysKind::CreateRefused
        | SysKind::DestroyDone
        | SysKind::ImportRefused
        | SysKind::Announce => 1,
        SysKind::Create
        | SysKind::CreateDone
        | SysKind::Destroy
        | SysKind::Import
        | SysKind::ImportDone
        | SysKind::ImportEnded
        | SysKind::Deport
        | SysKind::DeportDone
        | SysKind::Register
        | SysKind::Withdraw
        | SysKind::Bound
        | SysKind::Ended
        | SysKind::NameReply
        | SysKind::PartMake
        | SysKind::PartEnd => 0,
    }
}

/// Whether a message is of the form of its kind.
pub fn has_form(
    wiring: &Wiring,
    runs: &SlotRuns,
    me: ControllerId,
    kind: SysKind,
    numbers: &[i64],
    source: Endpoint,
    target: Endpoint,
) -> bool
    requires order { IsDepthFirst wiring.now }
    requires runs { AreRunEnds wiring.now runs.now }
    requires me { me.0 < length wiring.now.controllers }
    ensures { result ≡ has_form wiring.now me.0 kind numbers.now source target }
{
    numbers.len() == numbers_of(kind) && may_go(wiring, runs, me, kind, source, target)
}

/// The first number of a message; 0 where it has none.
pub fn first_number(m: &Msg) -> i64
    ensures { result ≡ first_number m.now.payload }
{
    match m.payload.numbers() {
        [number, ..] => *number,
        [] => 0,
    }
}

/// A number, if it is one of these two.
pub fn one_of(number: i64, first: u32, second: u32) -> Option<u32>
    ensures { MatchOption result ((number ≢ pos first) × (number ≢ pos second))
        (λ n. number ≡ pos n) }
{
    if number == i64::from(first) {
        Some(first)
    } else if number == i64::from(second) {
        Some(second)
    } else {
        None
    }
}
