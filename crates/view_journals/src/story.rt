//! The story of a run: a line a turn.
use crate::differs::tell_difference;
use crate::filter::Wanted;
use crate::lines::{end_word, put_left, put_mark, put_sends, tell_turn};
use crate::moments::{Dividers, moments_of};
use crate::names::{put_actor, put_controller, put_state};
use crate::notes::{have_trouble, put_notes};
use crate::redone::Redone;
use crate::standing::Actors;
use crate::told::{Start, Told, starts_of};
use crate::turns::{Turn, turns_of};
use journal::{Journals, Left};
use room_wiring::Wiring;
use std::alloc::{AllocError, Global};
use view_pages::Page;

fn tell_start(page: &mut Page, wiring: &Wiring, start: &Start<'_>) {
    put_mark(page, have_trouble(start.notes, start.said));
    page.put(b"start ");
    put_controller(page, wiring, start.controller);
    page.put(b" ");
    put_actor(page, wiring, start.who);
    page.put(b": ");
    put_state(page, wiring, start.who.slot, start.state);
    let slot = Some(start.who.slot);
    put_notes(page, wiring, false, slot, start.notes, start.said);
    put_sends(page, wiring, slot, start.sends);
    page.end_line();
}

/// The starts that are wanted.
fn tell_starts(
    alloc: Global,
    page: &mut Page,
    told: &Told<'_>,
    actors: &mut Actors,
) -> Result<(), AllocError> {
    let starts = starts_of(alloc, told.journals, told.redone)?;
    for start in starts.as_slice() {
        actors.stand(start.who, start.state);
        if told.wants_start(start) {
            tell_start(page, told.wiring, start);
        }
    }
    Ok(())
}

/// The line of a turn, where it is wanted, and before it that of a moment between it and the line before.
fn tell_wanted_turn(
    page: &mut Page,
    told: &Told<'_>,
    actors: &Actors,
    dividers: &mut Dividers<'_>,
    turn: &Turn<'_>,
) {
    dividers.pass(turn.stamp.0);
    if told.wants_turn(turn) {
        dividers.tell(page, told.wiring);
        tell_turn(page, told.wiring, &told.fetched, actors, turn);
    }
}

/// The turns that are wanted, over all controllers, and the moments between them.
fn tell_turns(
    alloc: Global,
    page: &mut Page,
    told: &Told<'_>,
    actors: &mut Actors,
) -> Result<(), AllocError> {
    let turns = turns_of(alloc, told.journals, told.redone)?;
    let moments = moments_of(alloc, told.wiring, told.journals)?;
    let mut dividers = Dividers::of(moments.as_slice());
    for turn in turns.as_slice() {
        tell_wanted_turn(page, told, actors, &mut dividers, turn);
        actors.turn(turn.did, turn.notes);
    }
    Ok(())
}

/// A message that no turn took, where it is wanted.
fn tell_left(page: &mut Page, told: &Told<'_>, left: &Left) {
    if told.wants_left(left) {
        put_mark(page, true);
        put_left(page, told.wiring, left);
        page.end_line();
    }
}

/// What was behind all turns: what no turn took, what was not posted, and how the run ended.
fn tell_rest(page: &mut Page, told: &Told<'_>) {
    if !told.wanted.wants_end() {
        return;
    }
    for left in told.journals.left.as_slice() {
        tell_left(page, told, left);
    }
    if told.wants_unposted() {
        for line in told.journals.unposted.as_slice() {
            page.put(b"! unposted: line ");
            page.put_number(u64::from(*line));
            page.end_line();
        }
    }
    put_mark(page, !told.journals.done);
    page.put_line(end_word(told.journals.done));
}

/// All that is told of a run, as far as it is wanted.
fn tell_lines(alloc: Global, page: &mut Page, told: &Told<'_>) -> Result<(), AllocError> {
    let mut actors = Actors::nobody(alloc, told.wiring)?;
    tell_starts(alloc, page, told, &mut actors)?;
    tell_turns(alloc, page, told, &mut actors)?;
    tell_rest(page, told);
    Ok(())
}

/// Tells the story of a run: first the starts, then a line a turn over all controllers by stamp and controller, then
/// what no turn took, what was not posted, and how the run ended. A line that begins with `!` tells of something
/// that its author hardly meant. That the journals are those of another model is told before all. A moment at which timers
/// expired has a line of its own.
pub fn tell_story(
    alloc: Global,
    page: &mut Page,
    wiring: &Wiring,
    journals: &Journals,
    redone: &Redone,
    wanted: Wanted<'_>,
) -> Result<(), AllocError> {
    tell_difference(page, wiring, redone);
    let told = Told::of(alloc, wiring, journals, redone, wanted)?;
    tell_lines(alloc, page, &told)
}
