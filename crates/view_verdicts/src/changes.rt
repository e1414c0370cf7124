//! What changed from one stamp of journals to another.
ghost use Rattle.inject_reader.specs.Fitting.{LinesFit};

use crate::actor_changes::tell_actors;
use crate::judged::{Judged, Texts};
use crate::moments::{Moment, moments_at};
use crate::waiting_changes::tell_waiting_but;
use room_kinds::{PlaceState, SlotId};
use room_show::{ControllerView, Snapshot};
use room_wiring::Wiring;
use std::alloc::{AllocError, Global};
use view_journals::{put_controller, put_home, put_path};
use view_pages::Page;

/// A number before and after.
fn put_numbers(page: &mut Page, before: u64, after: u64) {
    page.put_number(before);
    page.put(b" -> ");
    page.put_number(after);
}

/// Tells of a controller its clock, if it did anything, and how many turns it has taken, if it took any.
fn tell_controller(
    page: &mut Page,
    wiring: &Wiring,
    number: usize,
    before: &ControllerView,
    after: &ControllerView,
) {
    if before.clock == after.clock {
        return;
    }
    put_controller(page, wiring, number);
    page.put(b": clock ");
    put_numbers(page, before.clock.0, after.clock.0);
    if before.turns != after.turns {
        page.put(b", turns ");
        put_numbers(page, before.turns, after.turns);
    }
    page.end_line();
}

fn tell_controllers(page: &mut Page, wiring: &Wiring, before: &Snapshot, after: &Snapshot) {
    let old = before.controllers.as_slice();
    let new = after.controllers.as_slice();
    for (number, (old, new)) in old.iter().zip(new).enumerate() {
        tell_controller(page, wiring, number, old, new);
    }
}

/// The import places of live containers, by the slots' numbers.
fn places_of(
    alloc: Global,
    wiring: &Wiring,
    snapshot: &Snapshot,
) -> Result<Vec<Option<PlaceState>>, AllocError> {
    let mut places = vec![in alloc; None; wiring.slot_count() as usize]?;
    for controller in snapshot.controllers.as_slice() {
        for place in controller.places.as_slice() {
            let slot = usize::from(place.slot.0);
            if let Some(kept) = places.as_mut_slice().get_mut(slot) {
                *kept = Some(place.state);
            }
        }
    }
    Ok(places)
}

/// What an import place holds, if its container lives.
fn put_place(page: &mut Page, wiring: &Wiring, state: Option<PlaceState>) {
    match state {
        None => page.put(b"not there"),
        Some(PlaceState::Empty) => page.put(b"empty"),
        Some(PlaceState::Asking(home)) => put_home(page, wiring, b"asks for ", home),
        Some(PlaceState::Held(home)) => put_home(page, wiring, b"holds ", home),
        Some(PlaceState::Leaving(home)) => put_home(page, wiring, b"gives back ", home),
    }
}

/// Tells what an import place holds, and held before.
fn tell_place(
    page: &mut Page,
    wiring: &Wiring,
    slot: SlotId,
    before: Option<PlaceState>,
    after: Option<PlaceState>,
) {
    page.put(b"    ");
    if let Some(slot) = wiring.get_slot(slot) {
        put_path(page, &slot.path);
    }
    page.put(b": ");
    put_place(page, wiring, before);
    page.put(b" -> ");
    put_place(page, wiring, after);
    page.end_line();
}

/// What the import place of a slot holds, if there is one.
fn place_at(places: &[Option<PlaceState>], slot: SlotId) -> Option<PlaceState> {
    match places.get(usize::from(slot.0)) {
        Some(place) => *place,
        None => None,
    }
}

/// Tells which import places hold others than before, if any do.
fn tell_places(
    page: &mut Page,
    wiring: &Wiring,
    before: &[Option<PlaceState>],
    after: &[Option<PlaceState>],
) {
    let mut is_first = true;
    for number in 0..wiring.slot_count() {
        let slot = SlotId(number as u16);
        let (old, new) = (place_at(before, slot), place_at(after, slot));
        if old == new {
            continue;
        }
        if is_first {
            page.put_line(b"what imported slots hold:");
            is_first = false;
        }
        tell_place(page, wiring, slot, old, new);
    }
}

/// Tells which messages wait that didn't before, and which did and don't any more.
fn tell_waiting(
    alloc: Global,
    page: &mut Page,
    wiring: &Wiring,
    before: &Moment,
    after: &Moment,
) -> Result<(), AllocError> {
    let old = before.waiting.as_slice();
    let new = after.waiting.as_slice();
    tell_waiting_but(
        alloc,
        page,
        wiring,
        b"messages that wait, and didn't before:",
        new,
        old,
    )?;
    tell_waiting_but(
        alloc,
        page,
        wiring,
        b"messages that waited before, and don't now:",
        old,
        new,
    )
}

/// Tells what changed between two moments of a run, of which the first one was before the second one: what the
/// controllers did, who came, who went, how those changed who stayed, what imported slots hold, and which messages
/// wait.
fn tell_changes(
    alloc: Global,
    page: &mut Page,
    wiring: &Wiring,
    before: &Moment,
    after: &Moment,
) -> Result<(), AllocError> {
    page.put(b"from ");
    page.put_number(before.snapshot.at);
    page.put(b" to ");
    page.put_number(after.snapshot.at);
    page.end_line();
    let told = page.len();
    tell_controllers(page, wiring, &before.snapshot, &after.snapshot);
    tell_actors(alloc, page, wiring, &before.snapshot, &after.snapshot)?;
    let old = places_of(alloc, wiring, &before.snapshot)?;
    let new = places_of(alloc, wiring, &after.snapshot)?;
    tell_places(page, wiring, old.as_slice(), new.as_slice());
    tell_waiting(alloc, page, wiring, before, after)?;
    if page.len() == told {
        page.put_line(b"nothing changed");
    }
    Ok(())
}

/// What changed from one stamp of journals to another, which isn't below it; whether that can be seen: where it can't,
/// it is told why.
pub fn tell_changes_between(
    alloc: Global,
    page: &mut Page,
    judged: Judged<'_>,
    texts: Texts<'_>,
    first: u64,
    second: u64,
) -> Result<bool, AllocError>
    requires fit { LinesFit judged.plant.now.wiring judged.lines.now }
{
    let Some((before, after)) = moments_at(alloc, page, judged, texts, first, second)? else {
        return Ok(false);
    };
    tell_changes(alloc, page, &judged.plant.wiring, &before, &after)?;
    Ok(true)
}
