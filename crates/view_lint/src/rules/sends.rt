//! Sends at places that are joined to nothing.
use crate::finding::{Finding, Kind};
use crate::listing::{Listing, decimal};
use crate::model::{Class, LintedModel};
use crate::places::{has_joined, is_joined, is_outlet};
use room_kinds::SlotId;
use std::alloc::AllocError;
use view_charts::{Index, Send};
use view_journals::place_count;

/// A port of a class, by its number and its name.
#[derive(Clone, Copy)]
struct At<'a> {
    port: usize,
    name: &'a [u8],
}

/// Adds a place of a port of a slot.
fn add_place(
    model: &LintedModel<'_>,
    slot: SlotId,
    port: &[u8],
    place: u64,
    places: &mut Listing,
) -> Result<(), AllocError> {
    let number = decimal(model.source.alloc, place)?;
    places.add_at(
        model.path(slot),
        &[b".", port, b"[", number.as_slice(), b"]"],
    )
}

/// Adds the places of a port of a slot that are joined to nothing; the port where it has no place.
fn add_places(
    model: &LintedModel<'_>,
    slot: SlotId,
    at: At<'_>,
    places: &mut Listing,
) -> Result<(), AllocError> {
    let count = place_count(model.wiring, slot, at.port);
    if count == 0 {
        return places.add_at(model.path(slot), &[b".", at.name]);
    }
    for place in 0..count {
        if !is_joined(model.wiring, slot, at.port, place) {
            add_place(model, slot, at.name, u64::from(place), places)?;
        }
    }
    Ok(())
}

/// Whether a place of this number of a port of a slot is joined.
fn is_joined_at(model: &LintedModel<'_>, slot: SlotId, port: usize, place: u64) -> bool {
    match u32::try_from(place) {
        Ok(place) => is_joined(model.wiring, slot, port, place),
        Err(_) => false,
    }
}

/// Adds a place of this number of a port of a slot, if it isn't joined.
fn add_numbered(
    model: &LintedModel<'_>,
    slot: SlotId,
    at: At<'_>,
    place: u64,
    places: &mut Listing,
) -> Result<(), AllocError> {
    if is_joined_at(model, slot, at.port, place) {
        return Ok(());
    }
    add_place(model, slot, at.name, place, places)
}

/// Adds a port of a slot, if none of its places is joined.
fn add_unjoined(
    model: &LintedModel<'_>,
    slot: SlotId,
    at: At<'_>,
    places: &mut Listing,
) -> Result<(), AllocError> {
    if has_joined(model.wiring, slot, at.port) {
        return Ok(());
    }
    places.add_at(model.path(slot), &[b".", at.name])
}

/// Whether a port of a slot has places to which an index leads.
fn has_places(model: &LintedModel<'_>, slot: SlotId, port: usize, index: Index) -> bool {
    let count = place_count(model.wiring, slot, port);
    match index {
        Index::Place(place) => place < u64::from(count),
        Index::All | Index::Computed => count > 0,
    }
}

/// Adds the places of a slot at which a send with an index gets to nobody. What leads out of the model is meant.
fn add_slot(
    model: &LintedModel<'_>,
    slot: SlotId,
    at: At<'_>,
    index: Index,
    places: &mut Listing,
) -> Result<(), AllocError> {
    if is_outlet(model.wiring, slot, at.port) && has_places(model, slot, at.port, index) {
        return Ok(());
    }
    match index {
        Index::All => add_places(model, slot, at, places),
        Index::Place(place) => add_numbered(model, slot, at, place, places),
        Index::Computed => add_unjoined(model, slot, at, places),
    }
}

/// The places of slots at which a send with an index gets to nobody.
fn unjoined(
    model: &LintedModel<'_>,
    slots: &[SlotId],
    at: At<'_>,
    index: Index,
) -> Result<Listing, AllocError> {
    let mut places = Listing::new(model.source.alloc);
    for slot in slots {
        add_slot(model, *slot, at, index, &mut places)?;
    }
    Ok(places)
}

/// Adds a finding, if a send of a class gets to nobody at a slot of it.
fn add_send(
    model: &LintedModel<'_>,
    class: &Class<'_>,
    send: &Send,
    findings: &mut Vec<Finding>,
) -> Result<(), AllocError> {
    let name = send.port.as_slice();
    let Some(port) = class.port(name) else {
        return Ok(());
    };
    if model.may_meet_later(class, port, name) {
        return Ok(());
    }
    let at = At { port, name };
    let places = unjoined(model, class.slots.as_slice(), at, send.index)?;
    if places.is_empty() {
        return Ok(());
    }
    Ok(findings.push(Finding {
        kind: Kind::UnjoinedSend,
        start: send.start,
        end: send.end,
        detail: places.told()?,
    })?)
}

/// Adds a finding for each port and index at which a class sends and, at a slot of it, gets to nobody.
pub(crate) fn add_unjoined_sends(
    model: &LintedModel<'_>,
    class: &Class<'_>,
    findings: &mut Vec<Finding>,
) -> Result<(), AllocError> {
    for send in class.text.deeds.sends() {
        add_send(model, class, send, findings)?;
    }
    Ok(())
}
