//! Indexes of replicated references that stay unjoined while others are joined.
use crate::finding::{Finding, Kind};
use crate::listing::Listing;
use crate::model::{LintedModel, slot_at};
use crate::places::{has_joined, is_worked_at};
use indexmap::IndexMap;
use room_wiring::Wiring;
use std::alloc::{AllocError, Global};
use view_charts::{Item, Source};

/// The first slot of a replicated reference, how many slots each of its actors stands for, and how many actors there
/// are.
#[derive(Clone, Copy)]
struct Row {
    first: u32,
    size: u32,
    count: u32,
}

/// Adds to the size of the slot that holds a slot the size of this one.
fn add_size(wiring: &Wiring, number: u32, sizes: &mut [u32]) {
    let size = sizes.get(number as usize).copied().unwrap_or(1);
    let Some(slot) = wiring.get_slot(slot_at(number)) else {
        return;
    };
    let Some(parent) = slot.parent else {
        return;
    };
    if let Some(whole) = sizes.get_mut(usize::from(parent.0)) {
        *whole = whole.saturating_add(size);
    }
}

/// How many slots each slot stands for: itself and all that are inside.
fn sizes_of(alloc: Global, wiring: &Wiring) -> Result<Vec<u32>, AllocError> {
    let mut sizes = Vec::new(alloc);
    for _slot in 0..wiring.slot_count() {
        sizes.push(1u32)?;
    }
    for number in (0..wiring.slot_count()).rev() {
        add_size(wiring, number, sizes.as_mut_slice());
    }
    Ok(sizes)
}

/// Whether a slot stands for this index of the same reference as another slot.
fn is_index(wiring: &Wiring, number: u32, of: u32, index: u32) -> bool {
    if number >= wiring.slot_count() {
        return false;
    }
    match (
        wiring.get_slot(slot_at(number)),
        wiring.get_slot(slot_at(of)),
    ) {
        (Some(here), Some(first)) => {
            here.parent == first.parent && here.reference == first.reference && here.index == index
        }
        _ => false,
    }
}

/// The row that begins at a slot, if one does: a replicated reference with its actors.
fn row_at(wiring: &Wiring, number: u32, size: u32) -> Option<Row> {
    if !is_index(wiring, number, number, 0) {
        return None;
    }
    let mut count = 1u32;
    for index in 1..wiring.slot_count() {
        let slot = number.saturating_add(size.saturating_mul(index));
        if !is_index(wiring, slot, number, index) {
            break;
        }
        count = index.saturating_add(1);
    }
    if count == 1 {
        return None;
    }
    Some(Row {
        first: number,
        size,
        count,
    })
}

impl Row {
    /// The slot at a distance from that of an index.
    fn slot(self, index: u32, distance: u32) -> u32 {
        self.first
            .saturating_add(self.size.saturating_mul(index))
            .saturating_add(distance)
    }
}

/// Whether a port of the slot at a distance from that of an index has a joined place.
fn is_joined(model: &LintedModel<'_>, row: Row, index: u32, distance: u32, port: usize) -> bool {
    has_joined(model.wiring, slot_at(row.slot(index, distance)), port)
}

/// Adds the indexes at which a port is joined to nothing, if it is joined at another.
fn add_port(
    model: &LintedModel<'_>,
    row: Row,
    distance: u32,
    port: usize,
    name: &[u8],
    places: &mut Listing,
) -> Result<(), AllocError> {
    if !(0..row.count).any(|index| is_joined(model, row, index, distance, port)) {
        return Ok(());
    }
    for index in 0..row.count {
        if !is_joined(model, row, index, distance, port) {
            let slot = slot_at(row.slot(index, distance));
            places.add_at(model.path(slot), &[b".", name])?;
        }
    }
    Ok(())
}

/// Adds the ports of a row that are joined at some indexes and not at others.
fn add_row(model: &LintedModel<'_>, row: Row, places: &mut Listing) -> Result<(), AllocError> {
    for distance in 0..row.size {
        let Some(class) = model.class_of(slot_at(row.slot(0, distance))) else {
            continue;
        };
        for (number, port) in class.names.ports.as_slice().iter().enumerate() {
            let name = port.name.as_bytes();
            if is_worked_at(port) && !model.may_meet_later(class, number, name) {
                add_port(model, row, distance, number, name, places)?;
            }
        }
    }
    Ok(())
}

/// What is told of replicated references, in the order in which it was found.
#[derive(Drop)]
struct Told {
    /// The places of a reference that are told, by the reference's first token.
    places: IndexMap<usize, Listing>,
    items: Vec<Item>,
}

/// The places of a row that are told.
fn places_of(model: &LintedModel<'_>, row: Row) -> Result<Listing, AllocError> {
    let mut places = Listing::new(model.source.alloc);
    add_row(model, row, &mut places)?;
    Ok(places)
}

impl Told {
    fn new(alloc: Global) -> Told {
        Told {
            places: IndexMap::new(alloc),
            items: Vec::new(alloc),
        }
    }

    /// Adds the places of a row of a reference to those that are known.
    fn add_places(
        &mut self,
        model: &LintedModel<'_>,
        row: Row,
        item: Item,
    ) -> Result<(), AllocError> {
        if let Some(places) = self.places.get_mut(&item.first) {
            return add_row(model, row, places);
        }
        let places = places_of(model, row)?;
        if places.is_empty() {
            return Ok(());
        }
        self.places.insert(item.first, places)?;
        Ok(self.items.push(item)?)
    }

    /// Adds the row that begins at a slot, if one does.
    fn add_slot(
        &mut self,
        model: &LintedModel<'_>,
        number: u32,
        size: u32,
    ) -> Result<(), AllocError> {
        let Some(row) = row_at(model.wiring, number, size) else {
            return Ok(());
        };
        match model.reference_of(slot_at(row.first))? {
            Some(item) => self.add_places(model, row, item),
            None => Ok(()),
        }
    }

    /// Adds all rows.
    fn add_slots(&mut self, model: &LintedModel<'_>, sizes: &[u32]) -> Result<(), AllocError> {
        for number in 0..model.wiring.slot_count() {
            let size = sizes.get(number as usize).copied().unwrap_or(1);
            self.add_slot(model, number, size)?;
        }
        Ok(())
    }

    /// Adds a finding for each reference.
    fn add_findings(
        &mut self,
        source: Source<'_>,
        findings: &mut Vec<Finding>,
    ) -> Result<(), AllocError> {
        for item in self.items.as_slice() {
            if let Some(places) = self.places.swap_remove(&item.first) {
                findings.push(unjoined_at(source, *item, places.told()?))?;
            }
        }
        Ok(())
    }
}

fn unjoined_at(source: Source<'_>, item: Item, detail: Vec<u8>) -> Finding {
    let (start, end) = source.head(item);
    Finding {
        kind: Kind::UnjoinedIndex,
        start,
        end,
        detail,
    }
}

/// Adds a finding for each replicated reference of which some index stays unjoined.
pub(crate) fn add_unjoined_indexes(
    model: &LintedModel<'_>,
    findings: &mut Vec<Finding>,
) -> Result<(), AllocError> {
    let sizes = sizes_of(model.source.alloc, model.wiring)?;
    let mut told = Told::new(model.source.alloc);
    told.add_slots(model, sizes.as_slice())?;
    told.add_findings(model.source, findings)
}
