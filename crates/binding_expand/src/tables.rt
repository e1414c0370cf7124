//! The tables of a wiring.
ghost use Rattle.std.specs.Prelude.{IfOk};
ghost use Rattle.wiring_joins.specs.joined_places.Wired.{ArePlacesOf};
ghost use Rattle.binding_expand.specs.Steps.{AreWired, Completes};

use crate::wiring_tables::assemble;
use room_wiring::Wiring;
use std::alloc::{AllocError, Global};
use wiring_joins::{WiredPlaces, told_controllers};
use wiring_slots::WiredSlots;

/// The wiring of slots with these places: its tables, and who is told of the actors in each slot.
pub(crate) fn wiring_with(
    alloc: Global,
    slots: WiredSlots,
    places: WiredPlaces,
) -> Result<Wiring, AllocError>
    requires wired { AreWired slots }
    requires places { ArePlacesOf slots.plan slots.slots places }
    ensures { IfOk result (λ t. Completes slots t) }
{
    let told = told_controllers(
        alloc,
        slots.slots.as_slice(),
        slots.controllers.len() as u8,
        places.places.as_slice(),
        places.partners.as_slice(),
    )?;
    let tables = assemble(
        slots,
        places.first_ports,
        places.spans,
        places.partners,
        told,
    );
    Ok(Wiring::new(tables))
}
