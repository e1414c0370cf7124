//! Look-ups of slots. The numbers may name nothing: then the answer is what the definitions say of such
//! a number.
ghost use Rattle.std.specs.Prelude.{◌≡◌, option_map};
ghost use Rattle.actor_duties.specs.Words.{is_fixed, is_optional, is_imported, container_of, is_part_of};
ghost use Rattle.service_messages.specs.slot_runs.Runs.{is_inside};

use room_kinds::{ReferenceKind, SlotId};
use room_wiring::Wiring;

/// Whether a slot lives exactly where its container does.
#[tactic(auto, unfolding(actor_duties::specs::Words::is_fixed))]
pub fn is_fixed(wiring: &Wiring, slot: SlotId) -> bool
    ensures { result ≡ is_fixed wiring.now slot.0 }
{
    match wiring.get_slot(slot) {
        Some(found) => matches!(found.kind, ReferenceKind::Fixed),
        None => false,
    }
}

/// Whether actors of a slot come and go.
#[tactic(auto, unfolding(actor_duties::specs::Words::is_optional))]
pub fn is_optional(wiring: &Wiring, slot: SlotId) -> bool
    ensures { result ≡ is_optional wiring.now slot.0 }
{
    match wiring.get_slot(slot) {
        Some(found) => matches!(found.kind, ReferenceKind::Optional),
        None => false,
    }
}

/// Whether an actor of another slot is lent to a slot.
#[tactic(auto, unfolding(actor_duties::specs::Words::is_imported))]
pub fn is_imported(wiring: &Wiring, slot: SlotId) -> bool
    ensures { result ≡ is_imported wiring.now slot.0 }
{
    match wiring.get_slot(slot) {
        Some(found) => matches!(found.kind, ReferenceKind::Imported),
        None => false,
    }
}

/// The container of a slot; none at the top, and where there is no such slot.
#[tactic(auto, unfolding(actor_duties::specs::Words::container_of))]
pub fn container_of(wiring: &Wiring, slot: SlotId) -> Option<SlotId>
    ensures { option_map (λ c. c.0) result ≡ container_of wiring.now slot.0 }
{
    match wiring.get_slot(slot) {
        Some(found) => found.parent,
        None => None,
    }
}

/// Whether a slot's container is this one.
pub fn is_part_of(wiring: &Wiring, slot: SlotId, container: SlotId) -> bool
    ensures { result ≡ is_part_of wiring.now slot.0 container.0 }
{
    match container_of(wiring, slot) {
        Some(found) => found == container,
        None => false,
    }
}

/// Whether the container of a slot is `container` or stands behind it.
#[tactic(auto, unfolding(crate::specs::slot_runs::Runs::is_inside))]
pub fn is_inside(wiring: &Wiring, container: SlotId, slot: SlotId) -> bool
    ensures { result ≡ is_inside wiring.now container.0 slot.0 }
{
    match container_of(wiring, slot) {
        Some(found) => container <= found,
        None => false,
    }
}
