//! The faces of the places of the sides of bindings.
ghost use Rattle.std.specs.Prelude.{◌≡◌, ◌+◌, ◌*◌, ◌^◌, ◌<◌, [], List};
ghost use Rattle.room_wiring.specs.declared.slot.Slot.{Slot as AnySlot};
ghost use Rattle.wiring_plan.specs.declared.structure_plan.plan.SidePlan.TheVariants.{Own};
ghost use Rattle.wiring_places.specs.place_rules.Pairs.{place_at, side_face};
ghost use Rattle.wiring_places.specs.slot_children.Table.{IsTableOf};
ghost use Rattle.wiring_places.specs.place_pairs.Fits.{FaceFits};

use crate::place_pairs::sides::{inner_side, place_at, span_of};
use crate::slot_children::Children;
use room_wiring::PlaceSpan;
use wiring_plan::{ClassPlan, SidePlan};

/// The face of the place at `n` from `first` on, the inner one where `inner` is 1.
fn own_face(first: u64, n: u64, inner: u64) -> u32
    requires { 2 * (first + n) + inner < 2 ^ 32 }
    ensures { result ≡ 2 * (first + n) + inner }
{
    (2 * (first + n) + inner) as u32
}

fn own_side_face(
    first_ports: &[u32],
    spans: &[PlaceSpan],
    class: &ClassPlan,
    container: u32,
    port: u16,
    n: u64,
) -> u32
    requires { side_face [] first_ports.now spans.now class.now container (Own port) n < 2 ^ 32 }
    ensures { (slots : List AnySlot)
        → result ≡ side_face slots first_ports.now spans.now class.now container (Own port) n }
{
    let span = span_of(first_ports, spans, container.saturating_sub(1), port);
    let inner = inner_side(class.ports.as_slice(), port);
    own_face(u64::from(span.first), n, inner)
}

/// The outer face of the place at `n` of a port at several slots.
fn inner_side_face(
    first_ports: &[u32],
    spans: &[PlaceSpan],
    slots: &[u16],
    port: u16,
    n: u64,
) -> u32
    requires { 2 * place_at first_ports.now spans.now slots.now port n < 2 ^ 32 }
    ensures { result ≡ 2 * place_at first_ports.now spans.now slots.now port n }
{
    own_face(place_at(first_ports, spans, slots, port, n), 0, 0)
}

/// The face of the place at `n` of a side of a binding of a container.
pub(crate) fn side_face(
    first_ports: &[u32],
    spans: &[PlaceSpan],
    class: &ClassPlan,
    children: &Children,
    container: u32,
    side: SidePlan,
    n: u64,
) -> u32
    requires { FaceFits children.now first_ports.now spans.now class.now container side n }
    ensures { (slots : List AnySlot) → IsTableOf children.now slots
        → result ≡ side_face slots first_ports.now spans.now class.now container side n }
{
    match side {
        SidePlan::Own { port } => own_side_face(first_ports, spans, class, container, port, n),
        SidePlan::Inner { reference, port } => {
            let slots = children.of(container, reference);
            inner_side_face(first_ports, spans, slots, port, n)
        }
    }
}
