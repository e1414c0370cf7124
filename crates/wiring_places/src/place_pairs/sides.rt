//! The faces that the sides of bindings have.
ghost use Rattle.std.specs.Prelude.{◌≡◌, slice_get, slice_index, slice_index_or};
ghost use Rattle.wiring_places.specs.place_rules.Counts.{span_of, no_places};
ghost use Rattle.wiring_places.specs.place_rules.Pairs.{is_relay, inner_side, place_at};

use room_kinds::PortKind;
use room_wiring::PlaceSpan;
use wiring_plan::PortPlan;

fn first_port(first_ports: &[u32], slot: u32) -> u32
    ensures { result ≡ slice_index first_ports.now slot }
{
    first_ports.get(slot as usize).copied().unwrap_or(0)
}

fn span_at(spans: &[PlaceSpan], row: usize) -> PlaceSpan
    ensures { result ≡ slice_index_or spans.now row no_places }
{
    match spans.get(row) {
        Some(span) => *span,
        None => PlaceSpan { first: 0, count: 0 },
    }
}

/// Where the places of a port of a slot stand.
pub(crate) fn span_of(first_ports: &[u32], spans: &[PlaceSpan], slot: u32, port: u16) -> PlaceSpan
    ensures { result ≡ span_of first_ports.now spans.now slot port }
{
    span_at(
        spans,
        first_port(first_ports, slot) as usize + usize::from(port),
    )
}

fn slot_at(slots: &[u16], index: u64) -> u32
    ensures { result ≡ slice_index slots.now index }
{
    u32::from(slots.get(index as usize).copied().unwrap_or(0))
}

/// The place at `n` of a port at several slots, by slot and then by place.
pub(crate) fn place_at(
    first_ports: &[u32],
    spans: &[PlaceSpan],
    slots: &[u16],
    port: u16,
    n: u64,
) -> u64
    ensures { result ≡ place_at first_ports.now spans.now slots.now port n }
{
    let each = u64::from(span_of(first_ports, spans, slot_at(slots, 0), port).count).max(1);
    let slot = slot_at(slots, n / each);
    u64::from(span_of(first_ports, spans, slot, port).first) + n % each
}

/// 1 at a port that passes messages on, 0 at others.
fn is_relay(kind: PortKind) -> u64
    ensures { result ≡ is_relay kind }
{
    match kind {
        PortKind::Relay => 1,
        PortKind::Frame => 0,
        PortKind::End => 0,
        PortKind::Internal => 0,
        PortKind::Sap => 0,
        PortKind::Spp => 0,
    }
}

/// Which face of its places a container's own port turns to the inside.
pub(crate) fn inner_side(ports: &[PortPlan], port: u16) -> u64
    ensures { result ≡ inner_side (slice_get ports.now port) }
{
    match ports.get(usize::from(port)) {
        Some(port) => is_relay(port.kind),
        None => 0,
    }
}
