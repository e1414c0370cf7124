//! Tables from their parts.
ghost use Rattle.std.specs.Prelude.{◌≡◌, List};
ghost use Rattle.wiring_places.specs.place_rules.Counts.{counts, spans_from, first_ports_from};
ghost use Rattle.wiring_places.specs.declared.place_rules.place.LayerJoin.{LayerJoin};
ghost use Rattle.binding_expand.specs.wiring_tables.Assembled.{assembled, counts_in};

use room_kinds::Sequence;
use room_wiring::{Partner, PlaceSpan, Tables};
use wiring_slots::WiredSlots;

/// The tables with these rows of ports, places, partners and told controllers.
pub fn assemble(
    slots: WiredSlots,
    first_ports: Sequence<u32>,
    ports: Sequence<PlaceSpan>,
    partners: Sequence<Partner>,
    told: Sequence<Sequence<bool>>,
) -> Tables
    requires { first_ports ≡ first_ports_from slots.plan 0 slots.slots }
    ensures { (joins : List LayerJoin) → ports ≡ spans_from 0 (counts_in slots joins)
        → result ≡ assembled slots joins partners told }
{
    Tables {
        slots: slots.slots,
        controllers: slots.controllers,
        classes: slots.classes,
        first_ports,
        ports,
        partners,
        told,
    }
}
