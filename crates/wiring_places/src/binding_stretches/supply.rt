//! How many places the sides of bindings have.
ghost use Rattle.std.specs.Prelude.{◌≡◌, Some};
ghost use Rattle.wiring_places.specs.place_rules.Stretches.{supply_of_places, supply_of_relay, own_supply, inner_supply, reference_supply, supply};

use crate::place_rules::Supply;
use room_kinds::PortKind;
use wiring_plan::{ClassPlan, PlacesPlan, PortPlan, ReferencePlan, SidePlan, StructurePlan};

/// The places of a port at `count` slots.
fn supply_of_places(count: u32, places: PlacesPlan) -> Supply
    ensures { result ≡ supply_of_places count places }
{
    match places {
        PlacesPlan::One => Supply::Limited(u64::from(count)),
        PlacesPlan::Number(n) => Supply::Limited(u64::from(count) * u64::from(n)),
        PlacesPlan::Any => {
            if count == 1 {
                Supply::Growing
            } else {
                Supply::Limited(0)
            }
        }
    }
}

/// The places of a relay port at `count` slots.
fn supply_of_relay(count: u32, places: PlacesPlan) -> Supply
    ensures { result ≡ supply_of_relay count places }
{
    match places {
        PlacesPlan::One => Supply::Limited(u64::from(count)),
        PlacesPlan::Number(n) => Supply::Limited(u64::from(count) * u64::from(n)),
        PlacesPlan::Any => Supply::Limited(0),
    }
}

/// The places that a port of the class itself turns to its bindings.
fn own_supply(port: PortPlan) -> Supply
    ensures { result ≡ own_supply (Some port) }
{
    match port.kind {
        PortKind::Relay => supply_of_relay(1, port.places),
        PortKind::Internal => supply_of_places(1, port.places),
        PortKind::Frame => Supply::Limited(0),
        PortKind::End => Supply::Limited(0),
        PortKind::Sap => Supply::Limited(0),
        PortKind::Spp => Supply::Limited(0),
    }
}

/// The places that a port of the class of a reference for `count` slots turns to bindings.
fn inner_supply(count: u32, port: PortPlan) -> Supply
    ensures { result ≡ inner_supply count (Some port) }
{
    match port.kind {
        PortKind::Relay => supply_of_relay(count, port.places),
        PortKind::End => supply_of_places(count, port.places),
        PortKind::Frame => Supply::Limited(0),
        PortKind::Internal => Supply::Limited(0),
        PortKind::Sap => Supply::Limited(0),
        PortKind::Spp => Supply::Limited(0),
    }
}

fn reference_supply(plan: &StructurePlan, reference: ReferencePlan, port: u16) -> Supply
    ensures { result ≡ reference_supply plan.now (Some reference) port }
{
    match plan.classes.as_slice().get(usize::from(reference.class)) {
        Some(class) => match class.ports.as_slice().get(usize::from(port)) {
            Some(port) => inner_supply(reference.count, *port),
            None => Supply::Limited(0),
        },
        None => Supply::Limited(0),
    }
}

/// How many places a side of a binding of this class has at the beginning.
pub(crate) fn supply(plan: &StructurePlan, class: &ClassPlan, side: SidePlan) -> Supply
    ensures { result ≡ supply plan.now class.now side }
{
    match side {
        SidePlan::Own { port } => match class.ports.as_slice().get(usize::from(port)) {
            Some(port) => own_supply(*port),
            None => Supply::Limited(0),
        },
        SidePlan::Inner { reference, port } => {
            match class.references.as_slice().get(usize::from(reference)) {
                Some(reference) => reference_supply(plan, *reference, port),
                None => Supply::Limited(0),
            }
        }
    }
}
