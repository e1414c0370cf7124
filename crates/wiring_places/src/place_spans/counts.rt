//! How many places the ports have.
ghost use Rattle.std.specs.Prelude.{◌≡◌, ◌^◌, ◌<◌, ◌≤◌, ◌++◌, length, sum, OnOk};
ghost use Rattle.wiring_places.specs.binding_stretches.Taken.{taken_in};
ghost use Rattle.wiring_places.specs.place_rules.Counts.{count_of, place_count, port_count, counts_of_ports};

use crate::binding_stretches::{Taken, inner_number, own_number};
use crate::place_spans::served::service_key;
use room_kinds::PortKind;
use std::alloc::AllocError;
use wiring_plan::{PlacesPlan, PortPlan};

fn count_of(places: PlacesPlan, got: u64) -> u64
    ensures { result ≡ count_of places got }
{
    match places {
        PlacesPlan::One => 1,
        PlacesPlan::Number(n) => u64::from(n),
        PlacesPlan::Any => got,
    }
}

/// How many places a port has, of which bindings outside and inside pair so many, and which serves so
/// many service access points.
fn place_count(imported: bool, port: PortPlan, outside: u64, inside: u64, served: u64) -> u64
    ensures { result ≡ place_count imported port.kind port.places outside inside served }
{
    match port.kind {
        PortKind::Frame => 1,
        PortKind::Relay => count_of(port.places, 0),
        PortKind::End => count_of(port.places, outside),
        PortKind::Internal => {
            if imported {
                0
            } else {
                count_of(port.places, inside)
            }
        }
        PortKind::Sap => { if imported { 0 } else { 1 } }
        PortKind::Spp => { if imported { 0 } else { served } }
    }
}

/// What is known of a slot when the places of its ports are counted.
#[derive(Clone, Copy)]
pub(crate) struct Counting<'a> {
    /// What the bindings of the slot's container take.
    pub outside: &'a Taken,
    /// What the bindings of its own inside take.
    pub inside: &'a Taken,
    /// How many service access points each port of each slot serves.
    pub served: &'a Taken,
    pub slot: u16,
    pub imported: bool,
    pub reference: u16,
}

/// How many places port `p` of the slot has.
fn port_count(known: &Counting, p: u16, port: PortPlan) -> u64
    ensures { result ≡ port_count (taken_in known.now.outside.now) (taken_in known.now.inside.now)
        (taken_in known.now.served.now)
        known.now.slot known.now.imported known.now.reference p port }
{
    let outside = known.outside.at(inner_number(known.reference, p));
    let inside = known.inside.at(own_number(p));
    let served = known.served.at(service_key(known.slot, p));
    place_count(known.imported, port, outside, inside, served)
}

/// Adds how many places each of these ports of the slot has.
#[tactic(auto, using(crate::proofs::place_spans::CountSteps::counts_more, crate::proofs::place_spans::CountSteps::counts_end))]
pub(crate) fn add_counts(
    counts: &mut Vec<u32>,
    known: &Counting,
    ports: &[PortPlan],
) -> Result<(), AllocError>
    requires ports { length ports.now ≤ 65535 }
    requires places { sum (counts_of_ports (taken_in known.now.outside.now)
        (taken_in known.now.inside.now) (taken_in known.now.served.now) known.now.slot
        known.now.imported known.now.reference 0 ports.now) < 2 ^ 32 }
    ensures { OnOk result (counts.new.items ≡ counts.old.items
        ++ counts_of_ports (taken_in known.now.outside.now) (taken_in known.now.inside.now)
        (taken_in known.now.served.now)
        known.now.slot known.now.imported known.now.reference 0 ports.now) }
{
    for (p, port) in ports.iter().enumerate() {
        counts.push(port_count(known, p as u16, *port) as u32)?;
    }
    Ok(())
}
