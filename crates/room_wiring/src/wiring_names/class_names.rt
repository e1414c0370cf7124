//! The names of a class.
ghost use Rattle.std.specs.Prelude.{◌≡◌, map, IfOk};
ghost use Rattle.room_wiring.specs.wiring_names.Lookup.{signal_table};
ghost use Rattle.room_wiring.specs.wiring_names.Tables.{numbers_of_class};

use crate::wiring_names::named::add_all;
use crate::{ClassNames, PortNames};
use name_tables::Numbers;
use room_kinds::Sequence;
use std::alloc::{AllocError, Global};

/// The names of a class, numbered. One that stands twice has the number of its first place.
#[derive(Drop)]
pub struct ClassNumbers<'a> {
    pub ports: Numbers<'a>,
    /// Of each port the names of its signals, incoming ones first.
    pub signals: Sequence<Numbers<'a>>,
    pub states: Numbers<'a>,
}

#[tactic(auto, unfolding(crate::specs::wiring_names::Lookup::numbered))]
fn signals_of_port<'a>(alloc: Global, port: &'a PortNames) -> Result<Numbers<'a>, AllocError>
    ensures { IfOk result (λ n. n ≡ signal_table port.now) }
{
    let mut numbers = Numbers::new(alloc);
    add_all(&mut numbers, port.incoming.as_slice())?;
    add_all(&mut numbers, port.outgoing.as_slice())?;
    Ok(numbers)
}

fn signals<'a>(alloc: Global, ports: &'a [PortNames]) -> Result<Sequence<Numbers<'a>>, AllocError>
    ensures { IfOk result (λ s. s ≡ map signal_table ports.now) }
{
    let mut all = Sequence::new(alloc);
    for port in ports {
        all.push(signals_of_port(alloc, port)?)?;
    }
    Ok(all)
}

impl<'a> ClassNumbers<'a> {
    #[tactic(auto, unfolding(crate::specs::wiring_names::Lookup::numbered))]
    pub fn of(alloc: Global, class: &'a ClassNames) -> Result<ClassNumbers<'a>, AllocError>
        ensures { IfOk result (λ n. n ≡ numbers_of_class class.now) }
    {
        let mut ports = Numbers::new(alloc);
        add_all(&mut ports, class.ports.as_slice())?;
        let mut states = Numbers::new(alloc);
        add_all(&mut states, class.states.as_slice())?;
        let signals = signals(alloc, class.ports.as_slice())?;
        Ok(ClassNumbers {
            ports,
            signals,
            states,
        })
    }
}
