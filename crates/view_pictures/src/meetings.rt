//! The ports of classes at which actors may meet others only while a model runs: an action registers them under a name,
//! or actors are lent to where the port is joined.
use crate::leads::has_joined;
use indexmap::IndexSet;
use room_kinds::{ReferenceKind, SlotId};
use room_wiring::{ClassNames, Wiring};
use std::alloc::AllocError;
use view_charts::{Chart, ClassItems, Deeds, Source};

/// A port of a class, by their numbers.
#[derive(Clone, Copy, Drop, PartialEq, Eq, Hash)]
struct PortOf {
    class: u16,
    port: usize,
}

/// The ports of classes at which actors may meet others later.
#[derive(Drop)]
pub struct Meetings {
    ports: IndexSet<PortOf>,
}

/// What the actions of a class do.
fn deeds_of<'a>(
    source: Source<'a>,
    items: &ClassItems<'a>,
    class: &ClassNames,
) -> Result<Deeds, AllocError> {
    let chain = items.chain(source, class.name.as_bytes())?;
    let chart = Chart::of(source, chain.as_slice())?;
    Deeds::of(source, chart.codes())
}

impl Meetings {
    /// Those of a model with this text and this wiring.
    pub fn of(source: Source<'_>, wiring: &Wiring) -> Result<Meetings, AllocError> {
        let mut meetings = Meetings {
            ports: IndexSet::new(source.alloc),
        };
        meetings.add_classes(source, wiring)?;
        meetings.add_slots(wiring)?;
        Ok(meetings)
    }

    /// Whether actors of a class may meet others later at a port.
    pub fn has(&self, class: u16, port: usize) -> bool {
        self.ports.contains(&PortOf { class, port })
    }

    /// Adds the ports that actions of classes register.
    fn add_classes(&mut self, source: Source<'_>, wiring: &Wiring) -> Result<(), AllocError> {
        let items = ClassItems::of(source)?;
        self.add_classes_of(source, &items, wiring)
    }

    fn add_classes_of<'a>(
        &mut self,
        source: Source<'a>,
        items: &ClassItems<'a>,
        wiring: &Wiring,
    ) -> Result<(), AllocError> {
        for number in 0..u16::MAX {
            let Some(class) = wiring.get_class(number) else {
                break;
            };
            self.add_class(source, items, number, class)?;
        }
        Ok(())
    }

    /// Adds the ports that actions of a class register.
    fn add_class<'a>(
        &mut self,
        source: Source<'a>,
        items: &ClassItems<'a>,
        number: u16,
        class: &ClassNames,
    ) -> Result<(), AllocError> {
        let deeds = deeds_of(source, items, class)?;
        self.add_registered(number, class, &deeds)
    }

    fn add_registered(
        &mut self,
        class: u16,
        names: &ClassNames,
        deeds: &Deeds,
    ) -> Result<(), AllocError> {
        for (port, names) in names.ports.as_slice().iter().enumerate() {
            if deeds.registers(names.name.as_bytes()) {
                self.ports.insert(PortOf { class, port })?;
            }
        }
        Ok(())
    }

    /// Adds the ports of classes that are joined at a slot to which actors are lent.
    fn add_slots(&mut self, wiring: &Wiring) -> Result<(), AllocError> {
        for number in 0..wiring.slot_count() {
            let id = SlotId(number as u16);
            if let Some(slot) = wiring.get_slot(id)
                && slot.kind == ReferenceKind::Imported
            {
                self.add_lent(wiring, id, slot.class)?;
            }
        }
        Ok(())
    }

    fn add_lent(&mut self, wiring: &Wiring, slot: SlotId, class: u16) -> Result<(), AllocError> {
        for port in 0..wiring.port_count(slot) {
            if has_joined(wiring, slot, port) {
                self.ports.insert(PortOf { class, port })?;
            }
        }
        Ok(())
    }
}
