//! Messages that no state takes.
use crate::finding::{Finding, Kind};
use crate::listing::Listing;
use crate::model::{Class, LintedModel, PortOf};
use crate::places::{is_worked_at, partner_of};
use indexmap::IndexSet;
use room_kinds::SlotId;
use room_wiring::{Partner, PortNames};
use std::alloc::{AllocError, Global};
use view_charts::Item;
use view_journals::{incoming, is_end, place_count};

/// A port of a class.
#[derive(Clone, Copy)]
struct At<'x, 'a> {
    class: &'x Class<'a>,
    number: usize,
    port: &'x PortNames,
}

/// What comes at a port and is taken by no state, while the places of the port are looked at.
#[derive(Drop)]
struct Untaken {
    /// The ports to which places of this one are joined.
    partners: IndexSet<PortOf>,
    messages: IndexSet<Vec<u8>>,
}

impl<'x, 'a> At<'x, 'a> {
    /// Whether the class sends at the port, and takes nothing there: the port is there to be listened to.
    fn is_listened_to(self) -> bool {
        let name = self.port.name.as_bytes();
        let sends = !self.class.text.deeds.sent().at(name).is_empty();
        sends && self.class.text.chart.taken().at(name).is_empty()
    }
}

/// The slot and the port to which a place is joined.
fn end_of(partner: Partner) -> Option<(SlotId, u16)> {
    match partner {
        Partner::Nobody => None,
        Partner::End { slot, port, .. } | Partner::Socket { slot, port, .. } => Some((slot, port)),
    }
}

impl Untaken {
    /// Adds what actors of a class send at a port to which this one is joined.
    fn add_partner(
        &mut self,
        model: &LintedModel<'_>,
        at: At<'_, '_>,
        partner: PortOf,
    ) -> Result<(), AllocError> {
        let (_number, is_new) = self.partners.insert_full(partner)?;
        if is_new {
            return self.add_messages(model.source.alloc, at, model.sent_from(partner));
        }
        Ok(())
    }

    /// Adds those of messages that no state takes.
    fn add_messages(
        &mut self,
        alloc: Global,
        at: At<'_, '_>,
        messages: &[Vec<u8>],
    ) -> Result<(), AllocError> {
        for message in messages {
            self.add(alloc, at, message.as_slice())?;
        }
        Ok(())
    }

    /// Adds a message that comes, if no state takes it.
    fn add(&mut self, alloc: Global, at: At<'_, '_>, message: &[u8]) -> Result<(), AllocError> {
        if !at.class.takes(at.port.name.as_bytes(), message) {
            self.messages.insert(Vec::from_slice(alloc, message)?)?;
        }
        Ok(())
    }

    /// Adds what comes at a place that is joined to a port of a slot.
    fn add_end(
        &mut self,
        model: &LintedModel<'_>,
        at: At<'_, '_>,
        slot: SlotId,
        port: u16,
    ) -> Result<(), AllocError> {
        let Some(class) = model.class_of(slot) else {
            return Ok(());
        };
        let partner = PortOf {
            class: class.number,
            port: usize::from(port),
        };
        self.add_partner(model, at, partner)
    }

    /// Adds what comes at the places of a slot.
    fn add_slot(
        &mut self,
        model: &LintedModel<'_>,
        at: At<'_, '_>,
        slot: SlotId,
    ) -> Result<(), AllocError> {
        for place in 0..place_count(model.wiring, slot, at.number) {
            let partner = partner_of(model.wiring, slot, at.number, place);
            if let Some((slot, port)) = end_of(partner) {
                self.add_end(model, at, slot, port)?;
            }
        }
        Ok(())
    }

    /// Adds what comes at the places of slots.
    fn add_slots(
        &mut self,
        model: &LintedModel<'_>,
        at: At<'_, '_>,
        slots: &[SlotId],
    ) -> Result<(), AllocError> {
        for slot in slots {
            self.add_slot(model, at, *slot)?;
        }
        Ok(())
    }

    /// Whether a port is there for what comes in from outside alone, while nothing else comes.
    fn is_open(&self, model: &LintedModel<'_>, at: At<'_, '_>) -> bool {
        self.partners.is_empty()
            && is_end(at.port)
            && !at.class.slots.is_empty()
            && !model.is_lent(at.class.number, at.number)
    }

    /// Adds what can come in from outside alone, where the port is there for that.
    fn add_injected(&mut self, model: &LintedModel<'_>, at: At<'_, '_>) -> Result<(), AllocError> {
        if self.is_open(model, at) && !at.is_listened_to() {
            for signal in incoming(at.port) {
                self.add(model.source.alloc, at, signal.name.as_bytes())?;
            }
        }
        Ok(())
    }

    /// The messages, of which the first are told.
    fn listing(&self, alloc: Global) -> Result<Listing, AllocError> {
        let mut list = Listing::new(alloc);
        for message in self.messages.as_slice() {
            list.add(message.as_slice())?;
        }
        Ok(list)
    }

    /// What is told of a port.
    fn told(&self, alloc: Global, at: At<'_, '_>) -> Result<Vec<u8>, AllocError> {
        let mut told = self.listing(alloc)?.told()?;
        told.extend_from_slice(b" at ")?;
        told.extend_from_slice(at.port.name.as_bytes())?;
        told.extend_from_slice(b" of ")?;
        told.extend_from_slice(at.class.names.name.as_bytes())?;
        Ok(told)
    }
}

/// What comes at a port and no state takes.
fn untaken_at(model: &LintedModel<'_>, at: At<'_, '_>) -> Result<Untaken, AllocError> {
    let mut untaken = Untaken {
        partners: IndexSet::new(model.source.alloc),
        messages: IndexSet::new(model.source.alloc),
    };
    untaken.add_slots(model, at, at.class.slots.as_slice())?;
    untaken.add_slots(model, at, at.class.imported.as_slice())?;
    untaken.add_injected(model, at)?;
    Ok(untaken)
}

/// Adds what comes at a port whose declaration this is, if something does.
fn add_untaken(
    model: &LintedModel<'_>,
    at: At<'_, '_>,
    item: Item,
    untaken: &Untaken,
    findings: &mut Vec<Finding>,
) -> Result<(), AllocError> {
    if untaken.messages.is_empty() {
        return Ok(());
    }
    let detail = untaken.told(model.source.alloc, at)?;
    let (start, end) = model.source.head(item);
    Ok(findings.push(Finding {
        kind: Kind::UntakenMessage,
        start,
        end,
        detail,
    })?)
}

/// Adds a finding for a port of a class, if messages come there that no state takes.
fn add_port(
    model: &LintedModel<'_>,
    at: At<'_, '_>,
    findings: &mut Vec<Finding>,
) -> Result<(), AllocError> {
    let Some(item) = at.class.text.declared.get(at.port.name.as_bytes()) else {
        return Ok(());
    };
    let untaken = untaken_at(model, at)?;
    add_untaken(model, at, item, &untaken, findings)
}

/// Adds a finding for each port of a class at which messages come that no state takes.
pub(crate) fn add_untaken_messages(
    model: &LintedModel<'_>,
    class: &Class<'_>,
    findings: &mut Vec<Finding>,
) -> Result<(), AllocError> {
    for (number, port) in class.names.ports.as_slice().iter().enumerate() {
        if is_worked_at(port) {
            let at = At {
                class,
                number,
                port,
            };
            add_port(model, at, findings)?;
        }
    }
    Ok(())
}
