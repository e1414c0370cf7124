//! The way of one message of a run.
use crate::accepted::Accepted;
use crate::lines::injections_of;
use crate::runs::{journals_of, tell_unknown};
use crate::verdicts::tell_if_unlawful;
use crate::words::{Message, MessageName};
use controller_actors::Plant;
use room_kinds::{ControllerId, Stamp};
use room_run::Status;
use room_wiring::Wiring;
use std::alloc::{AllocError, Global};
use view_journals::{Name, Redone};
use view_messages::chart_replays::replays_of;
use view_messages::{Explained, tell_message};
use view_pages::{Named, Page};

/// Who sent a message of this name; none where no controller has the number.
fn sender_of(wiring: &Wiring, name: MessageName<'_>) -> Option<ControllerId> {
    let count = wiring.controller_count();
    match name.party {
        Some(party) if party < count => Some(ControllerId(party)),
        Some(_) => None,
        None => Some(ControllerId(count)),
    }
}

/// Writes the way of the message that a controller sent at a stamp, of a run that was done again; whether journals have
/// it. That they aren't those of a run over the injections is told on the page.
fn tell_replayed(
    alloc: Global,
    page: &mut Page,
    body: &mut Page,
    told: Explained<'_>,
    plant: &Plant,
    sender: ControllerId,
    sent: Stamp,
) -> Result<bool, AllocError> {
    let is_told = tell_message(alloc, body, told, sender, sent)?;
    if is_told && told.redone.differs.is_none() {
        tell_if_unlawful(alloc, page, plant, told.injections.text, told.journals)?;
    }
    Ok(is_told)
}

/// As `tell_replayed`, of a run that is done again.
fn tell_way(
    alloc: Global,
    page: &mut Page,
    body: &mut Page,
    told: Explained<'_>,
    plant: &Plant,
    sender: ControllerId,
    sent: Stamp,
) -> Result<bool, AllocError> {
    let wanted = Some(Name::new(sender, sent));
    let replays = replays_of(alloc, plant, told.journals, wanted)?;
    let told = Explained {
        redone: &replays.redone,
        replays: replays.of_message.as_slice(),
        ..told
    };
    tell_replayed(alloc, page, body, told, plant, sender, sent)
}

/// Explains a message by a model, the text of injections and journals. That the journals aren't those of a run over the
/// injections is told before all.
fn tell(
    alloc: Global,
    page: &mut Page,
    told: Explained<'_>,
    plant: &Plant,
    name: MessageName<'_>,
) -> Result<Status, AllocError> {
    let mut body = Page::new(alloc);
    let is_told = match sender_of(told.wiring, name) {
        Some(sender) => {
            let sent = Stamp(name.sent);
            tell_way(alloc, page, &mut body, told, plant, sender, sent)?
        }
        None => false,
    };
    if !is_told {
        tell_unknown(page, b"journals have no message", name.word);
        return Ok(Status::WordsRefused);
    }
    page.put(body.bytes()?);
    Ok(Status::Done)
}

/// The way of one message of the run of a model.
pub(crate) fn tell_message_of<'a>(
    rt: HostRuntime,
    page: &mut Page,
    model: &'a Accepted,
    message: Message<'a>,
) -> Result<Status, AllocError> {
    let wiring = model.wiring();
    let lines = match injections_of(rt, page, wiring, message.injections)? {
        Ok(lines) => lines,
        Err(status) => return Ok(status),
    };
    let journals = match journals_of(rt, page, wiring, message.journals)? {
        Ok(journals) => journals,
        Err(status) => return Ok(status),
    };
    let nothing = Redone::nothing(rt.alloc());
    let told = Explained {
        wiring,
        model: &model.tree,
        injections: Named {
            name: message.injections,
            text: lines.as_slice(),
        },
        journals: &journals,
        redone: &nothing,
        replays: &[],
    };
    tell(rt.alloc(), page, told, &model.plant, message.name)
}
