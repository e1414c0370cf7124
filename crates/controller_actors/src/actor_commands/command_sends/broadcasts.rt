//! Broadcasts.
ghost use Rattle.std.specs.Prelude.{◌≡◌, ◌<◌, pos, length, map, nat_le, OnOk};
ghost use Rattle.std.specs.List.{filter};
ghost use Rattle.room_wiring.specs.Places.{port_count};
ghost use Rattle.actor_duties.specs.State.{Link};
ghost use Rattle.actor_duties.specs.Words.{places_of};
ghost use Rattle.actor_duties.specs.Commands.{send, send_each, broadcast};
ghost use Rattle.controller_actors.specs.actor_commands.command_sends.Adding.{Adds, content_of};

use crate::actor_commands::command_sends::sends::send_at;
use crate::actor_commands::command_sends::services::Services;
use crate::actor_commands::command_sends::speaker::{Content, Speaker};
use crate::actor_commands::output::Output;
use service_messages::is_spp;
use std::alloc::{AllocError, Global};

/// Sends a copy at a place.
fn send_copy<S: Services>(
    alloc: Global,
    speaker: &Speaker<'_>,
    services: &S,
    port: u16,
    place: u32,
    content: &Content,
    output: &mut Output,
) -> Result<(), AllocError>
    requires serves { S.serves speaker.now.wiring.now speaker.now.me.0 services.now }
    ensures { OnOk result (Adds
        (send speaker.now.wiring.now speaker.now.me.0 (S.frame_of services.now)
        (S.links_of services.now) speaker.now.who port (pos place) (content_of content.now))
        output.old output.new) }
{
    let copy = content.copy(alloc)?;
    let at = u64::from(place);
    send_at(speaker, services, port, i64::from(place), at, copy, output)
}

/// Sends at each place that the model gives a port.
fn send_to_places<S: Services>(
    alloc: Global,
    speaker: &Speaker<'_>,
    services: &S,
    port: u16,
    content: &Content,
    output: &mut Output,
) -> Result<(), AllocError>
    requires serves { S.serves speaker.now.wiring.now speaker.now.me.0 services.now }
    requires slot { speaker.now.who.slot.0 < length speaker.now.wiring.now.slots }
    requires port { port < port_count speaker.now.wiring.now speaker.now.who.slot.0 }
    ensures { OnOk result (Adds
        (send_each speaker.now.wiring.now speaker.now.me.0 (S.frame_of services.now)
        (S.links_of services.now)
        speaker.now.who port (content_of content.now)
        (places_of speaker.now.wiring.now speaker.now.who.slot.0 port))
        output.old output.new) }
{
    for place in 0..speaker.wiring.places(speaker.who.slot, port) {
        send_copy(alloc, speaker, services, port, place, content, output)?;
    }
    Ok(())
}

/// Sends at each place that is linked by name and stands behind those of the model, from `first` on.
fn send_to_links<S: Services>(
    alloc: Global,
    speaker: &Speaker<'_>,
    services: &S,
    port: u16,
    first: u32,
    content: &Content,
    output: &mut Output,
) -> Result<(), AllocError>
    requires serves { S.serves speaker.now.wiring.now speaker.now.me.0 services.now }
    ensures { OnOk result (Adds
        (send_each speaker.now.wiring.now speaker.now.me.0 (S.frame_of services.now)
        (S.links_of services.now)
        speaker.now.who port (content_of content.now)
        (filter (nat_le first) (map (λ (x : Link). x.place) ((S.links_of services.now).linked
        speaker.now.who.slot.0 port))))
        output.old output.new) }
{
    for index in 0..services.link_count(speaker.who.slot, port) {
        let place = services.linked_place(speaker.who.slot, port, index);
        if place >= first {
            send_copy(alloc, speaker, services, port, place, content, output)?;
        }
    }
    Ok(())
}

/// Sends at each place of a port of the speaker, ascending: at those of the model, and at a service
/// provision point then at those that are linked by name. A port that the speaker's class doesn't have has no
/// places. After want of memory what was put out is unspecified: the controller has failed.
pub fn broadcast<S: Services>(
    alloc: Global,
    speaker: &Speaker<'_>,
    services: &S,
    port: u16,
    content: &Content,
    output: &mut Output,
) -> Result<(), AllocError>
    requires serves { S.serves speaker.now.wiring.now speaker.now.me.0 services.now }
    requires slot { speaker.now.who.slot.0 < length speaker.now.wiring.now.slots }
    ensures { OnOk result (Adds
        (broadcast speaker.now.wiring.now speaker.now.me.0 (S.frame_of services.now)
        (S.links_of services.now) speaker.now.who port (content_of content.now))
        output.old output.new) }
{
    if usize::from(port) >= speaker.wiring.port_count(speaker.who.slot) {
        return Ok(());
    }
    send_to_places(alloc, speaker, services, port, content, output)?;
    if !is_spp(speaker.wiring, speaker.who.slot, port) {
        return Ok(());
    }
    let first = speaker.wiring.places(speaker.who.slot, port);
    send_to_links(alloc, speaker, services, port, first, content, output)
}
