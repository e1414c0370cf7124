//! Sends.
ghost use Rattle.std.specs.Prelude.{◌≡◌, ◌<◌, ℤ, pos, ◌<ℤ◌, [], ◌∷◌, OnOk, MatchOption};
ghost use Rattle.actor_duties.specs.Words.{endpoint};
ghost use Rattle.actor_duties.specs.Commands.{message, send};
ghost use Rattle.controller_actors.specs.actor_commands.command_sends.Adding.{Adds, content_of};

use crate::actor_commands::command_sends::services::Services;
use crate::actor_commands::command_sends::speaker::{Content, Speaker};
use crate::actor_commands::output::Output;
use room_kinds::{Endpoint, Msg, Note, Stamp};
use service_messages::owner_of;
use std::alloc::AllocError;

/// A place as a natural number, unless it is negative.
fn natural(place: i64) -> Option<u64>
    ensures { MatchOption result (place <ℤ pos 0) (λ at. place ≡ pos at) }
{
    if place < 0 { None } else { Some(place as u64) }
}

/// A message from a place of a port of the speaker.
fn message(speaker: &Speaker<'_>, port: u16, place: u32, target: Endpoint, content: Content) -> Msg
    ensures { result ≡ message speaker.now.wiring.now speaker.now.me.0
        (endpoint speaker.now.who.slot.0 speaker.now.who.generation.0 port place)
        target (content_of content) }
{
    Msg {
        from: speaker.me,
        to: owner_of(speaker.wiring, target.slot),
        prio: content.prio,
        stamp: Stamp(0),
        source: Some(Endpoint {
            slot: speaker.who.slot,
            generation: speaker.who.generation,
            port,
            place,
        }),
        target,
        signal: content.signal,
        payload: content.payload,
    }
}

/// A send at place `at`, which is `place` as actions number it.
pub(crate) fn send_at<S: Services>(
    speaker: &Speaker<'_>,
    services: &S,
    port: u16,
    place: i64,
    at: u64,
    content: Content,
    output: &mut Output,
) -> Result<(), AllocError>
    requires serves { S.serves speaker.now.wiring.now speaker.now.me.0 services.now }
    requires place { place ≡ pos at }
    ensures { OnOk result (Adds
        (send speaker.now.wiring.now speaker.now.me.0 (S.frame_of services.now)
        (S.links_of services.now) speaker.now.who port (pos at) (content_of content))
        output.old output.new) }
{
    match services.peer(speaker.wiring, speaker.me, speaker.who, port, at) {
        Some(target) => {
            let m = message(speaker, port, at as u32, target, content);
            output.messages.push(m)?;
            Ok(())
        }
        None => {
            output.notes.push(Note::Unbound { port, place })?;
            Ok(())
        }
    }
}

/// Sends at a place of a port of the speaker: a message goes to the peer, and without a peer, or with a
/// place out of range, the note `unbound` is made. After want of memory what was put out is unspecified: the
/// controller has failed.
pub fn send<S: Services>(
    speaker: &Speaker<'_>,
    services: &S,
    port: u16,
    place: i64,
    content: Content,
    output: &mut Output,
) -> Result<(), AllocError>
    requires serves { S.serves speaker.now.wiring.now speaker.now.me.0 services.now }
    ensures { OnOk result (Adds
        (send speaker.now.wiring.now speaker.now.me.0 (S.frame_of services.now)
        (S.links_of services.now) speaker.now.who port place (content_of content))
        output.old output.new) }
{
    match natural(place) {
        Some(at) => send_at(speaker, services, port, place, at, content, output),
        None => {
            output.notes.push(Note::Unbound { port, place })?;
            Ok(())
        }
    }
}
