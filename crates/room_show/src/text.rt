//! The text of a snapshot.
ghost use Rattle.std.specs.Prelude.{◌≡◌, take, drop, OnOk, IfErr, option_map, option_copied, unwrap_or};
ghost use Rattle.room_outside.specs.Written.{Appends, BreaksOffAfter};
ghost use Rattle.room_outside.specs.line_text.Output.{Puts, at_rest};
ghost use Rattle.room_show.specs.Text.{actor_text, actors_text, attribute_lines, attributes_at, attributes_text, controller_text, controllers_text, deferred_text, peers_text, places_text, snapshot_text};

use crate::lines::{
    write_actor_line, write_at, write_attribute, write_controller_line, write_deferred_line,
    write_peer, write_place,
};
use crate::snapshot::{ActorView, ControllerView, NO_STATE, PeerView, PlaceView, Snapshot};
use room_kinds::{Msg, SlotId};
use room_outside::{Failed, LineBuffer, Part, Sink, WriteFault, write_line};
use room_wiring::{AttrNames, Wiring};

/// So many numbers from the front, or all where there are fewer.
fn first_numbers(numbers: &[i64], count: u32) -> &[i64]
    ensures { result.now ≡ take count numbers.now }
{
    let count = count as usize;
    if numbers.len() <= count {
        numbers
    } else {
        &numbers[..count]
    }
}

/// The numbers behind so many from the front.
fn numbers_behind(numbers: &[i64], count: u32) -> &[i64]
    ensures { result.now ≡ drop count numbers.now }
{
    let count = count as usize;
    if numbers.len() <= count {
        &[]
    } else {
        &numbers[count..]
    }
}

/// Writes attributes one after another, each with as many of the numbers as it stands for.
fn write_attributes<K: Sink>(
    out: &mut LineBuffer,
    sink: &mut K,
    attributes: &[AttrNames],
    numbers: &[i64],
) -> Result<(), Failed>
    ensures { Puts result
        (at_rest (K.written sink.old) out.old) (at_rest (K.written sink.new) out.new)
        (attribute_lines attributes.now numbers.now) }
{
    let mut left = numbers;
    for attribute in attributes {
        let own = first_numbers(left, attribute.numbers);
        write_attribute(out, sink, attribute.name.as_bytes(), own)?;
        left = numbers_behind(left, attribute.numbers);
    }
    Ok(())
}

/// The attributes of the class of a slot; none where there is no such slot.
#[tactic(auto, unfolding(crate::specs::Text::attributes_at))]
fn attributes_at(wiring: &Wiring, slot: SlotId) -> &[AttrNames]
    ensures { result.now ≡ attributes_at wiring.now slot.0 }
{
    match wiring.class_of(slot) {
        Some(class) => class.attributes.as_slice(),
        None => &[],
    }
}

/// Writes an actor's attributes; none where its class has no chart.
#[tactic(auto, unfolding(crate::specs::Text::attributes_text))]
fn write_attributes_of<K: Sink>(
    out: &mut LineBuffer,
    sink: &mut K,
    wiring: &Wiring,
    actor: &ActorView,
) -> Result<(), Failed>
    ensures { Puts result
        (at_rest (K.written sink.old) out.old) (at_rest (K.written sink.new) out.new)
        (attributes_text wiring.now actor.now) }
{
    if actor.state == NO_STATE {
        return Ok(());
    }
    let attributes = attributes_at(wiring, actor.who.slot);
    write_attributes(out, sink, attributes, actor.attributes.as_slice())
}

/// Writes the messages that an actor keeps for later.
#[tactic(auto, unfolding(crate::specs::Text::deferred_text))]
fn write_deferred<K: Sink>(
    out: &mut LineBuffer,
    sink: &mut K,
    wiring: &Wiring,
    messages: &[Msg],
) -> Result<(), Failed>
    ensures { Puts result
        (at_rest (K.written sink.old) out.old) (at_rest (K.written sink.new) out.new)
        (deferred_text wiring.now messages.now) }
{
    for msg in messages {
        write_deferred_line(out, sink, wiring, msg)?;
    }
    Ok(())
}

/// Writes the peers of the actor in a slot.
#[tactic(auto, unfolding(crate::specs::Text::peers_text))]
fn write_peers<K: Sink>(
    out: &mut LineBuffer,
    sink: &mut K,
    wiring: &Wiring,
    slot: SlotId,
    peers: &[PeerView],
) -> Result<(), Failed>
    ensures { Puts result
        (at_rest (K.written sink.old) out.old) (at_rest (K.written sink.new) out.new)
        (peers_text wiring.now slot.0 peers.now) }
{
    for peer in peers {
        write_peer(out, sink, wiring, slot, *peer)?;
    }
    Ok(())
}

/// Writes an actor: its state, its attributes, what it keeps for later, and its peers.
#[tactic(auto, unfolding(crate::specs::Text::actor_text))]
fn write_actor<K: Sink>(
    out: &mut LineBuffer,
    sink: &mut K,
    wiring: &Wiring,
    actor: &ActorView,
) -> Result<(), Failed>
    ensures { Puts result
        (at_rest (K.written sink.old) out.old) (at_rest (K.written sink.new) out.new)
        (actor_text wiring.now actor.now) }
{
    write_actor_line(out, sink, wiring, actor.who, actor.state)?;
    write_attributes_of(out, sink, wiring, actor)?;
    write_deferred(out, sink, wiring, actor.deferred.as_slice())?;
    write_peers(out, sink, wiring, actor.who.slot, actor.peers.as_slice())
}

/// Writes actors one after another.
#[tactic(auto, unfolding(crate::specs::Text::actors_text))]
fn write_actors<K: Sink>(
    out: &mut LineBuffer,
    sink: &mut K,
    wiring: &Wiring,
    actors: &[ActorView],
) -> Result<(), Failed>
    ensures { Puts result
        (at_rest (K.written sink.old) out.old) (at_rest (K.written sink.new) out.new)
        (actors_text wiring.now actors.now) }
{
    for actor in actors {
        write_actor(out, sink, wiring, actor)?;
    }
    Ok(())
}

/// Writes import places one after another.
#[tactic(auto, unfolding(crate::specs::Text::places_text))]
fn write_places<K: Sink>(
    out: &mut LineBuffer,
    sink: &mut K,
    wiring: &Wiring,
    places: &[PlaceView],
) -> Result<(), Failed>
    ensures { Puts result
        (at_rest (K.written sink.old) out.old) (at_rest (K.written sink.new) out.new)
        (places_text wiring.now places.now) }
{
    for place in places {
        write_place(out, sink, wiring, *place)?;
    }
    Ok(())
}

/// Writes a controller: its clock and its turns, its actors, and its import places.
#[tactic(auto, unfolding(crate::specs::Text::controller_text))]
fn write_controller<K: Sink>(
    out: &mut LineBuffer,
    sink: &mut K,
    wiring: &Wiring,
    c: usize,
    view: &ControllerView,
) -> Result<(), Failed>
    ensures { Puts result
        (at_rest (K.written sink.old) out.old) (at_rest (K.written sink.new) out.new)
        (controller_text wiring.now c view.now) }
{
    write_controller_line(out, sink, c, view.clock.0, view.turns)?;
    write_actors(out, sink, wiring, view.actors.as_slice())?;
    write_places(out, sink, wiring, view.places.as_slice())
}

fn write_controllers<K: Sink>(
    out: &mut LineBuffer,
    sink: &mut K,
    wiring: &Wiring,
    views: &[ControllerView],
) -> Result<(), Failed>
    ensures { Puts result
        (at_rest (K.written sink.old) out.old) (at_rest (K.written sink.new) out.new)
        (controllers_text wiring.now 0 views.now) }
{
    for (c, view) in views.iter().enumerate() {
        write_controller(out, sink, wiring, c, view)?;
    }
    Ok(())
}

/// Writes the whole text through a buffer.
#[tactic(auto, unfolding(crate::specs::Text::snapshot_text))]
fn write_snapshot<K: Sink>(
    out: &mut LineBuffer,
    sink: &mut K,
    wiring: &Wiring,
    snapshot: &Snapshot,
) -> Result<(), Failed>
    ensures { Puts result
        (at_rest (K.written sink.old) out.old) (at_rest (K.written sink.new) out.new)
        (snapshot_text wiring.now snapshot.now) }
{
    write_at(out, sink, snapshot.at)?;
    write_controllers(out, sink, wiring, snapshot.controllers.as_slice())?;
    write_line(out, sink, &[Part::Text(b"end")])
}

/// Appends the text of a snapshot: each line in one piece, and a line of more than 4,096 bytes in pieces of 4,096
/// bytes and then its rest. It takes no memory.
///
/// At a fault a front of the text was appended, and the fault tells its length. A name that the wiring doesn't
/// have is written as nothing, and such a state as `-`; where an actor has other than as many attribute numbers as
/// its class's attributes stand for, the last attributes have fewer, or numbers are left out.
pub fn show_text<K: Sink>(
    snapshot: &Snapshot,
    wiring: &Wiring,
    sink: &mut K,
) -> Result<(), WriteFault>
    ensures ok { OnOk result (Appends (K.written sink.old) (K.written sink.new)
        (snapshot_text wiring.now snapshot.now)) }
    ensures fault { IfErr result (λ fault. BreaksOffAfter fault.taken
        (K.written sink.old) (K.written sink.new) (snapshot_text wiring.now snapshot.now)) }
{
    let mut out = LineBuffer::new();
    match write_snapshot(&mut out, sink, wiring, snapshot) {
        Ok(()) => Ok(()),
        Err(Failed) => Err(out.fault()),
    }
}
