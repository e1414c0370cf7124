//! The lines of a snapshot, each written as one piece where a piece holds it.
ghost use Rattle.std.specs.Prelude.{◌≡◌, [], ◌∷◌, ◌++◌, codes, decimal};
ghost use Rattle.room_wiring.specs.Slots.{path_text};
ghost use Rattle.room_outside.specs.line_text.Lines.{line};
ghost use Rattle.room_outside.specs.line_text.Output.{Puts, at_rest};
ghost use Rattle.room_outside.specs.line_text.Parts.{part_texts};
ghost use Rattle.room_show.specs.Lines.{actor_line, at_line, attribute_line, controller_line, deferred_line, peer_line, place_line};

use crate::snapshot::{PeerView, PlaceView};
use journal::naming;
use room_kinds::{Incarnation, Msg, PlaceState, SlotId};
use room_outside::{Failed, LineBuffer, Part, Sink, write_line};
use room_wiring::Wiring;

/// Writes the line of a slot: `head`, its path, and `tail`.
fn write_slot_line<K: Sink>(
    out: &mut LineBuffer,
    sink: &mut K,
    wiring: &Wiring,
    head: &[Part],
    slot: SlotId,
    tail: &[Part],
) -> Result<(), Failed>
    ensures { Puts result
        (at_rest (K.written sink.old) out.old) (at_rest (K.written sink.new) out.new)
        (line (part_texts head.now ++ path_text wiring.now slot.0 ∷ part_texts tail.now)) }
{
    out.clear();
    out.put_all(sink, head)?;
    wiring.put_path(out, sink, slot)?;
    out.put_all(sink, tail)?;
    out.end_line(sink)
}

/// Writes the stamp of a snapshot.
pub(crate) fn write_at<K: Sink>(out: &mut LineBuffer, sink: &mut K, at: u64) -> Result<(), Failed>
    ensures { Puts result
        (at_rest (K.written sink.old) out.old) (at_rest (K.written sink.new) out.new)
        (at_line at) }
{
    write_line(out, sink, &[Part::Text(b"at "), Part::Number(at)])
}

/// Writes the line above what is told of a controller.
pub(crate) fn write_controller_line<K: Sink>(
    out: &mut LineBuffer,
    sink: &mut K,
    c: usize,
    clock: u64,
    turns: u64,
) -> Result<(), Failed>
    ensures { Puts result
        (at_rest (K.written sink.old) out.old) (at_rest (K.written sink.new) out.new)
        (controller_line c clock turns) }
{
    let parts = [
        Part::Text(b"controller "),
        Part::Number(c as u64),
        Part::Text(b" "),
        Part::Number(clock),
        Part::Text(b" "),
        Part::Number(turns),
    ];
    write_line(out, sink, &parts)
}

/// Writes an actor and its state.
pub(crate) fn write_actor_line<K: Sink>(
    out: &mut LineBuffer,
    sink: &mut K,
    wiring: &Wiring,
    who: Incarnation,
    state: u16,
) -> Result<(), Failed>
    ensures { Puts result
        (at_rest (K.written sink.old) out.old) (at_rest (K.written sink.new) out.new)
        (actor_line wiring.now who state) }
{
    let tail = [
        Part::Text(b"#"),
        Part::Number(u64::from(who.generation.0)),
        Part::Text(b" "),
        Part::Text(naming::state_label(wiring, who.slot, state)),
    ];
    write_slot_line(out, sink, wiring, &[Part::Text(b"actor ")], who.slot, &tail)
}

/// Writes an attribute.
pub(crate) fn write_attribute<'a, K: Sink>(
    out: &mut LineBuffer,
    sink: &mut K,
    name: &'a [u8],
    numbers: &'a [i64],
) -> Result<(), Failed>
    ensures { Puts result
        (at_rest (K.written sink.old) out.old) (at_rest (K.written sink.new) out.new)
        (attribute_line name.now numbers.now) }
{
    let parts = [
        Part::Text(b"attr "),
        Part::Text(name),
        Part::Numbers(numbers),
    ];
    write_line(out, sink, &parts)
}

/// Writes a message that an actor keeps for later.
pub(crate) fn write_deferred_line<'a, K: Sink>(
    out: &mut LineBuffer,
    sink: &mut K,
    wiring: &'a Wiring,
    msg: &'a Msg,
) -> Result<(), Failed>
    ensures { Puts result
        (at_rest (K.written sink.old) out.old) (at_rest (K.written sink.new) out.new)
        (deferred_line wiring.now msg.now) }
{
    let parts = [
        Part::Text(b"deferred "),
        naming::party(wiring, msg.from),
        Part::Text(b"@"),
        Part::Number(msg.stamp.0),
        Part::Text(b" "),
        Part::Text(naming::signal_name(wiring, msg)),
        Part::Numbers(msg.payload.numbers()),
    ];
    write_line(out, sink, &parts)
}

/// Writes a peer of the actor in a slot.
pub(crate) fn write_peer<K: Sink>(
    out: &mut LineBuffer,
    sink: &mut K,
    wiring: &Wiring,
    slot: SlotId,
    of: PeerView,
) -> Result<(), Failed>
    ensures { Puts result
        (at_rest (K.written sink.old) out.old) (at_rest (K.written sink.new) out.new)
        (peer_line wiring.now slot.0 of) }
{
    let peer = of.peer;
    let head = [
        Part::Text(b"bind "),
        Part::Text(wiring.port_name(slot, of.port)),
        Part::Text(b"["),
        Part::Number(u64::from(of.place)),
        Part::Text(b"] "),
    ];
    let tail = [
        Part::Text(b"#"),
        Part::Number(u64::from(peer.generation.0)),
        Part::Text(b"."),
        Part::Text(wiring.port_name(peer.slot, peer.port)),
        Part::Text(b"["),
        Part::Number(u64::from(peer.place)),
        Part::Text(b"]"),
    ];
    write_slot_line(out, sink, wiring, &head, peer.slot, &tail)
}

/// Writes an import place that asks for a home, holds it or gives it back.
fn write_home<K: Sink>(
    out: &mut LineBuffer,
    sink: &mut K,
    wiring: &Wiring,
    slot: SlotId,
    word: &[u8],
    home: u64,
) -> Result<(), Failed>
    ensures { Puts result
        (at_rest (K.written sink.old) out.old) (at_rest (K.written sink.new) out.new)
        (line (codes "place " ∷ path_text wiring.now slot.0 ∷ word.now ∷ decimal home ∷ [])) }
{
    let tail = [Part::Text(word), Part::Number(home)];
    write_slot_line(out, sink, wiring, &[Part::Text(b"place ")], slot, &tail)
}

/// Writes an import place.
pub(crate) fn write_place<K: Sink>(
    out: &mut LineBuffer,
    sink: &mut K,
    wiring: &Wiring,
    place: PlaceView,
) -> Result<(), Failed>
    ensures { Puts result
        (at_rest (K.written sink.old) out.old) (at_rest (K.written sink.new) out.new)
        (place_line wiring.now place) }
{
    let slot = place.slot;
    match place.state {
        PlaceState::Empty => write_slot_line(
            out,
            sink,
            wiring,
            &[Part::Text(b"place ")],
            slot,
            &[Part::Text(b" empty")],
        ),
        PlaceState::Asking(home) => write_home(out, sink, wiring, slot, b" asking ", home),
        PlaceState::Held(home) => write_home(out, sink, wiring, slot, b" held ", home),
        PlaceState::Leaving(home) => write_home(out, sink, wiring, slot, b" leaving ", home),
    }
}
