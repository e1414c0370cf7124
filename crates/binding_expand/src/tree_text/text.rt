//! The text, line by line.
ghost use Rattle.std.specs.Prelude.{◌≡◌, ◌∷◌, ◌<◌, ◌≤◌, length, OnOk, IfErr};
ghost use Rattle.room_outside.specs.Written.{Appends, BreaksOffAfter};
ghost use Rattle.room_outside.specs.line_text.Output.{Puts, at_rest};
ghost use Rattle.room_wiring.specs.Places.{port_count, place_count};
ghost use Rattle.std.specs.List.{concat};
ghost use Rattle.binding_expand.specs.tree_text.Names.{port_parts, place_parts};
ghost use Rattle.binding_expand.specs.tree_text.Text.{slot_parts, path_and_class, slot_text, is_socket, is_before, tie_line, join_text, socket_text, tie_text, has_ties, place_text, port_ties, ports_told, ports_ties, slot_ties, ties_text, slots_text, tree_text};

use crate::tree_text::names::{class_name, kind_word};
use crate::tree_text::place::{Place, Tie};
use room_kinds::SlotId;
use room_outside::{Failed, LineBuffer, Part, Sink, WriteFault};
use room_wiring::{Partner, Slot, Wiring};

/// Adds the number, the owner and the kind of a slot.
fn put_slot<K: Sink>(
    out: &mut LineBuffer,
    sink: &mut K,
    s: SlotId,
    slot: &Slot,
) -> Result<(), Failed>
    ensures { Puts result
        (record { written = K.written sink.old; held = out.old })
        (record { written = K.written sink.new; held = out.new })
        (concat (slot_parts s.0 slot.now)) }
{
    let number = u64::from(s.0);
    let owner = u64::from(slot.owner.0);
    let blank = Part::Text(b" ");
    let kind = Part::Text(kind_word(slot.kind));
    out.put_four(
        sink,
        Part::Text(b"slot "),
        Part::Number(number),
        blank,
        Part::Number(owner),
    )?;
    out.put_three(sink, blank, kind, blank)
}

/// Adds the path and the class of a slot.
fn put_path_and_class<K: Sink>(
    out: &mut LineBuffer,
    sink: &mut K,
    wiring: &Wiring,
    slot: &Slot,
) -> Result<(), Failed>
    requires { slot.now.class < length wiring.now.classes }
    ensures { Puts result
        (record { written = K.written sink.old; held = out.old })
        (record { written = K.written sink.new; held = out.new })
        (concat (path_and_class wiring.now slot.now)) }
{
    slot.path.put(out, sink)?;
    let class = class_name(wiring, slot.class);
    out.put_two(sink, Part::Text(b" "), Part::Text(class))
}

#[tactic(auto, unfolding(crate::specs::tree_text::Text::slot_text))]
fn write_slot<K: Sink>(
    out: &mut LineBuffer,
    sink: &mut K,
    wiring: &Wiring,
    s: SlotId,
) -> Result<(), Failed>
    requires { s.0 < length wiring.now.slots }
    ensures { Puts result
        (at_rest (K.written sink.old) out.old) (at_rest (K.written sink.new) out.new)
        (slot_text wiring.now s.0) }
{
    let slot = wiring.slot(s);
    out.clear();
    put_slot(out, sink, s, slot)?;
    put_path_and_class(out, sink, wiring, slot)?;
    out.end_line(sink)
}

#[tactic(auto, unfolding(crate::specs::tree_text::Text::slots_text))]
fn write_slots<K: Sink>(out: &mut LineBuffer, sink: &mut K, wiring: &Wiring) -> Result<(), Failed>
    ensures { Puts result
        (at_rest (K.written sink.old) out.old) (at_rest (K.written sink.new) out.new)
        (slots_text wiring.now) }
{
    for s in 0..wiring.slot_count() {
        write_slot(out, sink, wiring, SlotId(s as u16))?;
    }
    Ok(())
}

fn is_before(a: Place, b: Place) -> bool
    ensures { result ≡ is_before a b }
{
    a.slot.0 < b.slot.0
        || (a.slot.0 == b.slot.0 && (a.port < b.port || (a.port == b.port && a.place < b.place)))
}

#[tactic(auto, unfolding(crate::specs::tree_text::Text::is_socket))]
fn is_socket(wiring: &Wiring, s: SlotId) -> bool
    requires { s.0 < length wiring.now.slots }
    ensures { result ≡ is_socket wiring.now s.0 }
{
    wiring.slot(s).kind.is_imported()
}

/// Adds a port of a slot, and the place there.
fn put_port<K: Sink>(
    out: &mut LineBuffer,
    sink: &mut K,
    wiring: &Wiring,
    place: Place,
) -> Result<(), Failed>
    ensures { Puts result
        (record { written = K.written sink.old; held = out.old })
        (record { written = K.written sink.new; held = out.new })
        (concat (port_parts wiring.now place)) }
{
    let name = wiring.port_name(place.slot, place.port);
    let number = u64::from(place.place);
    out.put_two(sink, Part::Text(b"."), Part::Text(name))?;
    out.put_three(
        sink,
        Part::Text(b"["),
        Part::Number(number),
        Part::Text(b"]"),
    )
}

fn put_place<K: Sink>(
    out: &mut LineBuffer,
    sink: &mut K,
    wiring: &Wiring,
    place: Place,
) -> Result<(), Failed>
    ensures { Puts result
        (record { written = K.written sink.old; held = out.old })
        (record { written = K.written sink.new; held = out.new })
        (concat (place_parts wiring.now place)) }
{
    wiring.put_path(out, sink, place.slot)?;
    put_port(out, sink, wiring, place)
}

/// Adds a word and a place.
fn put_at<K: Sink>(
    out: &mut LineBuffer,
    sink: &mut K,
    wiring: &Wiring,
    word: &[u8],
    place: Place,
) -> Result<(), Failed>
    ensures { Puts result
        (record { written = K.written sink.old; held = out.old })
        (record { written = K.written sink.new; held = out.new })
        (concat (word.now ∷ place_parts wiring.now place)) }
{
    out.put_one(sink, Part::Text(word))?;
    put_place(out, sink, wiring, place)
}

fn write_tie<K: Sink>(
    out: &mut LineBuffer,
    sink: &mut K,
    wiring: &Wiring,
    word: &[u8],
    a: Place,
    b: Place,
) -> Result<(), Failed>
    ensures { Puts result
        (at_rest (K.written sink.old) out.old) (at_rest (K.written sink.new) out.new)
        (tie_line wiring.now word.now a b) }
{
    out.clear();
    put_at(out, sink, wiring, word, a)?;
    put_at(out, sink, wiring, b" ", b)?;
    out.end_line(sink)
}

/// Writes an end place beside a later one.
fn write_join<K: Sink>(
    out: &mut LineBuffer,
    sink: &mut K,
    wiring: &Wiring,
    a: Place,
    partner: Partner,
) -> Result<(), Failed>
    ensures { Puts result
        (at_rest (K.written sink.old) out.old) (at_rest (K.written sink.new) out.new)
        (join_text wiring.now a partner) }
{
    match partner {
        Partner::Nobody => Ok(()),
        Partner::Socket { .. } => Ok(()),
        Partner::End { slot, port, place } => {
            let b = Place { slot, port, place };
            if is_before(a, b) {
                write_tie(out, sink, wiring, b"join ", a, b)
            } else {
                Ok(())
            }
        }
    }
}

/// Writes an imported place beside the place that it is joined to.
fn write_socket<K: Sink>(
    out: &mut LineBuffer,
    sink: &mut K,
    wiring: &Wiring,
    a: Place,
    partner: Partner,
) -> Result<(), Failed>
    ensures { Puts result
        (at_rest (K.written sink.old) out.old) (at_rest (K.written sink.new) out.new)
        (socket_text wiring.now a partner) }
{
    match partner {
        Partner::Nobody => Ok(()),
        Partner::End { slot, port, place } => {
            write_tie(
                out,
                sink,
                wiring,
                b"socket ",
                a,
                Place { slot, port, place },
            )
        }
        Partner::Socket { slot, port, place } => {
            write_tie(
                out,
                sink,
                wiring,
                b"socket ",
                a,
                Place { slot, port, place },
            )
        }
    }
}

fn write_partner<K: Sink>(
    out: &mut LineBuffer,
    sink: &mut K,
    wiring: &Wiring,
    tie: Tie,
    a: Place,
    partner: Partner,
) -> Result<(), Failed>
    ensures { Puts result
        (at_rest (K.written sink.old) out.old) (at_rest (K.written sink.new) out.new)
        (tie_text wiring.now tie a partner) }
{
    match tie {
        Tie::Join => write_join(out, sink, wiring, a, partner),
        Tie::Socket => write_socket(out, sink, wiring, a, partner),
    }
}

fn has_ties(tie: Tie, imported: bool) -> bool
    ensures { result ≡ has_ties tie imported }
{
    match tie {
        Tie::Join => !imported,
        Tie::Socket => imported,
    }
}

#[tactic(auto, unfolding(crate::specs::tree_text::Text::place_text))]
fn write_place<K: Sink>(
    out: &mut LineBuffer,
    sink: &mut K,
    wiring: &Wiring,
    tie: Tie,
    a: Place,
) -> Result<(), Failed>
    requires slot { a.slot.0 < length wiring.now.slots }
    requires port { a.port < port_count wiring.now a.slot.0 }
    requires place { a.place < place_count wiring.now a.slot.0 a.port }
    ensures { Puts result
        (at_rest (K.written sink.old) out.old) (at_rest (K.written sink.new) out.new)
        (place_text wiring.now tie a.slot.0 a.port a.place) }
{
    let partner = wiring.partner(a.slot, a.port, a.place);
    write_partner(out, sink, wiring, tie, a, partner)
}

#[tactic(auto, unfolding(crate::specs::tree_text::Text::port_ties))]
fn write_port<K: Sink>(
    out: &mut LineBuffer,
    sink: &mut K,
    wiring: &Wiring,
    tie: Tie,
    slot: SlotId,
    port: u16,
) -> Result<(), Failed>
    requires slot { slot.0 < length wiring.now.slots }
    requires port { port < port_count wiring.now slot.0 }
    ensures { Puts result
        (at_rest (K.written sink.old) out.old) (at_rest (K.written sink.new) out.new)
        (port_ties wiring.now tie slot.0 port) }
{
    for place in 0..wiring.places(slot, port) {
        write_place(out, sink, wiring, tie, Place { slot, port, place })?;
    }
    Ok(())
}

/// How many ports of a slot have a number.
#[tactic(auto, unfolding(room_wiring::specs::Places::port_count, room_wiring::specs::Slots::class_of))]
fn ports_told(wiring: &Wiring, s: SlotId) -> usize
    requires { s.0 < length wiring.now.slots }
    ensures { result ≡ ports_told wiring.now s.0 }
{
    let class = wiring.class(wiring.slot(s).class);
    class.ports.len().min(65536)
}

#[tactic(auto, unfolding(crate::specs::tree_text::Text::ports_ties))]
fn write_ports<K: Sink>(
    out: &mut LineBuffer,
    sink: &mut K,
    wiring: &Wiring,
    tie: Tie,
    s: SlotId,
) -> Result<(), Failed>
    requires { s.0 < length wiring.now.slots }
    ensures { Puts result
        (at_rest (K.written sink.old) out.old) (at_rest (K.written sink.new) out.new)
        (ports_ties wiring.now tie s.0) }
{
    for port in 0..ports_told(wiring, s) {
        write_port(out, sink, wiring, tie, s, port as u16)?;
    }
    Ok(())
}

#[tactic(auto, unfolding(crate::specs::tree_text::Text::slot_ties))]
fn write_slot_ties<K: Sink>(
    out: &mut LineBuffer,
    sink: &mut K,
    wiring: &Wiring,
    tie: Tie,
    s: SlotId,
) -> Result<(), Failed>
    requires { s.0 < length wiring.now.slots }
    ensures { Puts result
        (at_rest (K.written sink.old) out.old) (at_rest (K.written sink.new) out.new)
        (slot_ties wiring.now tie s.0) }
{
    if has_ties(tie, is_socket(wiring, s)) {
        write_ports(out, sink, wiring, tie, s)
    } else {
        Ok(())
    }
}

#[tactic(auto, unfolding(crate::specs::tree_text::Text::ties_text))]
fn write_ties<K: Sink>(
    out: &mut LineBuffer,
    sink: &mut K,
    wiring: &Wiring,
    tie: Tie,
) -> Result<(), Failed>
    ensures { Puts result
        (at_rest (K.written sink.old) out.old) (at_rest (K.written sink.new) out.new)
        (ties_text wiring.now tie) }
{
    for s in 0..wiring.slot_count() {
        write_slot_ties(out, sink, wiring, tie, SlotId(s as u16))?;
    }
    Ok(())
}

#[tactic(auto, unfolding(crate::specs::tree_text::Text::tree_text))]
fn write_tree<K: Sink>(out: &mut LineBuffer, sink: &mut K, wiring: &Wiring) -> Result<(), Failed>
    ensures { Puts result
        (at_rest (K.written sink.old) out.old) (at_rest (K.written sink.new) out.new)
        (tree_text wiring.now) }
{
    write_slots(out, sink, wiring)?;
    write_ties(out, sink, wiring, Tie::Join)?;
    write_ties(out, sink, wiring, Tie::Socket)
}

/// Appends the text of a wiring: the lines of its slots, then those of its joined places, then
/// those of its sockets. Each line is one piece; a line of more than 4,096 bytes is written in
/// pieces of 4,096 bytes and then its rest. It takes no memory.
///
/// At a fault a front of the text was appended, and the fault tells its length. Time is in
/// proportion to the slots, ports and places.
pub fn expand_text<K: Sink>(wiring: &Wiring, sink: &mut K) -> Result<(), WriteFault>
    ensures ok { OnOk result (Appends (K.written sink.old) (K.written sink.new)
        (tree_text wiring.now)) }
    ensures fault { IfErr result (λ fault. BreaksOffAfter fault.taken
        (K.written sink.old) (K.written sink.new) (tree_text wiring.now)) }
{
    let mut out = LineBuffer::new();
    match write_tree(&mut out, sink, wiring) {
        Ok(()) => Ok(()),
        Err(Failed) => Err(out.fault()),
    }
}
