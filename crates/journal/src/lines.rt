//! The lines of a journal, each written as one piece where a piece holds it.
ghost use Rattle.std.specs.Prelude.{◌≡◌, [], ◌∷◌, ◌++◌, codes, decimal};
ghost use Rattle.std.specs.List.{concat};
ghost use Rattle.room_wiring.specs.Slots.{path_text, port_text};
ghost use Rattle.journal.specs.Names.{incarnation_parts, endpoint_parts, source_parts};
ghost use Rattle.room_outside.specs.line_text.Lines.{line};
ghost use Rattle.journal.specs.Lines.{priority_parts, signal_parts, message_parts, standing_parts};
ghost use Rattle.room_outside.specs.line_text.Parts.{part_texts};
ghost use Rattle.room_outside.specs.line_text.Output.{Puts, at_rest};

use crate::naming;
use room_kinds::{Endpoint, Incarnation, Msg, Priority};
use room_outside::{Failed, LineBuffer, Part, Sink};
use room_wiring::Wiring;

fn put_incarnation<K: Sink>(
    out: &mut LineBuffer,
    sink: &mut K,
    wiring: &Wiring,
    who: Incarnation,
) -> Result<(), Failed>
    ensures { Puts result
        (record { written = K.written sink.old; held = out.old })
        (record { written = K.written sink.new; held = out.new })
        (concat (incarnation_parts wiring.now who)) }
{
    wiring.put_path(out, sink, who.slot)?;
    out.put_two(
        sink,
        Part::Text(b"#"),
        Part::Number(u64::from(who.generation.0)),
    )
}

/// A word and an actor.
#[inline(always)]
fn put_named<K: Sink>(
    out: &mut LineBuffer,
    sink: &mut K,
    wiring: &Wiring,
    word: &[u8],
    who: Incarnation,
) -> Result<(), Failed>
    ensures { Puts result
        (record { written = K.written sink.old; held = out.old })
        (record { written = K.written sink.new; held = out.new })
        (concat (word.now ∷ incarnation_parts wiring.now who)) }
{
    out.put_one(sink, Part::Text(word))?;
    put_incarnation(out, sink, wiring, who)
}

/// The actor of an endpoint, and the mark behind it.
fn put_actor<K: Sink>(
    out: &mut LineBuffer,
    sink: &mut K,
    wiring: &Wiring,
    endpoint: Endpoint,
) -> Result<(), Failed>
    ensures { Puts result
        (record { written = K.written sink.old; held = out.old })
        (record { written = K.written sink.new; held = out.new })
        (concat (path_text wiring.now endpoint.slot.0 ∷ codes "#"
        ∷ decimal endpoint.generation.0 ∷ codes "." ∷ [])) }
{
    wiring.put_path(out, sink, endpoint.slot)?;
    out.put_three(
        sink,
        Part::Text(b"#"),
        Part::Number(u64::from(endpoint.generation.0)),
        Part::Text(b"."),
    )
}

/// The port of an endpoint, and the place there.
fn put_place<K: Sink>(
    out: &mut LineBuffer,
    sink: &mut K,
    wiring: &Wiring,
    endpoint: Endpoint,
) -> Result<(), Failed>
    ensures { Puts result
        (record { written = K.written sink.old; held = out.old })
        (record { written = K.written sink.new; held = out.new })
        (concat (port_text wiring.now endpoint.slot.0 endpoint.port ∷ codes "["
        ∷ decimal endpoint.place ∷ codes "]" ∷ [])) }
{
    out.put_four(
        sink,
        Part::Text(wiring.port_name(endpoint.slot, endpoint.port)),
        Part::Text(b"["),
        Part::Number(u64::from(endpoint.place)),
        Part::Text(b"]"),
    )
}

fn put_endpoint<K: Sink>(
    out: &mut LineBuffer,
    sink: &mut K,
    wiring: &Wiring,
    endpoint: Endpoint,
) -> Result<(), Failed>
    ensures { Puts result
        (record { written = K.written sink.old; held = out.old })
        (record { written = K.written sink.new; held = out.new })
        (concat (endpoint_parts wiring.now endpoint)) }
{
    put_actor(out, sink, wiring, endpoint)?;
    put_place(out, sink, wiring, endpoint)
}

fn put_source<K: Sink>(
    out: &mut LineBuffer,
    sink: &mut K,
    wiring: &Wiring,
    source: Option<Endpoint>,
) -> Result<(), Failed>
    ensures { Puts result
        (record { written = K.written sink.old; held = out.old })
        (record { written = K.written sink.new; held = out.new })
        (concat (source_parts wiring.now source)) }
{
    match source {
        Some(endpoint) => put_endpoint(out, sink, wiring, endpoint),
        None => out.put_one(sink, Part::Text(b"-")),
    }
}

/// The end of a message's line: its signal and its numbers.
#[inline(always)]
fn put_signal<'a, K: Sink>(
    out: &mut LineBuffer,
    sink: &mut K,
    wiring: &'a Wiring,
    msg: &'a Msg,
) -> Result<(), Failed>
    ensures { Puts result
        (record { written = K.written sink.old; held = out.old })
        (record { written = K.written sink.new; held = out.new })
        (concat (signal_parts wiring.now msg.now)) }
{
    out.put_three(
        sink,
        Part::Text(b" "),
        Part::Text(naming::signal_name(wiring, msg)),
        Part::Numbers(msg.payload.numbers()),
    )
}

fn put_priority<K: Sink>(out: &mut LineBuffer, sink: &mut K, prio: Priority) -> Result<(), Failed>
    ensures { Puts result
        (record { written = K.written sink.old; held = out.old })
        (record { written = K.written sink.new; held = out.new })
        (concat (priority_parts prio.0)) }
{
    out.put_two(sink, Part::Number(u64::from(prio.0)), Part::Text(b" "))
}

fn put_message<K: Sink>(
    out: &mut LineBuffer,
    sink: &mut K,
    wiring: &Wiring,
    msg: &Msg,
) -> Result<(), Failed>
    ensures { Puts result
        (record { written = K.written sink.old; held = out.old })
        (record { written = K.written sink.new; held = out.new })
        (concat (message_parts wiring.now msg.now)) }
{
    put_priority(out, sink, msg.prio)?;
    put_source(out, sink, wiring, msg.source)?;
    out.put_one(sink, Part::Text(b" "))?;
    put_endpoint(out, sink, wiring, msg.target)?;
    put_signal(out, sink, wiring, msg)
}

/// Ends the line of a message, of which what stands before the message was put.
pub fn end_message_line<K: Sink>(
    out: &mut LineBuffer,
    sink: &mut K,
    wiring: &Wiring,
    msg: &Msg,
) -> Result<(), Failed>
    ensures { Puts result
        (record { written = K.written sink.old; held = out.old })
        (at_rest (K.written sink.new) out.new)
        (line (message_parts wiring.now msg.now)) }
{
    put_message(out, sink, wiring, msg)?;
    out.end_line(sink)
}

/// Writes the line of a message: `head`, and then the message.
pub fn write_message_line<K: Sink>(
    out: &mut LineBuffer,
    sink: &mut K,
    wiring: &Wiring,
    head: &[Part],
    msg: &Msg,
) -> Result<(), Failed>
    ensures { Puts result
        (at_rest (K.written sink.old) out.old) (at_rest (K.written sink.new) out.new)
        (line (part_texts head.now ++ message_parts wiring.now msg.now)) }
{
    out.clear();
    out.put_all(sink, head)?;
    put_message(out, sink, wiring, msg)?;
    out.end_line(sink)
}

/// Writes the line of an actor: `head`, the actor, and `tail`.
pub fn write_actor_line<K: Sink>(
    out: &mut LineBuffer,
    sink: &mut K,
    wiring: &Wiring,
    head: &[Part],
    who: Incarnation,
    tail: &[Part],
) -> Result<(), Failed>
    ensures { Puts result
        (at_rest (K.written sink.old) out.old) (at_rest (K.written sink.new) out.new)
        (line (part_texts head.now ++ (incarnation_parts wiring.now who ++ part_texts tail.now))) }
{
    out.clear();
    out.put_all(sink, head)?;
    put_incarnation(out, sink, wiring, who)?;
    out.put_all(sink, tail)?;
    out.end_line(sink)
}

/// Writes the line of an actor and its state.
pub fn write_standing_line<K: Sink>(
    out: &mut LineBuffer,
    sink: &mut K,
    wiring: &Wiring,
    head: &[Part],
    who: Incarnation,
    state: u16,
) -> Result<(), Failed>
    ensures { Puts result
        (at_rest (K.written sink.old) out.old) (at_rest (K.written sink.new) out.new)
        (line (part_texts head.now ++ standing_parts wiring.now who state)) }
{
    let label = naming::state_label(wiring, who.slot, state);
    write_actor_line(
        out,
        sink,
        wiring,
        head,
        who,
        &[Part::Text(b" "), Part::Text(label)],
    )
}

/// Ends a line with a word.
#[inline(always)]
pub fn end_word_line<K: Sink>(out: &mut LineBuffer, sink: &mut K, word: &[u8]) -> Result<(), Failed>
    ensures { Puts result
        (record { written = K.written sink.old; held = out.old })
        (at_rest (K.written sink.new) out.new)
        (line (word.now ∷ [])) }
{
    out.put_one(sink, Part::Text(word))?;
    out.end_line(sink)
}

/// Ends a line with a word and an actor.
#[inline(always)]
pub fn end_actor_line<K: Sink>(
    out: &mut LineBuffer,
    sink: &mut K,
    wiring: &Wiring,
    word: &[u8],
    who: Incarnation,
) -> Result<(), Failed>
    ensures { Puts result
        (record { written = K.written sink.old; held = out.old })
        (at_rest (K.written sink.new) out.new)
        (line (word.now ∷ incarnation_parts wiring.now who)) }
{
    put_named(out, sink, wiring, word, who)?;
    out.end_line(sink)
}

/// Ends a line with a word, an actor and its state.
#[inline(always)]
pub fn end_standing_line<K: Sink>(
    out: &mut LineBuffer,
    sink: &mut K,
    wiring: &Wiring,
    word: &[u8],
    who: Incarnation,
    state: u16,
) -> Result<(), Failed>
    ensures { Puts result
        (record { written = K.written sink.old; held = out.old })
        (at_rest (K.written sink.new) out.new)
        (line (word.now ∷ standing_parts wiring.now who state)) }
{
    let label = naming::state_label(wiring, who.slot, state);
    put_named(out, sink, wiring, word, who)?;
    out.put_two(sink, Part::Text(b" "), Part::Text(label))?;
    out.end_line(sink)
}
