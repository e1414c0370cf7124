//! Lines of fetches.
ghost use Rattle.std.specs.Prelude.{◌≡◌, ◌++◌};
ghost use Rattle.std.specs.List.{concat};
ghost use Rattle.room_outside.specs.line_text.Output.{Puts, at_rest};
ghost use Rattle.journal.specs.Lines.{entry_text};
ghost use Rattle.tied_journals.specs.Text.{sent_parts, fetch_parts, is_fetch, fetches_end, tied_fetch_text, tied_entry_text, tied_entries_text, tied_journal_text};
ghost use Rattle.tied_journals.specs.Writing.{standing};

use journal::entries::write_entry;
use journal::{Entry, naming};
use room_kinds::{Msg, Stamp};
use room_outside::{Failed, LineBuffer, Part, Sink};
use room_wiring::Wiring;

/// Whether an entry is a fetch.
pub fn is_fetch(entry: &Entry) -> bool
    ensures { result ≡ is_fetch entry.now }
{
    match entry {
        Entry::Fetch { .. } => true,
        Entry::Start { .. } => false,
        Entry::Turn { .. } => false,
        Entry::Post { .. } => false,
    }
}

/// Begins a line of fetches.
fn begin_fetches<K: Sink>(
    out: &mut LineBuffer,
    sink: &mut K,
    wiring: &Wiring,
    stamp: Stamp,
    msg: &Msg,
) -> Result<(), Failed>
    ensures { Puts result
        (at_rest (K.written sink.old) out.old)
        (record { written = K.written sink.new; held = out.new })
        (concat (fetch_parts wiring.now stamp.0 msg.now)) }
{
    out.clear();
    out.put_two(sink, Part::Number(stamp.0), Part::Text(b" fetch"))?;
    put_further(out, sink, wiring, msg)
}

/// A further fetch in the line that stands open.
#[inline(always)]
fn put_further<K: Sink>(
    out: &mut LineBuffer,
    sink: &mut K,
    wiring: &Wiring,
    msg: &Msg,
) -> Result<(), Failed>
    ensures { Puts result
        (record { written = K.written sink.old; held = out.old })
        (record { written = K.written sink.new; held = out.new })
        (concat (sent_parts wiring.now msg.now)) }
{
    out.put_four(
        sink,
        Part::Text(b" "),
        naming::party(wiring, msg.from),
        Part::Text(b"@"),
        Part::Number(msg.stamp.0),
    )
}

fn put_fetch<K: Sink>(
    out: &mut LineBuffer,
    sink: &mut K,
    wiring: &Wiring,
    begun: bool,
    stamp: Stamp,
    msg: &Msg,
) -> Result<(), Failed>
    ensures { Puts result
        (standing begun (K.written sink.old) out.old)
        (record { written = K.written sink.new; held = out.new })
        (tied_fetch_text wiring.now begun stamp.0 msg.now) }
{
    if begun {
        put_further(out, sink, wiring, msg)
    } else {
        begin_fetches(out, sink, wiring, stamp, msg)
    }
}

/// Ends the line of fetches, if one stands open.
fn end_fetches<K: Sink>(out: &mut LineBuffer, sink: &mut K, begun: bool) -> Result<(), Failed>
    ensures { Puts result
        (standing begun (K.written sink.old) out.old)
        (at_rest (K.written sink.new) out.new)
        (fetches_end begun) }
{
    if begun { out.end_line(sink) } else { Ok(()) }
}

/// Ends the line of fetches, if one stands open, and writes another entry.
fn end_and_write<K: Sink>(
    out: &mut LineBuffer,
    sink: &mut K,
    wiring: &Wiring,
    begun: bool,
    entry: &Entry,
) -> Result<(), Failed>
    ensures { Puts result
        (standing begun (K.written sink.old) out.old)
        (at_rest (K.written sink.new) out.new)
        (fetches_end begun ++ entry_text wiring.now entry.now) }
{
    end_fetches(out, sink, begun)?;
    write_entry(out, sink, wiring, entry)
}

fn write_tied_entry<K: Sink>(
    out: &mut LineBuffer,
    sink: &mut K,
    wiring: &Wiring,
    begun: bool,
    entry: &Entry,
) -> Result<(), Failed>
    ensures { Puts result
        (standing begun (K.written sink.old) out.old)
        (standing (is_fetch entry.now) (K.written sink.new) out.new)
        (tied_entry_text wiring.now begun entry.now) }
{
    match entry {
        Entry::Fetch { stamp, msg } => put_fetch(out, sink, wiring, begun, *stamp, msg),
        Entry::Start { .. } => end_and_write(out, sink, wiring, begun, entry),
        Entry::Turn { .. } => end_and_write(out, sink, wiring, begun, entry),
        Entry::Post { .. } => end_and_write(out, sink, wiring, begun, entry),
    }
}

/// Writes a controller's journal: fetches that follow each other are one line.
#[tactic(auto, unfolding(crate::specs::Text::tied_journal_text))]
pub fn write_tied_journal<K: Sink>(
    out: &mut LineBuffer,
    sink: &mut K,
    wiring: &Wiring,
    entries: &[Entry],
) -> Result<(), Failed>
    ensures { Puts result
        (at_rest (K.written sink.old) out.old) (at_rest (K.written sink.new) out.new)
        (tied_journal_text wiring.now entries.now) }
{
    let mut begun = false;
    for entry in entries {
        write_tied_entry(out, sink, wiring, begun, entry)?;
        begun = is_fetch(entry);
    }
    end_fetches(out, sink, begun)
}
