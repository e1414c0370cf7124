//! Journals as text, line by line.
ghost use Rattle.std.specs.Prelude.{◌≡◌, ℕ, false, Some, [], ◌∷◌, ◌++◌};
ghost use Rattle.room_outside.specs.line_text.Lines.{line};
ghost use Rattle.std.specs.List.{concat};
ghost use Rattle.journal.specs.Lines.{turn_parts, did_parts, turn_line, note_line, note_lines, is_duty, speaker_of, start_line, fetch_line, post_line, entry_text, where_text, left_line, unposted_line};
ghost use Rattle.journal.specs.Text.{title_of, journal_text, controller_text, controllers_text, left_text, unposted_text, end_line, text_of};
ghost use Rattle.room_outside.specs.line_text.Output.{Puts, at_rest};

use crate::entry::{Did, Entry, Journal, Journals, Left};
use crate::lines::{
    end_actor_line, end_message_line, end_standing_line, end_word_line, write_actor_line,
    write_message_line, write_standing_line,
};
use crate::naming;
use crate::speaker::speaker_after;
use room_kinds::{ControllerId, Incarnation, Msg, Note, SlotId, Stamp};
use room_outside::{Failed, LineBuffer, Part, Sink, write_line};
use room_wiring::Wiring;

fn write_note<K: Sink>(
    out: &mut LineBuffer,
    sink: &mut K,
    wiring: &Wiring,
    speaker: Option<SlotId>,
    note: &Note,
) -> Result<(), Failed>
    ensures { Puts result
        (at_rest (K.written sink.old) out.old) (at_rest (K.written sink.new) out.new)
        (note_line wiring.now speaker note.now) }
{
    match note {
        Note::Zero => write_line(out, sink, &[Part::Text(b"note zero")]),
        Note::NoMessage => write_line(out, sink, &[Part::Text(b"note nomessage")]),
        Note::Unbound { port, place } => write_line(
            out,
            sink,
            &[
                Part::Text(b"note unbound "),
                Part::Text(naming::speaking_port_name(wiring, speaker, *port)),
                Part::Text(b"["),
                Part::Signed(*place),
                Part::Text(b"]"),
            ],
        ),
        Note::Recall { count } => write_line(
            out,
            sink,
            &[Part::Text(b"note recall "), Part::Number(*count)],
        ),
        Note::Up { who, state } => {
            write_standing_line(out, sink, wiring, &[Part::Text(b"note up ")], *who, *state)
        }
        Note::Down { who, lost } => write_actor_line(
            out,
            sink,
            wiring,
            &[Part::Text(b"note down ")],
            *who,
            &[Part::Text(b" "), Part::Number(*lost)],
        ),
    }
}

fn write_notes<K: Sink>(
    out: &mut LineBuffer,
    sink: &mut K,
    wiring: &Wiring,
    duty: bool,
    speaker: Option<SlotId>,
    notes: &[Note],
) -> Result<(), Failed>
    ensures { Puts result
        (at_rest (K.written sink.old) out.old) (at_rest (K.written sink.new) out.new)
        (note_lines wiring.now duty speaker notes.now) }
{
    let mut speaking = speaker;
    for note in notes {
        write_note(out, sink, wiring, speaking, note)?;
        speaking = speaker_after(duty, speaking, *note);
    }
    Ok(())
}

/// When a turn was, and which message it took.
#[derive(Clone, Copy)]
struct TurnHead {
    stamp: Stamp,
    from: ControllerId,
    sent: Stamp,
}

/// Begins the line of a turn.
fn put_turn_head<K: Sink>(
    out: &mut LineBuffer,
    sink: &mut K,
    wiring: &Wiring,
    head: TurnHead,
) -> Result<(), Failed>
    ensures { Puts result
        (record { written = K.written sink.old; held = out.old })
        (record { written = K.written sink.new; held = out.new })
        (concat (turn_parts wiring.now head.stamp.0 head.from.0 head.sent.0)) }
{
    out.put_two(sink, Part::Number(head.stamp.0), Part::Text(b" turn "))?;
    out.put_three(
        sink,
        naming::party(wiring, head.from),
        Part::Text(b"@"),
        Part::Number(head.sent.0),
    )
}

/// Ends the line of a turn with what it did.
fn end_turn_line<K: Sink>(
    out: &mut LineBuffer,
    sink: &mut K,
    wiring: &Wiring,
    did: Did,
) -> Result<(), Failed>
    ensures { Puts result
        (record { written = K.written sink.old; held = out.old })
        (at_rest (K.written sink.new) out.new)
        (line (did_parts wiring.now did)) }
{
    match did {
        Did::Duty => end_word_line(out, sink, b" duty"),
        Did::Handled { who, state } => {
            end_standing_line(out, sink, wiring, b" handled ", who, state)
        }
        Did::Deferred { who, state } => {
            end_standing_line(out, sink, wiring, b" deferred ", who, state)
        }
        Did::Unhandled { who, state } => {
            end_standing_line(out, sink, wiring, b" unhandled ", who, state)
        }
        Did::Stale { target } => end_actor_line(out, sink, wiring, b" stale ", target),
        Did::Empty { target } => end_actor_line(out, sink, wiring, b" empty ", target),
    }
}

fn write_turn<K: Sink>(
    out: &mut LineBuffer,
    sink: &mut K,
    wiring: &Wiring,
    head: TurnHead,
    did: Did,
) -> Result<(), Failed>
    ensures { Puts result
        (at_rest (K.written sink.old) out.old) (at_rest (K.written sink.new) out.new)
        (turn_line wiring.now head.stamp.0 head.from.0 head.sent.0 did) }
{
    out.clear();
    put_turn_head(out, sink, wiring, head)?;
    end_turn_line(out, sink, wiring, did)
}

fn write_fetch<K: Sink>(
    out: &mut LineBuffer,
    sink: &mut K,
    wiring: &Wiring,
    stamp: Stamp,
    msg: &Msg,
) -> Result<(), Failed>
    ensures { Puts result
        (at_rest (K.written sink.old) out.old) (at_rest (K.written sink.new) out.new)
        (fetch_line wiring.now stamp.0 msg.now) }
{
    let head = [
        Part::Number(stamp.0),
        Part::Text(b" fetch "),
        naming::party(wiring, msg.from),
        Part::Text(b"@"),
        Part::Number(msg.stamp.0),
        Part::Text(b" "),
    ];
    write_message_line(out, sink, wiring, &head, msg)
}

fn write_post<K: Sink>(
    out: &mut LineBuffer,
    sink: &mut K,
    wiring: &Wiring,
    stamp: Stamp,
    msg: &Msg,
) -> Result<(), Failed>
    ensures { Puts result
        (at_rest (K.written sink.old) out.old) (at_rest (K.written sink.new) out.new)
        (post_line wiring.now stamp.0 msg.now) }
{
    out.clear();
    out.put_four(
        sink,
        Part::Number(stamp.0),
        Part::Text(b" post "),
        Part::Number(u64::from(msg.to.0)),
        Part::Text(b" "),
    )?;
    end_message_line(out, sink, wiring, msg)
}

/// Writes a start and its notes.
fn write_start<K: Sink>(
    out: &mut LineBuffer,
    sink: &mut K,
    wiring: &Wiring,
    who: Incarnation,
    state: u16,
    notes: &[Note],
) -> Result<(), Failed>
    ensures { Puts result
        (at_rest (K.written sink.old) out.old) (at_rest (K.written sink.new) out.new)
        (start_line wiring.now who state ++ note_lines wiring.now false (Some who.slot) notes.now) }
{
    write_standing_line(out, sink, wiring, &[Part::Text(b"start ")], who, state)?;
    write_notes(out, sink, wiring, false, Some(who.slot), notes)
}

/// Writes a turn and its notes.
fn write_turn_and_notes<K: Sink>(
    out: &mut LineBuffer,
    sink: &mut K,
    wiring: &Wiring,
    head: TurnHead,
    did: Did,
    notes: &[Note],
) -> Result<(), Failed>
    ensures { Puts result
        (at_rest (K.written sink.old) out.old) (at_rest (K.written sink.new) out.new)
        (turn_line wiring.now head.stamp.0 head.from.0 head.sent.0 did
        ++ note_lines wiring.now (is_duty did) (speaker_of did) notes.now) }
{
    write_turn(out, sink, wiring, head, did)?;
    write_notes_of(out, sink, wiring, did, notes)
}

/// Writes the notes of a turn. Most turns have none.
#[inline(always)]
fn write_notes_of<K: Sink>(
    out: &mut LineBuffer,
    sink: &mut K,
    wiring: &Wiring,
    did: Did,
    notes: &[Note],
) -> Result<(), Failed>
    ensures { Puts result
        (at_rest (K.written sink.old) out.old) (at_rest (K.written sink.new) out.new)
        (note_lines wiring.now (is_duty did) (speaker_of did) notes.now) }
{
    match notes {
        [] => Ok(()),
        _ => write_notes(out, sink, wiring, did.is_duty(), did.speaker(), notes),
    }
}

/// Writes an entry and its notes.
pub fn write_entry<K: Sink>(
    out: &mut LineBuffer,
    sink: &mut K,
    wiring: &Wiring,
    entry: &Entry,
) -> Result<(), Failed>
    ensures { Puts result
        (at_rest (K.written sink.old) out.old) (at_rest (K.written sink.new) out.new)
        (entry_text wiring.now entry.now) }
{
    match entry {
        Entry::Start { who, state, notes } => {
            write_start(out, sink, wiring, *who, *state, notes.as_slice())
        }
        Entry::Fetch { stamp, msg } => write_fetch(out, sink, wiring, *stamp, msg),
        Entry::Turn {
            stamp,
            from,
            sent,
            did,
            notes,
        } => {
            let head = TurnHead {
                stamp: *stamp,
                from: *from,
                sent: *sent,
            };
            write_turn_and_notes(out, sink, wiring, head, *did, notes.as_slice())
        }
        Entry::Post { stamp, msg } => write_post(out, sink, wiring, *stamp, msg),
    }
}

/// Writes the entries of one journal, each with its notes.
#[tactic(auto, unfolding(crate::specs::Text::journal_text))]
pub fn write_journal<K: Sink>(
    out: &mut LineBuffer,
    sink: &mut K,
    wiring: &Wiring,
    entries: &[Entry],
) -> Result<(), Failed>
    ensures { Puts result
        (at_rest (K.written sink.old) out.old) (at_rest (K.written sink.new) out.new)
        (journal_text wiring.now entries.now) }
{
    for entry in entries {
        write_entry(out, sink, wiring, entry)?;
    }
    Ok(())
}

/// Writes a controller's journal under its line.
#[tactic(auto, unfolding(crate::specs::Text::controller_text))]
fn write_controller<K: Sink>(
    out: &mut LineBuffer,
    sink: &mut K,
    wiring: &Wiring,
    c: usize,
    journal: &Journal,
) -> Result<(), Failed>
    ensures { Puts result
        (at_rest (K.written sink.old) out.old) (at_rest (K.written sink.new) out.new)
        (controller_text wiring.now c journal.now) }
{
    write_title(out, sink, wiring, c)?;
    write_journal(out, sink, wiring, journal.as_slice())
}

/// Writes the line above a controller's journal.
pub fn write_title<K: Sink>(
    out: &mut LineBuffer,
    sink: &mut K,
    wiring: &Wiring,
    c: usize,
) -> Result<(), Failed>
    ensures { Puts result
        (at_rest (K.written sink.old) out.old) (at_rest (K.written sink.new) out.new)
        (title_of wiring.now c) }
{
    let parts = [
        Part::Text(b"controller "),
        Part::Number(c as u64),
        Part::Text(b" "),
        Part::Text(naming::controller_name(wiring, c)),
    ];
    write_line(out, sink, &parts)
}

fn write_controllers<K: Sink>(
    out: &mut LineBuffer,
    sink: &mut K,
    wiring: &Wiring,
    journals: &[Journal],
) -> Result<(), Failed>
    ensures { Puts result
        (at_rest (K.written sink.old) out.old) (at_rest (K.written sink.new) out.new)
        (controllers_text wiring.now 0 journals.now) }
{
    for (c, journal) in journals.iter().enumerate() {
        write_controller(out, sink, wiring, c, journal)?;
    }
    Ok(())
}

fn write_left_line<K: Sink>(
    out: &mut LineBuffer,
    sink: &mut K,
    wiring: &Wiring,
    left: &Left,
) -> Result<(), Failed>
    ensures { Puts result
        (at_rest (K.written sink.old) out.old) (at_rest (K.written sink.new) out.new)
        (left_line wiring.now left.now) }
{
    let place = where_word(left.pending);
    let head = [
        Part::Text(b"left "),
        Part::Number(u64::from(left.to.0)),
        Part::Text(place),
        naming::party(wiring, left.msg.from),
        Part::Text(b"@"),
        Part::Number(left.msg.stamp.0),
        Part::Text(b" "),
    ];
    write_message_line(out, sink, wiring, &head, &left.msg)
}

fn where_word(pending: bool) -> &'static [u8]
    ensures { result.now ≡ where_text pending }
{
    if pending { b" pending " } else { b" lane " }
}

/// Writes what was left untaken, a line a message.
#[tactic(auto, unfolding(crate::specs::Text::left_text))]
pub fn write_left<K: Sink>(
    out: &mut LineBuffer,
    sink: &mut K,
    wiring: &Wiring,
    left: &[Left],
) -> Result<(), Failed>
    ensures { Puts result
        (at_rest (K.written sink.old) out.old) (at_rest (K.written sink.new) out.new)
        (left_text wiring.now left.now) }
{
    for one in left {
        write_left_line(out, sink, wiring, one)?;
    }
    Ok(())
}

fn write_unposted_line<K: Sink>(
    out: &mut LineBuffer,
    sink: &mut K,
    number: u32,
) -> Result<(), Failed>
    ensures { Puts result
        (at_rest (K.written sink.old) out.old) (at_rest (K.written sink.new) out.new)
        (unposted_line number) }
{
    write_line(
        out,
        sink,
        &[Part::Text(b"unposted "), Part::Number(u64::from(number))],
    )
}

/// Writes the numbers of the lines that were not posted, each on a line.
#[tactic(auto, unfolding(crate::specs::Text::unposted_text))]
pub fn write_unposted<K: Sink>(
    out: &mut LineBuffer,
    sink: &mut K,
    numbers: &[u32],
) -> Result<(), Failed>
    ensures { Puts result
        (at_rest (K.written sink.old) out.old) (at_rest (K.written sink.new) out.new)
        (unposted_text numbers.now) }
{
    for number in numbers {
        write_unposted_line(out, sink, *number)?;
    }
    Ok(())
}

/// Writes the last line: `done` or `spent`.
pub fn write_end<K: Sink>(out: &mut LineBuffer, sink: &mut K, done: bool) -> Result<(), Failed>
    ensures { Puts result
        (at_rest (K.written sink.old) out.old) (at_rest (K.written sink.new) out.new)
        (end_line done) }
{
    if done {
        write_line(out, sink, &[Part::Text(b"done")])
    } else {
        write_line(out, sink, &[Part::Text(b"spent")])
    }
}

/// Writes the whole text through a buffer.
#[tactic(auto, unfolding(crate::specs::Text::text_of))]
pub fn write_text<K: Sink>(
    out: &mut LineBuffer,
    sink: &mut K,
    wiring: &Wiring,
    journals: &Journals,
) -> Result<(), Failed>
    ensures { Puts result
        (at_rest (K.written sink.old) out.old) (at_rest (K.written sink.new) out.new)
        (text_of wiring.now journals.now) }
{
    write_line(out, sink, &[Part::Text(b"room-journal 1")])?;
    write_controllers(out, sink, wiring, journals.controllers.as_slice())?;
    write_line(out, sink, &[Part::Text(b"environment")])?;
    write_journal(out, sink, wiring, journals.environment.as_slice())?;
    write_left(out, sink, wiring, journals.left.as_slice())?;
    write_unposted(out, sink, journals.unposted.as_slice())?;
    write_end(out, sink, journals.done)
}
