//! The lines that the program writes of its own.
ghost use Rattle.std.specs.Prelude.{◌≡◌, ◌∷◌, [], codes, decimal, OnOk, IfErr};
ghost use Rattle.room_outside.specs.line_text.Lines.{line};
ghost use Rattle.room_outside.specs.line_text.Parts.{part_text, part_texts};
ghost use Rattle.room_outside.specs.Written.{Appends, BreaksOffAfter, Writes};
ghost use Rattle.room_run.specs.Causes.{note_of, note_of_fault, party_called, verdict_line};
ghost use Rattle.room_run.specs.Outcome.{accepted, lawful_line};

use crate::model_fault::ModelFault;
use crate::refusal::Refusal;
use room_kinds::ControllerId;
use room_outside::{Part, Sink, WriteFault, write_only_line};
use room_verify::Verdict;

/// Writes a line of a text.
fn write_text<K: Sink>(notes: &mut K, text: &[u8]) -> Result<(), WriteFault>
    ensures { Writes result (K.written notes.old) (K.written notes.new)
        (line (text.now ∷ [])) }
{
    write_only_line(notes, &[Part::Text(text)])
}

/// Writes a line of a text and a number.
fn write_number<K: Sink>(notes: &mut K, text: &[u8], number: u64) -> Result<(), WriteFault>
    ensures { Writes result (K.written notes.old) (K.written notes.new)
        (line (text.now ∷ decimal number ∷ [])) }
{
    let parts = [Part::Text(text), Part::Number(number)];
    write_only_line(notes, &parts)
}

/// Writes a line of a text, the name of a class and a number.
fn write_class<'a, K: Sink>(
    notes: &mut K,
    text: &'a [u8],
    class: &'a [u8],
    number: u64,
) -> Result<(), WriteFault>
    ensures { Writes result (K.written notes.old) (K.written notes.new) (line (text.now ∷ class.now ∷ codes " " ∷ decimal number ∷ [])) }
{
    let parts = [
        Part::Text(text),
        Part::Text(class),
        Part::Text(b" "),
        Part::Number(number),
    ];
    write_only_line(notes, &parts)
}

/// Writes a line of a text and two numbers.
fn write_place<K: Sink>(
    notes: &mut K,
    text: &[u8],
    first: u64,
    second: u64,
) -> Result<(), WriteFault>
    ensures { Writes result (K.written notes.old) (K.written notes.new) (line (text.now ∷ decimal first ∷ codes " " ∷ decimal second ∷ [])) }
{
    let parts = [
        Part::Text(text),
        Part::Number(first),
        Part::Text(b" "),
        Part::Number(second),
    ];
    write_only_line(notes, &parts)
}

/// What a party is called, where there are so many controllers.
fn party_part<'a>(controllers: u8, party: ControllerId) -> Part<'a>
    ensures { part_text result ≡ party_called controllers party.0 }
{
    if party.0 == controllers {
        Part::Text(b"env")
    } else {
        Part::Number(u64::from(party.0))
    }
}

/// Writes the line that tells of stamps of a party that don't rise.
fn write_order<K: Sink>(
    notes: &mut K,
    controllers: u8,
    party: ControllerId,
) -> Result<(), WriteFault>
    ensures { Writes result (K.written notes.old) (K.written notes.new)
        (line (codes "room: unlawful: order " ∷ party_called controllers party.0 ∷ [])) }
{
    let parts = [
        Part::Text(b"room: unlawful: order "),
        party_part(controllers, party),
    ];
    write_only_line(notes, &parts)
}

/// Writes the line that tells of an entry of a party that didn't happen.
fn write_entry<K: Sink>(
    notes: &mut K,
    controllers: u8,
    party: ControllerId,
    stamp: u64,
) -> Result<(), WriteFault>
    ensures { Writes result (K.written notes.old) (K.written notes.new)
        (line (codes "room: unlawful: entry " ∷ party_called controllers party.0 ∷ codes " "
        ∷ decimal stamp ∷ [])) }
{
    let parts = [
        Part::Text(b"room: unlawful: entry "),
        party_part(controllers, party),
        Part::Text(b" "),
        Part::Number(stamp),
    ];
    write_only_line(notes, &parts)
}

/// Writes the line of a verdict on the journals of so many controllers.
fn write_verdict<K: Sink>(
    notes: &mut K,
    controllers: u8,
    verdict: Verdict,
) -> Result<(), WriteFault>
    ensures { Writes result (K.written notes.old) (K.written notes.new)
        (verdict_line controllers verdict) }
{
    match verdict {
        Verdict::Order(party) => write_order(notes, controllers, party),
        Verdict::Start(c) => write_number(notes, b"room: unlawful: start ", u64::from(c.0)),
        Verdict::Entry(party, stamp) => write_entry(notes, controllers, party, stamp.0),
        Verdict::Left => write_text(notes, b"room: unlawful: left"),
        Verdict::Fuel(c) => write_number(notes, b"room: unlawful: fuel ", u64::from(c.0)),
        Verdict::Ended => write_text(notes, b"room: unlawful: ended"),
        Verdict::Prompt(c, stamp) => {
            write_place(notes, b"room: unlawful: prompt ", u64::from(c.0), stamp.0)
        }
        Verdict::Lawful => write_text(notes, b"lawful"),
    }
}

fn write_model_fault<K: Sink>(why: &ModelFault, notes: &mut K) -> Result<(), WriteFault>
    ensures { Writes result (K.written notes.old) (K.written notes.new)
        (note_of_fault why.now) }
{
    match why {
        ModelFault::Byte(offset) => {
            write_number(notes, b"room: model refused: byte ", *offset as u64)
        }
        ModelFault::Syntax { line } => {
            write_number(notes, b"room: model refused: syntax ", u64::from(*line))
        }
        ModelFault::Bases(rule) => {
            write_number(
                notes,
                b"room: model refused: rule ",
                u64::from(rule.number()),
            )
        }
        ModelFault::Rule(rule) => {
            write_number(
                notes,
                b"room: model refused: rule ",
                u64::from(rule.number()),
            )
        }
        ModelFault::Wiring(fault) => {
            write_number(
                notes,
                b"room: model refused: wiring ",
                u64::from(fault.number()),
            )
        }
        ModelFault::Chart { class, fault } => write_class(
            notes,
            b"room: model refused: chart ",
            class.as_bytes(),
            u64::from(fault.number()),
        ),
        ModelFault::Memory => write_text(notes, b"room: memory"),
    }
}

fn write_refusal<K: Sink>(why: &Refusal, notes: &mut K) -> Result<(), WriteFault>
    ensures { Writes result (K.written notes.old) (K.written notes.new)
        (note_of why.now) }
{
    match why {
        Refusal::Words => write_text(notes, b"room: words refused"),
        Refusal::ModelTooLong => write_text(notes, b"room: model refused: too long"),
        Refusal::Model(fault) => write_model_fault(fault, notes),
        Refusal::InjectionsTooLong => write_text(notes, b"room: injections refused: too long"),
        Refusal::InjectionsLine { line, fault } => write_place(
            notes,
            b"room: injections refused: line ",
            u64::from(*line),
            u64::from(fault.code()),
        ),
        Refusal::JournalsTooLong => write_text(notes, b"room: journals refused: too long"),
        Refusal::JournalsMalformed { offset } => {
            write_number(notes, b"room: journals refused: malformed ", *offset as u64)
        }
        Refusal::JournalsUntied { controller, stamp } => write_place(
            notes,
            b"room: journals refused: untied ",
            u64::from(controller.0),
            stamp.0,
        ),
        Refusal::Unlawful {
            verdict,
            controllers,
        } => write_verdict(notes, *controllers, *verdict),
        Refusal::ReadFault => write_text(notes, b"room: read fault"),
        Refusal::Memory => write_text(notes, b"room: memory"),
    }
}

/// Writes the line that tells of a refusal, in one piece where a piece of 4,096 bytes holds it. It
/// takes no memory.
pub(crate) fn write_note<K: Sink>(why: &Refusal, notes: &mut K) -> Result<(), WriteFault>
    ensures ok { OnOk result (Appends (K.written notes.old) (K.written notes.new)
        (note_of why.now)) }
    ensures fault { IfErr result (λ fault. BreaksOffAfter fault.taken
        (K.written notes.old) (K.written notes.new) (note_of why.now)) }
{
    write_refusal(why, notes)
}

/// Writes the line that says that journals are lawful, in one piece. It takes no memory.
pub(crate) fn write_lawful<K: Sink>(out: &mut K) -> Result<(), WriteFault>
    ensures ok { OnOk result (Appends (K.written out.old) (K.written out.new) lawful_line) }
    ensures fault { IfErr result (λ fault. BreaksOffAfter fault.taken
        (K.written out.old) (K.written out.new) lawful_line) }
{
    write_text(out, b"lawful")
}

/// Writes the line that says that a model keeps all rules and that its wiring and charts have no fault,
/// in one piece. It takes no memory.
pub(crate) fn write_ok<K: Sink>(out: &mut K) -> Result<(), WriteFault>
    ensures ok { OnOk result (Appends (K.written out.old) (K.written out.new) accepted) }
    ensures fault { IfErr result (λ fault. BreaksOffAfter fault.taken
        (K.written out.old) (K.written out.new) accepted) }
{
    write_text(out, b"ok")
}
