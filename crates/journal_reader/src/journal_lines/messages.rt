//! Messages, what a turn did, and notes.
ghost use Rattle.std.specs.Prelude.{◌≡◌, ◌≤◌, length, IfOk};
ghost use Rattle.journal_reader.specs.journal_lines.Fields.{incarnation_in};
ghost use Rattle.journal_reader.specs.journal_lines.Messages.{numbers_in, message_in, state_after, did_in, unbound_in, up_in, down_in, note_in};

use crate::journal_lines::fields::{endpoint, incarnation, signal, source, speaking_port, state};
use crate::journal_lines::rest::{Rest, byte, is, number, signed};
use journal::Did;
use room_kinds::{ControllerId, Incarnation, Msg, Note, Payload, Priority, SlotId, Stamp};
use room_wiring::wiring_names::Names;
use std::alloc::{AllocError, Global};

/// The numbers that are left on a line, at most 64.
#[tactic(auto, unfolding(crate::specs::journal_lines::Messages::numbers_in))]
fn payload(alloc: Global, bytes: &[u8]) -> Result<Payload, AllocError>
    ensures { IfOk result (λ p. p ≡ numbers_in bytes.now) }
{
    let mut rest = Rest::new(bytes);
    let mut payload = Payload::empty(alloc);
    while !rest.is_empty() && payload.numbers().len() < Payload::MAX_LEN {
        payload.push(signed(rest.take_until(b' ')))?;
    }
    Ok(payload)
}

/// Who sent a message to whom, and when.
#[derive(Clone, Copy)]
pub struct Sent {
    pub from: ControllerId,
    pub to: ControllerId,
    pub stamp: Stamp,
}

/// The message that stands at the end of a line.
#[tactic(auto, unfolding(crate::specs::journal_lines::Messages::message_in))]
pub fn message(
    alloc: Global,
    names: &Names<'_>,
    sent: Sent,
    mut rest: Rest<'_>,
) -> Result<Msg, AllocError>
    ensures { IfOk result (λ m.
        m ≡ message_in names.now sent.from.0 sent.to.0 sent.stamp.0 rest.entry) }
{
    let prio = Priority(byte(rest.take_until(b' ')));
    let source = source(names, &mut rest);
    let target = endpoint(names, &mut rest);
    let signal = signal(names, prio, target, rest.take_until(b' '));
    let payload = payload(alloc, rest.bytes())?;
    Ok(Msg {
        from: sent.from,
        to: sent.to,
        prio,
        stamp: sent.stamp,
        source,
        target,
        signal,
        payload,
    })
}

/// An actor, and its state at the end of the line.
pub fn standing(names: &Names<'_>, mut rest: Rest<'_>) -> (Incarnation, u16)
    ensures who { result.0 ≡ incarnation_in names.now rest.entry }
    ensures state { result.1 ≡ state_after names.now rest.entry }
{
    let who = incarnation(names, &mut rest);
    let state = state(names, who.slot, rest.bytes());
    (who, state)
}

/// What a turn did.
#[tactic(auto, unfolding(crate::specs::journal_lines::Messages::did_in))]
pub fn did(names: &Names<'_>, mut rest: Rest<'_>) -> Did
    ensures { result ≡ did_in names.now rest.entry }
{
    let word = rest.take_until(b' ');
    let (who, state) = standing(names, rest);
    if is(word, "duty") {
        Did::Duty
    } else if is(word, "handled") {
        Did::Handled { who, state }
    } else if is(word, "deferred") {
        Did::Deferred { who, state }
    } else if is(word, "unhandled") {
        Did::Unhandled { who, state }
    } else if is(word, "stale") {
        Did::Stale { target: who }
    } else {
        Did::Empty { target: who }
    }
}

/// A send at a place that isn't joined, a note of who speaks.
fn unbound(names: &Names<'_>, speaker: Option<SlotId>, mut rest: Rest<'_>) -> Note
    ensures { result ≡ unbound_in names.now speaker rest.entry }
{
    let port = speaking_port(names, speaker, rest.take_until(b'['));
    let place = signed(rest.take_until(b']'));
    Note::Unbound { port, place }
}

fn up(names: &Names<'_>, rest: Rest<'_>) -> Note
    ensures { result ≡ up_in names.now rest.entry }
{
    let (who, state) = standing(names, rest);
    Note::Up { who, state }
}

fn down(names: &Names<'_>, mut rest: Rest<'_>) -> Note
    ensures { result ≡ down_in names.now rest.entry }
{
    let who = incarnation(names, &mut rest);
    let lost = number(rest.bytes());
    Note::Down { who, lost }
}

/// A note of who speaks.
#[tactic(auto, unfolding(crate::specs::journal_lines::Messages::note_in))]
pub fn note(names: &Names<'_>, speaker: Option<SlotId>, mut rest: Rest<'_>) -> Note
    ensures { result ≡ note_in names.now speaker rest.entry }
{
    let word = rest.take_until(b' ');
    if is(word, "zero") {
        Note::Zero
    } else if is(word, "nomessage") {
        Note::NoMessage
    } else if is(word, "unbound") {
        unbound(names, speaker, rest)
    } else if is(word, "recall") {
        Note::Recall {
            count: number(rest.bytes()),
        }
    } else if is(word, "up") {
        up(names, rest)
    } else {
        down(names, rest)
    }
}
