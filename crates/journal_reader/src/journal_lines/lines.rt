//! Lines, one after another.
ghost use Rattle.std.specs.Prelude.{◌≡◌, OnOk, IfOk};
ghost use Rattle.journal_reader.specs.journal_lines.Drafts.{nothing_read, with_unposted, titled_by};
ghost use Rattle.journal_reader.specs.journal_lines.Numerals.{upto, byte_in, word_in};
ghost use Rattle.journal_reader.specs.journal_lines.Reading.{fetched, any_fetched, turned, posted, timed, started, left_message, left_behind, worded, taking, reading, journals_in};

use crate::journal_lines::draft::{Draft, Head};
use crate::journal_lines::fetches::fetches;
use crate::journal_lines::fields::party;
use crate::journal_lines::messages::{Sent, did, message, note, standing};
use crate::journal_lines::rest::{Rest, begins_digit, byte, is, number, word};
use journal::{Entry, Journals, Left};
use room_kinds::{ControllerId, Stamp};
use room_wiring::wiring_names::Names;
use std::alloc::{AllocError, Global};

#[tactic(auto, unfolding(crate::specs::journal_lines::Reading::fetched))]
fn fetch(
    alloc: Global,
    names: &Names<'_>,
    draft: &mut Draft,
    stamp: u64,
    mut rest: Rest<'_>,
) -> Result<(), AllocError>
    ensures { OnOk result (draft.new ≡ fetched names.now draft.old stamp rest.entry) }
{
    let from = party(names, rest.take_until(b'@'));
    let sent = Sent {
        from,
        to: draft.party,
        stamp: Stamp(number(rest.take_until(b' '))),
    };
    let msg = message(alloc, names, sent, rest)?;
    draft.enter(
        alloc,
        Entry::Fetch {
            stamp: Stamp(stamp),
            msg,
        },
    )
}

/// A fetch in the form of the text.
#[tactic(auto, unfolding(crate::specs::journal_lines::Reading::any_fetched))]
fn any_fetch(
    alloc: Global,
    names: &Names<'_>,
    draft: &mut Draft,
    stamp: u64,
    rest: Rest<'_>,
) -> Result<(), AllocError>
    ensures { OnOk result (draft.new ≡ any_fetched names.now draft.old stamp rest.entry) }
{
    if draft.tied {
        fetches(alloc, names, draft, stamp, rest)
    } else {
        fetch(alloc, names, draft, stamp, rest)
    }
}

#[tactic(auto, unfolding(crate::specs::journal_lines::Reading::turned))]
fn turn(
    alloc: Global,
    names: &Names<'_>,
    draft: &mut Draft,
    stamp: u64,
    mut rest: Rest<'_>,
) -> Result<(), AllocError>
    ensures { OnOk result (draft.new ≡ turned names.now draft.old stamp rest.entry) }
{
    let from = party(names, rest.take_until(b'@'));
    let sent = Stamp(number(rest.take_until(b' ')));
    let did = did(names, rest);
    let head = Head::Turn {
        stamp: Stamp(stamp),
        from,
        sent,
        did,
    };
    draft.open(alloc, head, did.speaker())
}

#[tactic(auto, unfolding(crate::specs::journal_lines::Reading::posted))]
fn post(
    alloc: Global,
    names: &Names<'_>,
    draft: &mut Draft,
    stamp: u64,
    mut rest: Rest<'_>,
) -> Result<(), AllocError>
    ensures { OnOk result (draft.new ≡ posted names.now draft.old stamp rest.entry) }
{
    let sent = Sent {
        from: draft.party,
        to: ControllerId(byte(rest.take_until(b' '))),
        stamp: Stamp(stamp),
    };
    let msg = message(alloc, names, sent, rest)?;
    draft.enter(
        alloc,
        Entry::Post {
            stamp: Stamp(stamp),
            msg,
        },
    )
}

/// A line that begins with a stamp.
#[tactic(auto, unfolding(crate::specs::journal_lines::Reading::timed))]
fn timed(
    alloc: Global,
    names: &Names<'_>,
    draft: &mut Draft,
    stamp: u64,
    mut rest: Rest<'_>,
) -> Result<(), AllocError>
    ensures { OnOk result (draft.new ≡ timed names.now draft.old stamp rest.entry) }
{
    let word = rest.take_until(b' ');
    if is(word, "fetch") {
        any_fetch(alloc, names, draft, stamp, rest)
    } else if is(word, "turn") {
        turn(alloc, names, draft, stamp, rest)
    } else if is(word, "post") {
        post(alloc, names, draft, stamp, rest)
    } else {
        Ok(())
    }
}

#[tactic(auto, unfolding(crate::specs::journal_lines::Reading::started))]
fn start(
    alloc: Global,
    names: &Names<'_>,
    draft: &mut Draft,
    rest: Rest<'_>,
) -> Result<(), AllocError>
    ensures { OnOk result (draft.new ≡ started names.now draft.old rest.entry) }
{
    let (who, state) = standing(names, rest);
    draft.open(alloc, Head::Start { who, state }, Some(who.slot))
}

#[tactic(auto, unfolding(crate::specs::journal_lines::Reading::left_message))]
fn left_message(
    alloc: Global,
    names: &Names<'_>,
    draft: &mut Draft,
    to: ControllerId,
    pending: bool,
    mut rest: Rest<'_>,
) -> Result<(), AllocError>
    ensures { OnOk result (draft.new ≡ left_message names.now draft.old to.0 pending rest.entry) }
{
    let from = party(names, rest.take_until(b'@'));
    let sent = Sent {
        from,
        to,
        stamp: Stamp(number(rest.take_until(b' '))),
    };
    let msg = message(alloc, names, sent, rest)?;
    draft.left.push(Left { to, pending, msg })?;
    Ok(())
}

fn left(
    alloc: Global,
    names: &Names<'_>,
    draft: &mut Draft,
    mut rest: Rest<'_>,
) -> Result<(), AllocError>
    ensures { OnOk result (draft.new ≡ left_behind names.now draft.old rest.entry) }
{
    let to = ControllerId(byte(rest.take_until(b' ')));
    let pending = is(rest.take_until(b' '), "pending");
    left_message(alloc, names, draft, to, pending, rest)
}

fn unposted(draft: &mut Draft, rest: Rest<'_>) -> Result<(), AllocError>
    ensures { OnOk result (draft.new ≡ with_unposted draft.old (word_in rest.entry)) }
{
    draft.unposted.push(word(rest.bytes()))?;
    Ok(())
}

fn controller(alloc: Global, draft: &mut Draft, mut rest: Rest<'_>) -> Result<(), AllocError>
    ensures { OnOk result (draft.new
        ≡ titled_by draft.old (record { 0 = byte_in (upto 32 rest.entry) })) }
{
    let party = ControllerId(byte(rest.take_until(b' ')));
    draft.begin(alloc, party)
}

/// A line that begins with a word.
#[tactic(auto, unfolding(crate::specs::journal_lines::Reading::worded))]
fn worded(
    alloc: Global,
    names: &Names<'_>,
    draft: &mut Draft,
    word: &[u8],
    rest: Rest<'_>,
) -> Result<(), AllocError>
    ensures { OnOk result (draft.new ≡ worded names.now draft.old word.now rest.entry) }
{
    if is(word, "note") {
        draft.annotate(note(names, draft.speaker, rest))
    } else if is(word, "start") {
        start(alloc, names, draft, rest)
    } else if is(word, "left") {
        left(alloc, names, draft, rest)
    } else if is(word, "unposted") {
        unposted(draft, rest)
    } else if is(word, "controller") {
        controller(alloc, draft, rest)
    } else if is(word, "environment") {
        draft.begin(alloc, ControllerId(names.controller_count()))
    } else if is(word, "done") {
        draft.done = true;
        Ok(())
    } else if is(word, "room-journal") {
        draft.set_form(rest.bytes());
        Ok(())
    } else {
        Ok(())
    }
}

#[tactic(auto, unfolding(crate::specs::journal_lines::Reading::taking))]
fn take(alloc: Global, names: &Names<'_>, draft: &mut Draft, line: &[u8]) -> Result<(), AllocError>
    ensures { OnOk result (draft.new ≡ taking names.now draft.old line.now) }
{
    let mut rest = Rest::new(line);
    let first = rest.take_until(b' ');
    if begins_digit(line) {
        timed(alloc, names, draft, number(first), rest)
    } else {
        worded(alloc, names, draft, first, rest)
    }
}

fn read_lines(alloc: Global, names: &Names<'_>, bytes: &[u8]) -> Result<Draft, AllocError>
    ensures { IfOk result (λ d. d ≡ reading names.now nothing_read bytes.now) }
{
    let mut draft = Draft::new(alloc);
    let mut rest = Rest::new(bytes);
    while !rest.is_empty() {
        let line = rest.take_until(b'\n');
        take(alloc, names, &mut draft, line)?;
    }
    Ok(draft)
}

/// The journals as which a text is read. It takes time and memory in proportion to the text.
#[tactic(auto, unfolding(crate::specs::journal_lines::Reading::journals_in))]
pub fn read(alloc: Global, names: &Names<'_>, bytes: &[u8]) -> Result<Journals, AllocError>
    ensures { IfOk result (λ j. j ≡ journals_in names.now bytes.now) }
{
    let draft = read_lines(alloc, names, bytes)?;
    draft.finish(alloc)
}
