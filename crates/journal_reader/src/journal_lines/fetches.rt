//! Lines of fetches in form 2.
ghost use Rattle.std.specs.Prelude.{◌≡◌, length, OnOk};
ghost use Rattle.journal_reader.specs.journal_lines.Fetches.{outline_in, fetched_after, further, fetches};

use crate::journal_lines::draft::Draft;
use crate::journal_lines::fields::party;
use crate::journal_lines::rest::{Rest, number};
use journal::Entry;
use room_kinds::{ControllerId, Endpoint, Generation, Msg, Payload, Priority, SlotId, Stamp};
use room_wiring::wiring_names::Names;
use std::alloc::{AllocError, Global};

/// A message of which its parties and its stamp alone are known.
#[tactic(auto, unfolding(crate::specs::journal_lines::Fetches::outline_in))]
fn outline(alloc: Global, names: &Names<'_>, to: ControllerId, word: &[u8]) -> Msg
    ensures { result ≡ outline_in names.now to word.now }
{
    let mut rest = Rest::new(word);
    let from = party(names, rest.take_until(b'@'));
    Msg {
        from,
        to,
        prio: Priority(0),
        stamp: Stamp(number(rest.bytes())),
        source: None,
        target: Endpoint {
            slot: SlotId(0),
            generation: Generation(0),
            port: 0,
            place: 0,
        },
        signal: 0,
        payload: Payload::empty(alloc),
    }
}

/// The stamp of a fetch directly after one at `before`.
fn fetched_after(before: u64, sent: Stamp) -> u64
    ensures { result ≡ fetched_after before sent.0 }
{
    before.max(sent.0).saturating_add(1)
}

/// The fetches behind the first one of a line, which has the stamp `first`.
fn further(
    alloc: Global,
    names: &Names<'_>,
    draft: &mut Draft,
    first: u64,
    mut rest: Rest<'_>,
) -> Result<(), AllocError>
    ensures { OnOk result (draft.new
        ≡ further (length rest.entry) names.now draft.old first rest.entry) }
{
    let mut before = first;
    while !rest.is_empty() {
        let msg = outline(alloc, names, draft.party, rest.take_until(b' '));
        before = fetched_after(before, msg.stamp);
        let stamp = Stamp(before);
        draft.enter(alloc, Entry::Fetch { stamp, msg })?;
    }
    Ok(())
}

/// A line of fetches, of which the first has this stamp.
#[tactic(auto, unfolding(crate::specs::journal_lines::Fetches::fetches))]
pub fn fetches(
    alloc: Global,
    names: &Names<'_>,
    draft: &mut Draft,
    first: u64,
    mut rest: Rest<'_>,
) -> Result<(), AllocError>
    ensures { OnOk result (draft.new ≡ fetches names.now draft.old first rest.entry) }
{
    let msg = outline(alloc, names, draft.party, rest.take_until(b' '));
    let stamp = Stamp(first);
    draft.enter(alloc, Entry::Fetch { stamp, msg })?;
    further(alloc, names, draft, first, rest)
}
