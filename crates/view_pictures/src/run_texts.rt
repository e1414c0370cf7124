//! The texts in the picture of a run.
use crate::cast::MOST_LIFELINES;
use crate::choice::Crowd;
use journal::{Did, Journals, naming};
use room_kinds::{Msg, Note, SlotId};
use room_wiring::Wiring;
use std::alloc::{AllocError, Global};
use view_drawing::Label;
use view_journals::{
    Difference, Moment, Said, Turn, end_word, put_difference, put_incoming, put_moment, put_name,
    put_note, word_of,
};
use view_pages::Page;

/// A label with the bytes of a page.
fn label_of(alloc: Global, page: &Page) -> Result<Label, AllocError> {
    Label::of(alloc, Vec::from_slice(alloc, page.bytes()?)?)
}

/// A message as its receiver sees it, without the priority that a message has where nothing else is said.
pub fn message_label(alloc: Global, wiring: &Wiring, msg: &Msg) -> Result<Label, AllocError> {
    let mut page = Page::new(alloc);
    put_incoming(&mut page, wiring, msg);
    let text = page.bytes()?;
    let text = text.strip_suffix(b" general").unwrap_or(text);
    Label::of(alloc, Vec::from_slice(alloc, text)?)
}

/// What is shown of a turn beside its sign.
fn shown_of(did: Did) -> &'static [u8] {
    match did {
        Did::Handled { .. } => b"",
        Did::Duty => b"duty",
        Did::Deferred { .. } => b"deferred",
        Did::Unhandled { .. } => b"unhandled",
        Did::Stale { .. } => b"discarded, the actor is gone",
        Did::Empty { .. } => b"discarded, nobody is there",
    }
}

/// What a turn did; as a whole with its message.
pub fn turn_label(
    alloc: Global,
    wiring: &Wiring,
    turn: &Turn<'_>,
    msg: Option<&Msg>,
) -> Result<Label, AllocError> {
    let mut page = Page::new(alloc);
    page.put(word_of(turn.did));
    put_name(&mut page, wiring, turn.from, turn.sent);
    if let Some(msg) = msg {
        page.put(b" ");
        put_incoming(&mut page, wiring, msg);
    }
    Ok(Label {
        shown: Vec::from_slice(alloc, shown_of(turn.did))?,
        whole: Vec::from_slice(alloc, page.bytes()?)?,
    })
}

/// The name of a state, if the slot's class has states.
pub fn state_label(
    alloc: Global,
    wiring: &Wiring,
    slot: SlotId,
    state: u16,
) -> Result<Option<Label>, AllocError> {
    let name = naming::state_label(wiring, slot, state);
    let nothing: &[u8] = b"-";
    if name == nothing {
        return Ok(None);
    }
    Ok(Some(Label::of(alloc, Vec::from_slice(alloc, name)?)?))
}

/// A note of actors of a slot, and what was said where nobody hears it.
pub fn note_label(
    alloc: Global,
    wiring: &Wiring,
    speaker: Option<SlotId>,
    note: &Note,
    said: Option<&Said>,
) -> Result<Label, AllocError> {
    let mut page = Page::new(alloc);
    put_note(&mut page, wiring, speaker, note, said);
    label_of(alloc, &page)
}

/// A text with a number in it.
fn counted(
    alloc: Global,
    before: &[u8],
    number: usize,
    behind: &[u8],
) -> Result<Label, AllocError> {
    let mut page = Page::new(alloc);
    page.put(before);
    page.put_number(number as u64);
    page.put(behind);
    whole_label(alloc, &page)
}

/// A label that is shown as a whole.
fn whole_label(alloc: Global, page: &Page) -> Result<Label, AllocError> {
    Ok(Label {
        shown: Vec::from_slice(alloc, page.bytes()?)?,
        whole: Vec::from_slice(alloc, page.bytes()?)?,
    })
}

/// A label with this text.
fn plain_label(alloc: Global, text: &[u8]) -> Result<Label, AllocError> {
    let mut page = Page::new(alloc);
    page.put(text);
    whole_label(alloc, &page)
}

/// Where all was quiet, and the environment went on: at a moment, when that was.
pub fn settle_text(
    alloc: Global,
    wiring: &Wiring,
    moment: Option<Moment>,
) -> Result<Label, AllocError> {
    let Some(moment) = moment else {
        return plain_label(alloc, b"settle");
    };
    let mut page = Page::new(alloc);
    put_moment(&mut page, wiring, moment);
    whole_label(alloc, &page)
}

/// Where journals are those of another model.
pub fn difference_text(
    alloc: Global,
    wiring: &Wiring,
    difference: &Difference,
) -> Result<Label, AllocError> {
    let mut page = Page::new(alloc);
    put_difference(&mut page, wiring, difference);
    whole_label(alloc, &page)
}

/// That turns aren't drawn between those that are.
pub fn gap_text(alloc: Global, turns: usize) -> Result<Label, AllocError> {
    if turns == 1 {
        return plain_label(alloc, b"cut: 1 turn isn't drawn here");
    }
    counted(alloc, b"cut: ", turns, b" turns aren't drawn here")
}

/// Who is passed over, if anybody is.
pub fn crowd_text(alloc: Global, crowd: Crowd) -> Result<Option<Label>, AllocError> {
    let behind: &[u8] = match crowd {
        Crowd::Seated => return Ok(None),
        Crowd::Idle => b" actors: those to whom nothing happens aren't drawn",
        Crowd::Unnamed => b" actors: only those that --actor names are drawn by themselves",
        Crowd::Late => b" actors: the first are drawn by themselves; --actor PATH chooses",
    };
    let text = counted(alloc, b"more than ", MOST_LIFELINES, behind)?;
    Ok(Some(text))
}

/// That messages aren't drawn that go between those who have no lifelines of their own.
pub fn undrawn_text(alloc: Global, messages: usize) -> Result<Label, AllocError> {
    counted(
        alloc,
        b"cut: ",
        messages,
        b" messages to others aren't drawn",
    )
}

/// How a run ended.
pub fn end_text(alloc: Global, journals: &Journals) -> Result<Label, AllocError> {
    let mut page = Page::new(alloc);
    page.put(end_word(journals.done));
    if !journals.unposted.is_empty() {
        page.put(b"; lines not posted: ");
        page.put_number(journals.unposted.len() as u64);
    }
    whole_label(alloc, &page)
}
