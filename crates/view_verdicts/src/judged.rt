//! What is judged.
use controller_actors::Plant;
use inject_reader::Line;
use journal::{Entry, Journals};
use room_kinds::ControllerId;
use view_pages::Named;

/// Journals, the model and the lines of which they may be those of a run, and the most turns that each
/// controller may have taken in it.
#[derive(Clone, Copy)]
pub struct Judged<'a> {
    pub plant: &'a Plant,
    pub lines: &'a [Line],
    pub fuel: u64,
    pub journals: &'a Journals,
}

/// The texts of the injections and of the journals.
#[derive(Clone, Copy)]
pub struct Texts<'a> {
    pub injections: Named<'a>,
    pub journals: Named<'a>,
}

/// The entries of a party: of a controller, or of the environment behind the last of them.
pub(crate) fn entries_of(journals: &Journals, party: usize) -> &[Entry] {
    let controllers = journals.controllers.as_slice();
    match controllers.get(party) {
        Some(journal) => journal.as_slice(),
        None if party == controllers.len() => journals.environment.as_slice(),
        None => &[],
    }
}

/// A party by its number. No journals have more than 256 parties.
pub(crate) fn party_id(number: usize) -> ControllerId {
    match u8::try_from(number) {
        Ok(number) => ControllerId(number),
        Err(_) => ControllerId(u8::MAX),
    }
}

/// How many turns a journal tells.
pub(crate) fn turns_in(entries: &[Entry]) -> u64 {
    entries
        .iter()
        .filter(|entry| matches!(entry, Entry::Turn { .. }))
        .count() as u64
}

/// The fuel by which journals are those of a run, if they are by any: where the run was done, so many turns
/// as a controller took, or more; where its fuel ended it, exactly as many as one of them took.
pub fn fuel_told(journals: &Journals) -> u64 {
    let mut most = 0u64;
    for journal in journals.controllers.as_slice() {
        most = most.max(turns_in(journal.as_slice()));
    }
    most
}
