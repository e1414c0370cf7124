//! What a chart's replay tells of a turn: the attributes of its actor.
use crate::chart_replays::Passed;
use room_wiring::ClassNames;
use view_journals::put_attributes;
use view_pages::Page;

/// A turn of an actor, as its chart does it again: the numbers of its attributes before and after, in order of
/// declaration, whether each of the transitions that are tried would be taken, in the order in which they are, and the
/// steps of the chain of the one that was.
#[derive(Drop)]
pub struct Replayed {
    pub before: Vec<i64>,
    pub after: Vec<i64>,
    pub holds: Vec<bool>,
    pub passed: Vec<Passed>,
}

/// Tells the attributes of an actor before and after a turn, by their names.
pub(crate) fn tell_attributes(page: &mut Page, class: &ClassNames, replayed: &Replayed) {
    if !class.attributes.is_empty() {
        page.put(b"    ");
        let after = replayed.after.as_slice();
        put_attributes(page, class, replayed.before.as_slice(), after);
        page.end_line();
    }
}
