//! A run as a sequence diagram for Mermaid.
use crate::colours::light;
use crate::dot::put_name;
use crate::mermaid::{put_letters, put_title};
use crate::sequence::{Event, Lead, Row, Sequence, Way};
use view_pages::Page;

/// The value of a hexadecimal digit; 0 where it is none.
fn digit(byte: u8) -> u64 {
    match byte {
        b'0'..=b'9' => u64::from(byte - b'0'),
        b'a'..=b'f' => u64::from(byte - b'a').saturating_add(10),
        _ => 0,
    }
}

/// Puts a colour such as `#e8f0fe` by its three parts, since `#` begins a comment.
fn put_colour(page: &mut Page, colour: &[u8]) {
    let mut before: &[u8] = b"rgb(";
    for first in [1usize, 3, 5] {
        let high = digit(colour.get(first).copied().unwrap_or(0));
        let low = digit(colour.get(first.saturating_add(1)).copied().unwrap_or(0));
        page.put(before);
        page.put_number(high.saturating_mul(16).saturating_add(low));
        before = b",";
    }
    page.put(b")");
}

fn open_group(page: &mut Page, sequence: &Sequence, group: usize) {
    page.put(b"box ");
    if let Some(group) = sequence.groups.as_slice().get(group) {
        put_colour(page, light(group.colour));
        page.put(b" ");
        put_letters(page, group.title.as_slice());
    }
    page.end_line();
}

/// The lifelines in the boxes of their groups.
fn put_lifelines(page: &mut Page, sequence: &Sequence) {
    let mut open = None;
    for (number, lifeline) in sequence.lifelines.as_slice().iter().enumerate() {
        if open != Some(lifeline.group) {
            if open.is_some() {
                page.put_line(b"end");
            }
            open_group(page, sequence, lifeline.group);
            open = Some(lifeline.group);
        }
        page.put(b"participant ");
        put_name(page, b"a", number);
        page.put(b" as ");
        put_letters(page, lifeline.title.as_slice());
        page.end_line();
    }
    if open.is_some() {
        page.put_line(b"end");
    }
}

fn put_text(page: &mut Page, row: &Row, text: &[u8]) {
    page.put(b": ");
    if let Some(stamp) = row.stamp {
        page.put_number(stamp);
        page.put(b" ");
    }
    put_letters(page, text);
    page.end_line();
}

/// A message on its way: with a dashed arrow where its turn isn't drawn.
fn put_message(page: &mut Page, row: &Row, lead: Lead) {
    put_name(page, b"a", row.lifeline);
    page.put(if lead.way == Way::Open { b"--)" } else { b"-)" });
    put_name(page, b"a", lead.lifeline);
    put_text(page, row, row.text.shown.as_slice());
}

/// A note over all lifelines.
fn put_divider(page: &mut Page, sequence: &Sequence, row: &Row) {
    page.put(b"Note over a0");
    let last = sequence.lifelines.len().saturating_sub(1);
    if last > 0 {
        put_name(page, b",a", last);
    }
    put_text(page, row, row.text.shown.as_slice());
}

fn put_row(page: &mut Page, sequence: &Sequence, row: &Row) {
    if row.event == Event::Divider {
        put_divider(page, sequence, row);
        return;
    }
    if row.event == Event::Post
        && let Some(lead) = row.lead
    {
        put_message(page, row, lead);
        return;
    }
    page.put(b"Note over ");
    put_name(page, b"a", row.lifeline);
    put_text(page, row, row.text.whole.as_slice());
}

/// Puts a run as a text of which Mermaid makes a sequence diagram: a message as an arrow in the row of its post, and
/// its turn as a note.
pub fn put_sequence_mermaid(page: &mut Page, sequence: &Sequence) {
    put_title(page, sequence.title.as_slice());
    page.put_line(b"sequenceDiagram");
    put_lifelines(page, sequence);
    for row in sequence.rows.as_slice() {
        put_row(page, sequence, row);
    }
}
