//! A run as a graph for Graphviz, in which each lifeline is a chain of rows, and rows of one time have one rank.
use crate::colours::light;
use crate::dot::{put_letters, put_name};
use crate::sequence::{Event, Lead, Row, Sequence, Way};
use std::alloc::AllocError;
use view_pages::Page;

/// The lifelines' heads in boxes for their groups.
fn put_heads(page: &mut Page, sequence: &Sequence) {
    for (number, lifeline) in sequence.lifelines.as_slice().iter().enumerate() {
        put_name(page, b"l", number);
        put_name(page, b" [group=a", number);
        page.put(b" shape=box style=filled fillcolor=\"");
        page.put(light(sequence.colour_of(lifeline)));
        page.put(b"\" label=\"");
        put_letters(page, lifeline.title.as_slice());
        page.put(b"\\n");
        if let Some(group) = sequence.groups.as_slice().get(lifeline.group) {
            put_letters(page, group.title.as_slice());
        }
        page.put_line(b"\"]");
    }
}

/// How a row is drawn.
fn look_of(event: Event) -> &'static [u8] {
    match event {
        Event::Post | Event::Note | Event::Divider => b"shape=plaintext",
        Event::Taken => b"shape=box",
        Event::Deferred => b"shape=box style=dashed",
        Event::State => b"shape=box style=rounded",
        Event::Unhandled | Event::Discarded | Event::Trouble => {
            b"shape=box color=\"#cc0000\" fontcolor=\"#cc0000\""
        }
    }
}

fn put_row(page: &mut Page, number: usize, row: &Row) {
    put_name(page, b"r", number);
    put_name(page, b" [group=a", row.lifeline);
    page.put(b" ");
    page.put(look_of(row.event));
    page.put(b" label=\"");
    put_letters(page, row.text.whole.as_slice());
    page.put_line(b"\"]");
}

/// The time of a row, or the text of a divider, below that of the row before.
fn put_time(page: &mut Page, number: usize, row: &Row) {
    put_name(page, b"t", number);
    page.put(b" [shape=plaintext group=t label=\"");
    if let Some(stamp) = row.stamp {
        page.put_number(stamp);
    }
    if row.event == Event::Divider {
        put_letters(page, row.text.whole.as_slice());
    }
    page.put_line(b"\"]");
}

/// Joins a node of a chain to the next one.
fn put_step(page: &mut Page, look: &[u8]) {
    page.put(b" [arrowhead=none weight=100 ");
    page.put(look);
    page.put_line(b"]");
}

/// The clock: a chain of times, each of the rank of its row.
fn put_clock(page: &mut Page, sequence: &Sequence) {
    page.put_line(b"clock [shape=plaintext group=t label=\"logical clock\"]");
    for (number, row) in sequence.rows.as_slice().iter().enumerate() {
        put_time(page, number, row);
        match number.checked_sub(1) {
            Some(before) => put_name(page, b"t", before),
            None => page.put(b"clock"),
        }
        page.put(b" -> ");
        put_name(page, b"t", number);
        put_step(page, b"style=invis");
        if row.event != Event::Divider {
            put_name(page, b"{rank=same; t", number);
            put_name(page, b"; r", number);
            page.put_line(b"}");
        }
    }
}

/// The row of each lifeline that was drawn last.
#[derive(Drop)]
struct Chains {
    last: Vec<Option<usize>>,
}

impl Chains {
    /// Joins a row to the one before it on its lifeline, or to the head.
    fn join(&mut self, page: &mut Page, number: usize, lifeline: usize) {
        let Some(last) = self.last.as_mut_slice().get_mut(lifeline) else {
            return;
        };
        match *last {
            Some(before) => put_name(page, b"r", before),
            None => put_name(page, b"l", lifeline),
        }
        page.put(b" -> ");
        put_name(page, b"r", number);
        put_step(page, b"color=\"#999999\"");
        *last = Some(number);
    }
}

/// The rows, each joined to the one before it on its lifeline.
fn put_rows(page: &mut Page, sequence: &Sequence) -> Result<(), AllocError> {
    let mut chains = Chains {
        last: vec![in sequence.alloc; None; sequence.lifelines.len()]?,
    };
    for (number, row) in sequence.rows.as_slice().iter().enumerate() {
        if row.event != Event::Divider {
            put_row(page, number, row);
            chains.join(page, number, row.lifeline);
        }
    }
    Ok(())
}

/// A message on its way to a row, or to a lifeline where its turn isn't drawn.
fn put_way(page: &mut Page, number: usize, lead: Lead) {
    put_name(page, b"r", number);
    page.put(b" -> ");
    match lead.way {
        Way::Open => put_name(page, b"l", lead.lifeline),
        Way::Sent | Way::PutOff => put_name(page, b"r", lead.row),
    }
    page.put_line(match lead.way {
        Way::Sent => b" [color=\"#1f4e79\" constraint=false]",
        Way::PutOff => b" [color=\"#1f4e79\" style=dashed constraint=false]",
        Way::Open => b" [color=\"#999999\" style=dashed constraint=false]",
    });
}

/// Puts a run as a text of which `dot` makes a graph: a chain of rows for each lifeline, one for the clock, and
/// messages between rows.
pub fn put_sequence_dot(page: &mut Page, sequence: &Sequence) -> Result<(), AllocError> {
    page.put_line(b"digraph run {");
    page.put(b"graph [rankdir=TB ranksep=0.1 fontname=monospace newrank=true labelloc=t label=\"");
    put_letters(page, sequence.title.as_slice());
    page.put_line(b"\"]");
    page.put_line(b"node [fontname=monospace fontsize=10 height=0.25]");
    page.put(b"{rank=same; clock");
    for number in 0..sequence.lifelines.len() {
        put_name(page, b" -> l", number);
    }
    page.put_line(b" [style=invis]}");
    put_heads(page, sequence);
    put_clock(page, sequence);
    put_rows(page, sequence)?;
    for (number, row) in sequence.rows.as_slice().iter().enumerate() {
        if let Some(lead) = row.lead {
            put_way(page, number, lead);
        }
    }
    page.put_line(b"}");
    Ok(())
}
