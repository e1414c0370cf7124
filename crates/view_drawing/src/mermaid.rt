//! A picture as a flowchart for Mermaid.
use crate::colours::light;
use crate::diagram::{Block, Diagram, End, Link, Mark, Point, Shape, Sign};
use crate::dot::{self, put_name};
use crate::nesting::{Step, blocks_of, steps_of};
use std::alloc::AllocError;
use view_pages::Page;

/// Puts a text between quotation marks: letters, digits and a few marks as they are, all others by their numbers.
pub fn put_letters(page: &mut Page, text: &[u8]) {
    for byte in text {
        match *byte {
            b'a'..=b'z' | b'A'..=b'Z' | b'0'..=b'9' | b' ' | b'_' | b'.' | b',' | b':' => {
                page.put(&[*byte]);
            }
            b'!'..=b'~' => {
                page.put(b"#");
                page.put_number(u64::from(*byte));
                page.put(b";");
            }
            _ => page.put(b"?"),
        }
    }
}

fn put_titles(page: &mut Page, block: &Block) {
    put_letters(page, block.title.as_slice());
    if block.has_history {
        page.put(b" H");
    }
    for note in block.notes.as_slice() {
        page.put(b"<br/>");
        put_letters(page, note.shown.as_slice());
    }
}

fn put_leaf(page: &mut Page, number: usize, block: &Block) {
    put_name(page, b"b", number);
    let (before, behind): (&[u8], &[u8]) = match block.shape {
        Shape::Start => (b"((\" ", b"\")):::filled"),
        Shape::Choice => (b"{\"", b"\"}"),
        Shape::State => (b"(\"", b"\")"),
        Shape::Frame | Shape::Actor | Shape::OptionalActor | Shape::ImportedActor => {
            (b"[\"", b"\"]")
        }
    };
    page.put(before);
    put_titles(page, block);
    page.put_line(behind);
}

/// What stands before the name of a point, and behind it.
fn mark_of(mark: Mark) -> (&'static [u8], &'static [u8]) {
    match mark {
        Mark::Port => (b"((\"", b"\")):::filled"),
        Mark::ConjugatedPort | Mark::Entry | Mark::Hidden => (b"((\"", b"\")):::hollow"),
        Mark::Exit => (b"(((\"", b"\"))):::hollow"),
        Mark::Relay => (b"[\"", b"\"]:::filled"),
        Mark::ConjugatedRelay | Mark::Door => (b"[\"", b"\"]:::hollow"),
        Mark::Access => (b"[/\"", b"\"\\]:::hollow"),
        Mark::Provision => (b"[/\"", b"\"\\]:::filled"),
    }
}

fn put_point(page: &mut Page, number: usize, point: &Point) {
    if point.mark == Mark::Hidden {
        return;
    }
    let (before, behind) = mark_of(point.mark);
    put_name(page, b"p", number);
    page.put(before);
    put_letters(page, point.name.as_slice());
    if point.places != 1 {
        page.put(b"#91;");
        page.put_number(u64::from(point.places));
        page.put(b"#93;");
    }
    if point.lost() > 0 {
        page.put(b"<br/>");
        page.put_number(u64::from(point.lost()));
        page.put(b" unjoined");
    }
    page.put_line(behind);
}

fn open(page: &mut Page, diagram: &Diagram, number: usize, block: &Block) {
    page.put(b"subgraph ");
    put_name(page, b"b", number);
    page.put(b"[\"");
    put_titles(page, block);
    page.put_line(b"\"]");
    for (order, point) in diagram.points_of(block).iter().enumerate() {
        put_point(page, block.first_point.saturating_add(order), point);
    }
}

fn put_end(page: &mut Page, end: End) {
    match end.point {
        Some(point) => put_name(page, b"p", point),
        None => put_name(page, b"b", end.block),
    }
}

fn put_link(page: &mut Page, is_directed: bool, link: &Link) {
    put_end(page, link.from);
    page.put(match (is_directed, link.is_dashed) {
        (true, true) => b" -.-> ",
        (true, false) => b" --> ",
        (false, true) => b" -.- ",
        (false, false) => b" --- ",
    });
    if !link.label.shown.is_empty() {
        page.put(b"|\"");
        put_letters(page, link.label.shown.as_slice());
        page.put(b"\"| ");
    }
    put_end(page, link.to);
    page.end_line();
}

/// The colours of the blocks that have one, and those of the marks.
fn put_colours(page: &mut Page, diagram: &Diagram) {
    for (number, block) in diagram.blocks.as_slice().iter().enumerate() {
        if block.colour.is_some() {
            page.put(b"style ");
            put_name(page, b"b", number);
            page.put(b" fill:");
            page.put_line(light(block.colour));
        }
    }
    page.put_line(b"classDef filled fill:#222222,stroke:#222222,color:#ffffff");
    page.put_line(b"classDef hollow fill:#ffffff,stroke:#222222,color:#222222");
}

/// A block for each colour.
fn put_legend(page: &mut Page, diagram: &Diagram) {
    for (number, key) in diagram.legend.as_slice().iter().enumerate() {
        if let Sign::Colour(colour) = key.sign {
            put_name(page, b"k", number);
            page.put(b"[\"");
            put_letters(page, key.text.as_slice());
            page.put_line(b"\"]");
            page.put(b"style ");
            put_name(page, b"k", number);
            page.put(b" fill:");
            page.put_line(light(Some(colour)));
        }
    }
}

/// The title above a picture, if it has one, between quotation marks as YAML has them.
pub fn put_title(page: &mut Page, title: &[u8]) {
    if title.is_empty() {
        return;
    }
    page.put_line(b"---");
    page.put(b"title: \"");
    dot::put_letters(page, title);
    page.put_line(b"\"");
    page.put_line(b"---");
}

/// A step through the blocks.
fn put_step(page: &mut Page, diagram: &Diagram, step: Step) {
    match step {
        Step::Open(number) => {
            if let Some(block) = diagram.blocks.as_slice().get(number) {
                open(page, diagram, number, block);
            }
        }
        Step::Leaf(number) => {
            if let Some(block) = diagram.blocks.as_slice().get(number) {
                put_leaf(page, number, block);
            }
        }
        Step::Close => page.put_line(b"end"),
    }
}

fn all_steps(diagram: &Diagram) -> Result<Vec<Step>, AllocError> {
    let blocks = blocks_of(diagram)?;
    steps_of(diagram, &blocks)
}

/// The blocks, each within the one that it stands in.
fn put_blocks(page: &mut Page, diagram: &Diagram) -> Result<(), AllocError> {
    let steps = all_steps(diagram)?;
    for step in steps.as_slice() {
        put_step(page, diagram, *step);
    }
    Ok(())
}

/// Puts a picture as a text of which Mermaid makes one.
pub fn put_mermaid(page: &mut Page, diagram: &Diagram) -> Result<(), AllocError> {
    put_title(page, diagram.title.as_slice());
    page.put_line(b"flowchart LR");
    put_blocks(page, diagram)?;
    for link in diagram.links.as_slice() {
        put_link(page, diagram.is_directed, link);
    }
    put_legend(page, diagram);
    put_colours(page, diagram);
    Ok(())
}
