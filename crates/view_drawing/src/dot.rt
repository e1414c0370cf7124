//! A picture as a graph for Graphviz.
use crate::colours::light;
use crate::diagram::{Block, Diagram, End, Leads, Link, Mark, Point, Shape, Sign};
use crate::nesting::{Blocks, Step, blocks_of, is_set, steps_of};
use std::alloc::AllocError;
use view_pages::Page;

/// Puts a text between quotation marks.
pub fn put_letters(page: &mut Page, text: &[u8]) {
    for byte in text {
        match *byte {
            b'"' => page.put(b"\\\""),
            b'\\' => page.put(b"\\\\"),
            b' '..=b'~' => page.put(&[*byte]),
            _ => page.put(b"?"),
        }
    }
}

pub fn put_name(page: &mut Page, kind: &[u8], number: usize) {
    page.put(kind);
    page.put_number(number as u64);
}

/// The title of a block and the lines below it.
fn put_titles(page: &mut Page, block: &Block) {
    page.put(b"label=\"");
    put_letters(page, block.title.as_slice());
    for note in block.notes.as_slice() {
        page.put(b"\\n");
        put_letters(page, note.shown.as_slice());
    }
    page.put(b"\"");
}

/// How the border of a block is drawn.
fn style_of(shape: Shape) -> &'static [u8] {
    match shape {
        Shape::OptionalActor => b"filled,dashed",
        Shape::ImportedActor => b"filled,dotted",
        Shape::State => b"filled,rounded",
        Shape::Frame | Shape::Actor | Shape::Choice | Shape::Start => b"filled",
    }
}

fn shape_of(shape: Shape) -> &'static [u8] {
    match shape {
        Shape::Choice => b"diamond",
        Shape::Start => b"point",
        Shape::Frame | Shape::Actor | Shape::OptionalActor | Shape::ImportedActor | Shape::State =>
            b"box",
    }
}

fn put_style(page: &mut Page, block: &Block) {
    page.put(b"style=\"");
    page.put(style_of(block.shape));
    page.put(b"\" fillcolor=\"");
    page.put(light(block.colour));
    page.put(b"\"");
    if block.copies > 1 {
        page.put(b" peripheries=2");
    }
}

fn put_leaf(page: &mut Page, number: usize, block: &Block) {
    put_name(page, b"b", number);
    page.put(b" [shape=");
    page.put(shape_of(block.shape));
    if block.shape != Shape::Start {
        page.put(b" ");
        put_titles(page, block);
        page.put(b" ");
        put_style(page, block);
    }
    page.put_line(b"]");
}

/// How a point is drawn: the shape and the filling.
fn mark_of(mark: Mark) -> (&'static [u8], &'static [u8]) {
    match mark {
        Mark::Port => (b"circle", b"#222222"),
        Mark::ConjugatedPort | Mark::Entry | Mark::Hidden => (b"circle", b"#ffffff"),
        Mark::Exit => (b"doublecircle", b"#ffffff"),
        Mark::Relay => (b"square", b"#222222"),
        Mark::ConjugatedRelay | Mark::Door => (b"square", b"#ffffff"),
        Mark::Access => (b"triangle", b"#ffffff"),
        Mark::Provision => (b"triangle", b"#222222"),
    }
}

fn put_point(page: &mut Page, number: usize, point: &Point) {
    if point.mark == Mark::Hidden {
        return;
    }
    let (shape, filling) = mark_of(point.mark);
    put_name(page, b"p", number);
    page.put(b" [shape=");
    page.put(shape);
    page.put(b" style=filled fillcolor=\"");
    page.put(filling);
    page.put(b"\" fixedsize=true width=0.15 height=0.15 label=\"\" xlabel=\"");
    put_letters(page, point.name.as_slice());
    if point.places != 1 {
        page.put(b"[");
        page.put_number(u64::from(point.places));
        page.put(b"]");
    }
    page.put(b"\"");
    put_leads(page, point);
    page.put_line(b"]");
}

/// Where a point leads whose places aren't all joined.
fn put_leads(page: &mut Page, point: &Point) {
    if point.unjoined == 0 {
        return;
    }
    match point.leads {
        Leads::Within => {
            page.put(b" color=\"#cc0000\" tooltip=\"");
            page.put_number(u64::from(point.unjoined));
            page.put(b" unjoined\"");
        }
        Leads::Outside => page.put(b" color=\"#1f8a3a\" tooltip=\"leads outside\""),
        Leads::Later => page.put(b" color=\"#6b3fa0\" tooltip=\"joined later\""),
        Leads::Nobody => page.put(b" color=\"#777777\" tooltip=\"leads to nobody\""),
    }
}

/// The node at which links end that end at a block in which something stands.
fn put_anchor(page: &mut Page, number: usize, block: &Block) {
    put_name(page, b"a", number);
    if block.has_history {
        page.put_line(b" [shape=circle label=\"H\"]");
    } else {
        page.put_line(b" [shape=point]");
    }
}

fn open(page: &mut Page, diagram: &Diagram, blocks: &Blocks, number: usize, block: &Block) {
    page.put(b"subgraph ");
    put_name(page, b"cluster_", number);
    page.put(b" { graph [");
    put_titles(page, block);
    page.put(b" ");
    put_style(page, block);
    page.put_line(b"]");
    if is_set(&blocks.is_met, number) {
        put_anchor(page, number, block);
    }
    for (order, point) in diagram.points_of(block).iter().enumerate() {
        put_point(page, block.first_point.saturating_add(order), point);
    }
}

fn put_end(page: &mut Page, blocks: &Blocks, end: End) {
    match end.point {
        Some(point) => put_name(page, b"p", point),
        None if is_set(&blocks.holds, end.block) => put_name(page, b"a", end.block),
        None => put_name(page, b"b", end.block),
    }
}

fn put_link(page: &mut Page, blocks: &Blocks, arrow: &[u8], link: &Link) {
    put_end(page, blocks, link.from);
    page.put(arrow);
    put_end(page, blocks, link.to);
    page.put(b" [label=\"");
    put_letters(page, link.label.shown.as_slice());
    page.put(b"\" tooltip=\"");
    put_letters(page, link.label.whole.as_slice());
    page.put(b"\"");
    if link.is_dashed {
        page.put(b" style=dashed");
    }
    page.put_line(b"]");
}

/// The colours, each with what it stands for.
fn put_legend(page: &mut Page, diagram: &Diagram) {
    for (number, key) in diagram.legend.as_slice().iter().enumerate() {
        if let Sign::Colour(colour) = key.sign {
            put_name(page, b"k", number);
            page.put(b" [shape=box style=filled fillcolor=\"");
            page.put(light(Some(colour)));
            page.put(b"\" label=\"");
            put_letters(page, key.text.as_slice());
            page.put_line(b"\"]");
        }
    }
}

/// The letters of the names of nodes and links.
const FONTS: &[u8] =
    b"node [fontname=monospace fontsize=10]\nedge [fontname=monospace fontsize=10]";

/// What stands before all blocks.
fn put_head(page: &mut Page, diagram: &Diagram) {
    if diagram.is_directed {
        page.put(b"di");
    }
    page.put(b"graph picture {\ngraph [rankdir=LR fontname=monospace labelloc=t label=\"");
    put_letters(page, diagram.title.as_slice());
    page.put_line(b"\"]");
    page.put_line(FONTS);
}

/// A step through the blocks.
fn put_step(page: &mut Page, diagram: &Diagram, blocks: &Blocks, step: Step) {
    match step {
        Step::Open(number) => {
            if let Some(block) = diagram.blocks.as_slice().get(number) {
                open(page, diagram, blocks, number, block);
            }
        }
        Step::Leaf(number) => {
            if let Some(block) = diagram.blocks.as_slice().get(number) {
                put_leaf(page, number, block);
            }
        }
        Step::Close => page.put_line(b"}"),
    }
}

/// The blocks, each within the one that it stands in.
fn put_blocks(page: &mut Page, diagram: &Diagram, blocks: &Blocks) -> Result<(), AllocError> {
    let steps = steps_of(diagram, blocks)?;
    for step in steps.as_slice() {
        put_step(page, diagram, blocks, *step);
    }
    Ok(())
}

fn put_links(page: &mut Page, diagram: &Diagram, blocks: &Blocks) {
    let arrow: &[u8] = if diagram.is_directed {
        b" -> "
    } else {
        b" -- "
    };
    for link in diagram.links.as_slice() {
        put_link(page, blocks, arrow, link);
    }
}

/// The blocks, and the links between them.
fn put_graph(page: &mut Page, diagram: &Diagram) -> Result<(), AllocError> {
    let blocks = blocks_of(diagram)?;
    put_blocks(page, diagram, &blocks)?;
    put_links(page, diagram, &blocks);
    Ok(())
}

/// Puts a picture as a text of which `dot` makes one.
pub fn put_dot(page: &mut Page, diagram: &Diagram) -> Result<(), AllocError> {
    put_head(page, diagram);
    put_graph(page, diagram)?;
    put_legend(page, diagram);
    page.put_line(b"}");
    Ok(())
}
