//! A run as SVG: lifelines in bands of the colours of their groups, time from above to below.
use crate::colours::light;
use crate::grid::{CLOCK, Grid, HEAD, LOOP, TOP, grid_of};
use crate::place::{PAD, ROW, sum, text_width};
use crate::sequence::{Event, Lead, Row, Sequence, Way};
use crate::shapes::{
    Anchor, Area, BLACK, GREY, Ink, RED, WHITE, before, behind, plain_ink, put_area, put_circle,
    put_corners, put_head, put_line_to, put_path, put_title, put_tooltip, put_words,
};
use std::alloc::AllocError;
use view_pages::Page;

/// Where the title of a group stands.
const TITLE: usize = TOP + 15;

const BLUE: &[u8] = b"#1f4e79";

/// The arrows' tips.
fn put_tips(page: &mut Page) {
    page.put_line(b"<defs>");
    let tips: [(&[u8], &[u8]); 2] = [(b"sent", BLUE), (b"open", GREY)];
    for (name, colour) in tips {
        page.put(b"<marker id=\"");
        page.put(name);
        page.put(b"\" viewBox=\"0 0 8 8\" refX=\"8\" refY=\"4\" markerWidth=\"8\" ");
        page.put(b"markerHeight=\"8\" orient=\"auto\"><path d=\"M0,0 L8,4 L0,8 z\" fill=\"");
        page.put(colour);
        page.put_line(b"\"/></marker>");
    }
    page.put_line(b"</defs>");
}

/// The band of a column, in the colour of its group.
fn put_band(page: &mut Page, grid: &Grid, lifeline: usize, colour: &[u8]) {
    let (left, right) = grid.sides(lifeline);
    let area = Area {
        x: left,
        y: TOP,
        width: before(right, left),
        height: before(grid.height, TOP + PAD),
        rounding: 0,
    };
    put_area(page, area, plain_ink(colour, colour));
}

/// The titles of the groups, each where its first lifeline is.
fn put_titles(page: &mut Page, sequence: &Sequence, grid: &Grid) {
    let mut last = None;
    for (number, lifeline) in sequence.lifelines.as_slice().iter().enumerate() {
        if last != Some(lifeline.group)
            && let Some(group) = sequence.groups.as_slice().get(lifeline.group)
        {
            let (left, _) = grid.sides(number);
            let title = group.title.as_slice();
            put_words(page, (behind(left, 6), TITLE), Anchor::Begin, BLACK, title);
        }
        last = Some(lifeline.group);
    }
}

/// The head of a lifeline, and the line below it.
fn put_lifeline(page: &mut Page, grid: &Grid, lifeline: usize, title: &[u8]) {
    let middle = grid.middle(lifeline);
    let drawn = Ink {
        fill: b"none",
        stroke: GREY,
        dashes: b"4 3",
    };
    let foot = (middle, before(grid.height, PAD));
    put_path(page, &[(middle, HEAD), foot], drawn);
    put_box(page, (middle, HEAD + ROW / 2), title, 0);
}

/// A text in a box around a place.
fn put_box(page: &mut Page, at: (usize, usize), text: &[u8], rounding: usize) {
    let width = sum(&[text_width(text), PAD]);
    let area = Area {
        x: before(at.0, width / 2),
        y: before(at.1, 8),
        width,
        height: 17,
        rounding,
    };
    put_area(page, area, plain_ink(WHITE, BLACK));
    put_words(page, (at.0, behind(at.1, 4)), Anchor::Middle, BLACK, text);
}

/// The way of a message from a row.
fn put_way(page: &mut Page, grid: &Grid, number: usize, row: &Row, lead: Lead) {
    let first = grid.place(row.lifeline, number);
    let last = match lead.way {
        Way::Open => (grid.middle(lead.lifeline), behind(first.1, ROW / 2)),
        Way::Sent | Way::PutOff => grid.place(lead.lifeline, lead.row),
    };
    let (stroke, tip, dashes): (&[u8], &[u8], &[u8]) = match lead.way {
        Way::Sent => (BLUE, b"sent", b""),
        Way::PutOff => (BLUE, b"sent", b"4 3"),
        Way::Open => (GREY, b"open", b"4 3"),
    };
    let drawn = Ink {
        fill: b"none",
        stroke,
        dashes,
    };
    if lead.lifeline == row.lifeline {
        let out = behind(first.0, LOOP);
        put_line_to(
            page,
            &[first, (out, first.1), (out, last.1), last],
            drawn,
            tip,
        );
    } else {
        put_line_to(page, &[first, last], drawn, tip);
    }
}

/// A cross at a place.
fn put_cross(page: &mut Page, at: (usize, usize)) {
    let (left, right) = (before(at.0, 5), behind(at.0, 5));
    let (top, foot) = (before(at.1, 5), behind(at.1, 5));
    put_path(page, &[(left, top), (right, foot)], plain_ink(b"none", RED));
    put_path(page, &[(left, foot), (right, top)], plain_ink(b"none", RED));
}

/// What stands on a lifeline in a row.
fn put_sign(page: &mut Page, at: (usize, usize), row: &Row) {
    match row.event {
        Event::Post => put_circle(page, at, 2, plain_ink(BLUE, BLUE)),
        Event::Taken => put_circle(page, at, 3, plain_ink(WHITE, BLUE)),
        Event::Deferred => {
            let (x, y) = at;
            let corners = [
                (x, before(y, 5)),
                (behind(x, 5), y),
                (x, behind(y, 5)),
                (before(x, 5), y),
            ];
            put_corners(page, &corners, plain_ink(WHITE, BLUE));
        }
        Event::Unhandled | Event::Trouble => put_cross(page, at),
        Event::Discarded => {
            put_circle(page, at, 7, plain_ink(WHITE, RED));
            put_cross(page, at);
        }
        Event::State => put_box(page, at, row.text.shown.as_slice(), 8),
        Event::Note | Event::Divider => {}
    }
}

/// The colour of the text of a row.
fn colour_of(event: Event) -> &'static [u8] {
    match event {
        Event::Post => BLUE,
        Event::Unhandled | Event::Discarded | Event::Trouble => RED,
        Event::Taken | Event::Deferred | Event::State | Event::Note | Event::Divider => BLACK,
    }
}

/// The text of a row beside its lifeline, above the way of its message.
fn put_text(page: &mut Page, grid: &Grid, number: usize, row: &Row) {
    if row.event == Event::State || row.text.shown.is_empty() {
        return;
    }
    let colour = colour_of(row.event);
    let text = row.text.shown.as_slice();
    page.put_line(b"<g>");
    put_tooltip(page, row.text.whole.as_slice());
    let line = grid.line(number);
    let y = if row.event == Event::Post {
        before(line, 4)
    } else {
        behind(line, 4)
    };
    let (x, is_leftward) = grid.text_from(number, row);
    let anchor = if is_leftward {
        Anchor::End
    } else {
        Anchor::Begin
    };
    put_words(page, (x, y), anchor, colour, text);
    page.put_line(b"</g>");
}

/// A line over all lifelines.
fn put_divider(page: &mut Page, grid: &Grid, line: usize) {
    let drawn = Ink {
        fill: b"none",
        stroke: BLACK,
        dashes: b"1 3",
    };
    put_path(page, &[(PAD, line), (before(grid.width, PAD), line)], drawn);
}

/// The texts of the rows, which cover what runs below them; that of a divider stands above its line.
fn put_texts(page: &mut Page, sequence: &Sequence, grid: &Grid) {
    page.put_line(b"<g paint-order=\"stroke\" stroke=\"#ffffff\" stroke-width=\"3\">");
    for (number, row) in sequence.rows.as_slice().iter().enumerate() {
        if row.event == Event::Divider {
            let at = (CLOCK, before(grid.line(number), 4));
            put_words(page, at, Anchor::Begin, BLACK, row.text.shown.as_slice());
        } else {
            put_text(page, grid, number, row);
        }
    }
    page.put_line(b"</g>");
}

/// The times of the rows.
fn put_stamps(page: &mut Page, sequence: &Sequence, grid: &Grid) {
    let side = CLOCK - PAD;
    put_words(page, (side, TITLE), Anchor::End, GREY, b"logical clock");
    for (number, row) in sequence.rows.as_slice().iter().enumerate() {
        if let Some(stamp) = row.stamp {
            let mut digits = itoa::Buffer::new();
            let at = (side, behind(grid.line(number), 4));
            put_words(page, at, Anchor::End, GREY, digits.format(stamp).as_bytes());
        }
    }
}

/// The bands, the lifelines on them, and the dividers.
fn put_ground(page: &mut Page, sequence: &Sequence, grid: &Grid) {
    for (number, lifeline) in sequence.lifelines.as_slice().iter().enumerate() {
        put_band(page, grid, number, light(sequence.colour_of(lifeline)));
    }
    put_titles(page, sequence, grid);
    for (number, lifeline) in sequence.lifelines.as_slice().iter().enumerate() {
        put_lifeline(page, grid, number, lifeline.title.as_slice());
    }
    for (number, row) in sequence.rows.as_slice().iter().enumerate() {
        if row.event == Event::Divider {
            put_divider(page, grid, grid.line(number));
        }
    }
}

/// The ways of the messages.
fn put_ways(page: &mut Page, sequence: &Sequence, grid: &Grid) {
    for (number, row) in sequence.rows.as_slice().iter().enumerate() {
        if let Some(lead) = row.lead {
            put_way(page, grid, number, row, lead);
        }
    }
}

/// The signs of the rows on their lifelines.
fn put_signs(page: &mut Page, sequence: &Sequence, grid: &Grid) {
    for (number, row) in sequence.rows.as_slice().iter().enumerate() {
        put_sign(page, grid.place(row.lifeline, number), row);
    }
}

/// A run whose parts have their places.
fn put_laid_out(page: &mut Page, sequence: &Sequence, grid: &Grid) {
    put_head(page, grid.width, grid.height);
    put_title(page, sequence.title.as_slice());
    put_tips(page);
    put_ground(page, sequence, grid);
    put_ways(page, sequence, grid);
    put_stamps(page, sequence, grid);
    put_signs(page, sequence, grid);
    put_texts(page, sequence, grid);
    page.put_line(b"</svg>");
}

/// Puts a run as an SVG that needs nothing else.
pub fn put_sequence_svg(page: &mut Page, sequence: &Sequence) -> Result<(), AllocError> {
    let grid = grid_of(sequence)?;
    put_laid_out(page, sequence, &grid);
    Ok(())
}
