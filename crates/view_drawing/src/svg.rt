//! A picture as SVG.
use crate::colours::{dark, light};
use crate::diagram::{Block, Diagram, End, Key, Leads, Link, Mark, Point, Shape, Sign};
use crate::layout::{Layout, LinkPlace, lay_out};
use crate::place::{LINE, PAD, Place, ROW, text_width};
use crate::shapes::{
    Anchor, Area, BLACK, GREEN, GREY, Ink, RED, VIOLET, WHITE, before, begin_text, behind,
    plain_ink, put_area, put_circle, put_corners, put_head, put_path, put_text, put_title,
    put_tooltip, put_words,
};
use std::alloc::AllocError;
use view_pages::Page;

/// Half the width of a mark.
const HALF: usize = 5;

/// How far each sheet of a stack stands behind the one before it.
const SHEET: usize = 4;

/// The room of a sign of the legend.
const SIGN: usize = 32;

/// The corners of a square, or of a triangle, around a place.
fn square(x: usize, y: usize, half: usize) -> [(usize, usize); 4] {
    [
        (before(x, half), before(y, half)),
        (behind(x, half), before(y, half)),
        (behind(x, half), behind(y, half)),
        (before(x, half), behind(y, half)),
    ]
}

fn triangle(x: usize, y: usize) -> [(usize, usize); 3] {
    [
        (before(x, HALF), behind(y, HALF)),
        (x, before(y, HALF)),
        (behind(x, HALF), behind(y, HALF)),
    ]
}

/// A mark at a place.
fn put_mark(page: &mut Page, mark: Mark, at: (usize, usize), colour: &[u8]) {
    let (x, y) = at;
    match mark {
        Mark::Hidden => {}
        Mark::Port => put_circle(page, at, HALF, plain_ink(colour, colour)),
        Mark::ConjugatedPort | Mark::Entry => put_circle(page, at, HALF, plain_ink(WHITE, colour)),
        Mark::Relay => put_corners(page, &square(x, y, 4), plain_ink(colour, colour)),
        Mark::ConjugatedRelay | Mark::Door => {
            put_corners(page, &square(x, y, 4), plain_ink(WHITE, colour));
        }
        Mark::Access => put_corners(page, &triangle(x, y), plain_ink(WHITE, colour)),
        Mark::Provision => put_corners(page, &triangle(x, y), plain_ink(colour, colour)),
        Mark::Exit => {
            put_circle(page, at, HALF, plain_ink(WHITE, colour));
            let [first, second, third, fourth] = square(x, y, 3);
            put_path(page, &[first, third], plain_ink(b"none", colour));
            put_path(page, &[second, fourth], plain_ink(b"none", colour));
        }
    }
}

/// Where the points of a block have their names.
fn name_line(place: Place, line: usize) -> usize {
    if place.is_open() {
        before(line, 6)
    } else {
        behind(line, 4)
    }
}

/// How many places a point has, and how many of them are joined to nothing.
fn put_places(page: &mut Page, point: &Point) {
    if point.places != 1 {
        page.put(b"[");
        page.put_number(u64::from(point.places));
        page.put(b"]");
    }
    if point.lost() > 0 {
        page.put(b" <tspan fill=\"#cc0000\">");
        page.put_number(u64::from(point.lost()));
        page.put(b" unjoined</tspan>");
    }
}

/// A bar along the rows of the links that leave a point.
fn put_bar(page: &mut Page, layout: &Layout, place: Place, number: usize) {
    let rows = layout.point(number);
    if rows.leaving < 2 {
        return;
    }
    let last = rows.row.saturating_add(rows.leaving).saturating_sub(1);
    let bar = [
        (place.edge(), place.line(rows.row)),
        (place.edge(), place.line(last)),
    ];
    put_path(page, &bar, plain_ink(b"none", BLACK));
}

/// The colour of what leads there.
fn colour_of_leads(leads: Leads) -> &'static [u8] {
    match leads {
        Leads::Within => RED,
        Leads::Outside => GREEN,
        Leads::Later => VIOLET,
        Leads::Nobody => GREY,
    }
}

fn colour_of(point: &Point) -> &'static [u8] {
    if point.unjoined == 0 {
        return BLACK;
    }
    colour_of_leads(point.leads)
}

/// A point of a block, in its row.
fn put_point(page: &mut Page, layout: &Layout, place: Place, number: usize, point: &Point) {
    if point.mark == Mark::Hidden {
        return;
    }
    let rows = layout.point(number);
    let line = place.line(rows.row);
    put_mark(page, point.mark, (place.edge(), line), colour_of(point));
    let line = name_line(place, line);
    if place.is_right {
        let at = (behind(place.x, HALF + 4), line);
        begin_text(page, at, Anchor::Begin, BLACK);
    } else {
        let at = (before(place.right(), HALF + 4), line);
        begin_text(page, at, Anchor::End, BLACK);
    }
    put_text(page, point.name.as_slice());
    put_places(page, point);
    page.put_line(b"</text>");
}

/// The dashes of the border of a block.
fn dashes(shape: Shape) -> &'static [u8] {
    match shape {
        Shape::OptionalActor => b"8 4",
        Shape::ImportedActor => b"2 3",
        Shape::Frame | Shape::Actor | Shape::State | Shape::Choice | Shape::Start => b"",
    }
}

fn area_of(place: Place, shape: Shape, sheet: usize) -> Area {
    Area {
        x: before(place.x, sheet),
        y: before(place.y, sheet),
        width: place.width,
        height: place.height,
        rounding: if shape == Shape::State { 8 } else { 0 },
    }
}

/// The border of a block, with sheets behind it where it stands for several.
fn put_sheets(page: &mut Page, place: Place, block: &Block) {
    let drawn = Ink {
        fill: light(block.colour),
        stroke: BLACK,
        dashes: dashes(block.shape),
    };
    if block.copies > 2 {
        put_area(page, area_of(place, block.shape, 2 * SHEET), drawn);
    }
    if block.copies > 1 {
        put_area(page, area_of(place, block.shape, SHEET), drawn);
    }
    put_area(page, area_of(place, block.shape, 0), drawn);
}

/// The middle of a block.
fn middle(place: Place) -> (usize, usize) {
    (
        behind(place.x, place.width / 2),
        behind(place.y, place.height / 2),
    )
}

fn put_choice(page: &mut Page, place: Place, title: &[u8]) {
    let (x, y) = middle(place);
    let corners = [
        (place.x, y),
        (x, place.y),
        (place.right(), y),
        (x, behind(place.y, place.height)),
    ];
    put_corners(page, &corners, plain_ink(WHITE, BLACK));
    put_words(page, (x, behind(y, 4)), Anchor::Middle, BLACK, title);
}

/// The title of a block, the lines below it, and the sign of a history.
fn put_titles(page: &mut Page, place: Place, block: &Block) {
    let x = behind(place.x, PAD / 2);
    let title = block.title.as_slice();
    put_words(page, (x, place.line(0)), Anchor::Begin, BLACK, title);
    for (number, note) in block.notes.as_slice().iter().enumerate() {
        let y = place.line(number.saturating_add(1));
        page.put_line(b"<g>");
        put_tooltip(page, note.whole.as_slice());
        put_words(
            page,
            (x, y),
            Anchor::Begin,
            b"#555555",
            note.shown.as_slice(),
        );
        page.put_line(b"</g>");
    }
    if block.has_history {
        let x = before(place.right(), PAD);
        put_history(page, (x, before(place.line(0), 4)));
    }
}

fn put_history(page: &mut Page, at: (usize, usize)) {
    put_circle(page, at, 7, plain_ink(WHITE, BLACK));
    put_words(page, (at.0, behind(at.1, 4)), Anchor::Middle, BLACK, b"H");
}

/// A block without its points.
fn put_block(page: &mut Page, place: Place, block: &Block) {
    match block.shape {
        Shape::Start => {
            let at = (before(place.right(), 6), place.line(0));
            put_circle(page, at, 6, plain_ink(BLACK, BLACK));
        }
        Shape::Choice => put_choice(page, place, block.title.as_slice()),
        Shape::Frame | Shape::Actor | Shape::OptionalActor | Shape::ImportedActor | Shape::State =>
            {
                put_sheets(page, place, block);
                put_titles(page, place, block);
            }
    }
}

/// Where the border of a block is in a row, on the side that links leave.
fn border(place: Place, shape: Shape, line: usize) -> usize {
    if shape != Shape::Choice {
        return place.edge();
    }
    let (_, y) = middle(place);
    let off = line.abs_diff(y);
    let half = place.width / 2;
    let back = half
        .saturating_mul(off)
        .checked_div(place.height / 2)
        .unwrap_or(0);
    outwards(place, place.edge(), false, back.min(half))
}

/// So far off a place on the side of a block that links leave: away from the block, or into it.
fn outwards(place: Place, x: usize, is_out: bool, by: usize) -> usize {
    if place.is_right == is_out {
        before(x, by)
    } else {
        behind(x, by)
    }
}

/// Where a link begins or ends.
fn place_of_end(
    diagram: &Diagram,
    layout: &Layout,
    inside: usize,
    end: End,
    row: usize,
) -> (usize, usize) {
    let place = layout.place(end.block);
    let line = place.line(row);
    if end.block == inside {
        return (outwards(place, place.edge(), false, HALF), line);
    }
    if end.point.is_some() {
        return (outwards(place, place.edge(), true, HALF), line);
    }
    let shape = match diagram.blocks.as_slice().get(end.block) {
        Some(block) => block.shape,
        None => Shape::Frame,
    };
    (border(place, shape, line), line)
}

/// The row in which a link begins.
fn first_row(diagram: &Diagram, layout: &Layout, link: &Link, order: usize) -> usize {
    let order = if diagram.is_directed { order } else { 0 };
    let row = match link.from.point {
        Some(point) => layout.point(point).row,
        None => layout.place(link.from.block).first_row,
    };
    row.saturating_add(order)
}

fn last_row(layout: &Layout, link: &Link) -> usize {
    match link.to.point {
        Some(point) => layout.point(point).row,
        None => 0,
    }
}

/// The tip of an arrow that comes from the left, or from the right.
fn put_tip(page: &mut Page, at: (usize, usize), from_left: bool, colour: &[u8]) {
    let (x, y) = at;
    let foot = if from_left {
        before(x, 7)
    } else {
        behind(x, 7)
    };
    let corners = [at, (foot, before(y, 4)), (foot, behind(y, 4))];
    put_corners(page, &corners, plain_ink(colour, colour));
}

/// Whether a link comes to its end from the left: to a block of the second column, or to the right border around it.
fn comes_from_left(layout: &Layout, link: &Link) -> bool {
    let is_inside = link.to.block == link.inside;
    layout.place(link.to.block).is_right != is_inside
}

/// The label of a link that begins in this line, and runs on along a track.
fn put_label(
    page: &mut Page,
    layout: &Layout,
    link: &Link,
    line: usize,
    track: usize,
    drawn: Ink<'_>,
) {
    let around = layout.place(link.inside);
    let text = link.label.shown.as_slice();
    let y = before(line, 3);
    if layout.is_leftward(link) {
        put_words(
            page,
            (around.labels_to(), y),
            Anchor::End,
            drawn.stroke,
            text,
        );
        return;
    }
    let from = around.labels_from();
    if link.from.block == link.inside && !around.is_right {
        put_path(page, &[(from, line), (track, line)], drawn);
    }
    put_words(page, (from, y), Anchor::Begin, drawn.stroke, text);
}

/// How a link on a track is drawn.
fn ink_of(link: &Link, track: usize) -> Ink<'static> {
    Ink {
        fill: b"none",
        stroke: dark(track),
        dashes: if link.is_dashed { b"6 3" } else { b"" },
    }
}

/// A link with its label, which stands at its beginning.
fn put_link(page: &mut Page, diagram: &Diagram, layout: &Layout, link: &Link, lane: LinkPlace) {
    let row = first_row(diagram, layout, link, lane.order);
    let first = place_of_end(diagram, layout, link.inside, link.from, row);
    let end_row = last_row(layout, link);
    let last = place_of_end(diagram, layout, link.inside, link.to, end_row);
    let track = layout.place(link.inside).track(lane.track);
    let drawn = ink_of(link, lane.track);
    page.put_line(b"<g>");
    put_tooltip(page, link.label.whole.as_slice());
    let corners = [first, (track, first.1), (track, last.1), last];
    put_path(page, &corners, drawn);
    let is_repeated = !diagram.is_directed && lane.order > 0;
    if !link.label.shown.is_empty() && !is_repeated {
        put_label(page, layout, link, first.1, track, drawn);
    }
    if diagram.is_directed {
        put_tip(page, last, comes_from_left(layout, link), drawn.stroke);
    }
    page.put_line(b"</g>");
}

/// A line of the legend.
fn put_key(page: &mut Page, key: &Key, y: usize) {
    let at = (behind(PAD, HALF + 4), behind(y, LINE - 4));
    match key.sign {
        Sign::Colour(number) => {
            let area = Area {
                x: PAD,
                y: behind(y, 3),
                width: 24,
                height: 14,
                rounding: 0,
            };
            put_area(page, area, plain_ink(light(Some(number)), BLACK));
        }
        Sign::Point(mark) => put_mark(page, mark, at, BLACK),
        Sign::Leads(leads) => put_mark(page, Mark::Port, at, colour_of_leads(leads)),
        Sign::History => put_history(page, at),
        Sign::Dashes => {
            let drawn = Ink {
                fill: b"none",
                stroke: BLACK,
                dashes: b"6 3",
            };
            put_path(page, &[(PAD, at.1), (PAD + 24, at.1)], drawn);
        }
    }
    let text = (PAD + SIGN, behind(y, LINE));
    put_words(page, text, Anchor::Begin, BLACK, key.text.as_slice());
}

/// The width of the legend.
fn legend_width(diagram: &Diagram) -> usize {
    let mut width = 0usize;
    for key in diagram.legend.as_slice() {
        width = width.max(text_width(key.text.as_slice()));
    }
    width.saturating_add(PAD + SIGN + PAD)
}

/// The points of a block.
fn put_points(page: &mut Page, diagram: &Diagram, layout: &Layout, number: usize, block: &Block) {
    let place = layout.place(number);
    for (order, point) in diagram.points_of(block).iter().enumerate() {
        let point_number = block.first_point.saturating_add(order);
        if diagram.is_directed {
            put_bar(page, layout, place, point_number);
        }
        put_point(page, layout, place, point_number, point);
    }
}

/// The blocks, the links over them, and the points over these.
fn put_parts(page: &mut Page, diagram: &Diagram, layout: &Layout) {
    for (number, block) in diagram.blocks.as_slice().iter().enumerate() {
        put_block(page, layout.place(number), block);
    }
    for (link, lane) in diagram.links.as_slice().iter().zip(layout.links.as_slice()) {
        put_link(page, diagram, layout, link, *lane);
    }
    for (number, block) in diagram.blocks.as_slice().iter().enumerate() {
        put_points(page, diagram, layout, number, block);
    }
}

/// The legend from a line on.
fn put_legend(page: &mut Page, diagram: &Diagram, top: usize) {
    for (number, key) in diagram.legend.as_slice().iter().enumerate() {
        let above = number.saturating_mul(ROW);
        put_key(page, key, top.saturating_add(above));
    }
}

/// A picture whose parts have their places.
fn put_laid_out(page: &mut Page, diagram: &Diagram, layout: &Layout) {
    let keys = diagram.legend.len().saturating_mul(ROW);
    let legend = layout.height.saturating_add(PAD);
    let width = layout.width.max(legend_width(diagram));
    put_head(page, width, legend.saturating_add(keys).saturating_add(PAD));
    put_title(page, diagram.title.as_slice());
    put_parts(page, diagram, layout);
    put_legend(page, diagram, legend);
    page.put_line(b"</svg>");
}

/// Puts a picture as an SVG that needs nothing else.
pub fn put_svg(page: &mut Page, diagram: &Diagram) -> Result<(), AllocError> {
    let layout = lay_out(diagram)?;
    put_laid_out(page, diagram, &layout);
    Ok(())
}
