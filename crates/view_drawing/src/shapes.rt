//! The shapes of which an SVG is made.
use crate::place::{LETTER, LINE, PAD};
use view_pages::Page;

pub const BLACK: &[u8] = b"#222222";

pub const RED: &[u8] = b"#cc0000";

pub const GREEN: &[u8] = b"#1f8a3a";

pub const VIOLET: &[u8] = b"#6b3fa0";

pub const GREY: &[u8] = b"#777777";

pub const WHITE: &[u8] = b"#ffffff";

/// A rectangle.
#[derive(Clone, Copy)]
pub struct Area {
    pub x: usize,
    pub y: usize,
    pub width: usize,
    pub height: usize,
    /// The radius of its corners.
    pub rounding: usize,
}

/// How a shape is drawn.
#[derive(Clone, Copy)]
pub struct Ink<'a> {
    pub fill: &'a [u8],
    pub stroke: &'a [u8],
    /// The lengths of dashes and of the gaps behind them; empty for a whole line.
    pub dashes: &'a [u8],
}

/// Where a text begins, or ends, or has its middle.
#[derive(Clone, Copy)]
pub enum Anchor {
    Begin,
    Middle,
    End,
}

/// An ink without dashes.
pub fn plain_ink<'a>(fill: &'a [u8], stroke: &'a [u8]) -> Ink<'a> {
    Ink {
        fill,
        stroke,
        dashes: b"",
    }
}

pub fn before(from: usize, by: usize) -> usize {
    from.saturating_sub(by)
}

pub fn behind(from: usize, by: usize) -> usize {
    from.saturating_add(by)
}

/// Puts a text, so that XML reads it back.
pub fn put_text(page: &mut Page, text: &[u8]) {
    for byte in text {
        match *byte {
            b'<' => page.put(b"&lt;"),
            b'>' => page.put(b"&gt;"),
            b'&' => page.put(b"&amp;"),
            b'"' => page.put(b"&quot;"),
            b' '..=b'~' => page.put(&[*byte]),
            _ => page.put(b"?"),
        }
    }
}

/// An attribute whose value is a number.
pub fn put_value(page: &mut Page, name: &[u8], value: usize) {
    page.put(b" ");
    page.put(name);
    page.put(b"=\"");
    page.put_number(value as u64);
    page.put(b"\"");
}

/// An attribute whose value is a word.
pub fn put_word(page: &mut Page, name: &[u8], word: &[u8]) {
    page.put(b" ");
    page.put(name);
    page.put(b"=\"");
    put_text(page, word);
    page.put(b"\"");
}

fn put_ink(page: &mut Page, ink: Ink<'_>) {
    put_word(page, b"fill", ink.fill);
    put_word(page, b"stroke", ink.stroke);
    if !ink.dashes.is_empty() {
        put_word(page, b"stroke-dasharray", ink.dashes);
    }
}

pub fn put_area(page: &mut Page, area: Area, ink: Ink<'_>) {
    page.put(b"<rect");
    put_value(page, b"x", area.x);
    put_value(page, b"y", area.y);
    put_value(page, b"width", area.width);
    put_value(page, b"height", area.height);
    if area.rounding > 0 {
        put_value(page, b"rx", area.rounding);
    }
    put_ink(page, ink);
    page.put_line(b"/>");
}

pub fn put_circle(page: &mut Page, centre: (usize, usize), radius: usize, ink: Ink<'_>) {
    page.put(b"<circle");
    put_value(page, b"cx", centre.0);
    put_value(page, b"cy", centre.1);
    put_value(page, b"r", radius);
    put_ink(page, ink);
    page.put_line(b"/>");
}

/// A pair of numbers of a list.
fn put_pair(page: &mut Page, pair: (usize, usize)) {
    page.put_number(pair.0 as u64);
    page.put(b",");
    page.put_number(pair.1 as u64);
}

/// A shape with these corners.
pub fn put_corners(page: &mut Page, corners: &[(usize, usize)], ink: Ink<'_>) {
    page.put(b"<polygon points=\"");
    for (number, corner) in corners.iter().enumerate() {
        if number > 0 {
            page.put(b" ");
        }
        put_pair(page, *corner);
    }
    page.put(b"\"");
    put_ink(page, ink);
    page.put_line(b"/>");
}

/// The head of a line through these places.
fn begin_path(page: &mut Page, places: &[(usize, usize)], ink: Ink<'_>) {
    page.put(b"<path d=\"");
    for (number, place) in places.iter().enumerate() {
        page.put(if number == 0 { b"M" } else { b" L" });
        put_pair(page, *place);
    }
    page.put(b"\"");
    put_ink(page, ink);
}

/// A line through these places.
pub fn put_path(page: &mut Page, places: &[(usize, usize)], ink: Ink<'_>) {
    begin_path(page, places, ink);
    page.put_line(b"/>");
}

/// A line through these places, at whose end stands the tip of this name.
pub fn put_line_to(page: &mut Page, places: &[(usize, usize)], ink: Ink<'_>, tip: &[u8]) {
    begin_path(page, places, ink);
    page.put(b" marker-end=\"url(#");
    page.put(tip);
    page.put_line(b")\"/>");
}

/// The head of a text, behind which its letters come, and then `</text>`.
pub fn begin_text(page: &mut Page, at: (usize, usize), anchor: Anchor, colour: &[u8]) {
    page.put(b"<text");
    put_value(page, b"x", at.0);
    put_value(page, b"y", at.1);
    match anchor {
        Anchor::Begin => {}
        Anchor::Middle => page.put(b" text-anchor=\"middle\""),
        Anchor::End => page.put(b" text-anchor=\"end\""),
    }
    put_word(page, b"fill", colour);
    page.put(b">");
}

pub fn put_words(page: &mut Page, at: (usize, usize), anchor: Anchor, colour: &[u8], text: &[u8]) {
    begin_text(page, at, anchor, colour);
    put_text(page, text);
    page.put_line(b"</text>");
}

/// What a browser shows where the mouse rests on the group that was begun.
pub fn put_tooltip(page: &mut Page, text: &[u8]) {
    page.put(b"<title>");
    put_text(page, text);
    page.put_line(b"</title>");
}

/// The head of an SVG of this size, behind which its shapes come, and then `</svg>`.
pub fn put_head(page: &mut Page, width: usize, height: usize) {
    page.put(b"<svg xmlns=\"http://www.w3.org/2000/svg\"");
    put_value(page, b"width", width);
    put_value(page, b"height", height);
    page.put(b" viewBox=\"0 0 ");
    page.put_number(width as u64);
    page.put(b" ");
    page.put_number(height as u64);
    page.put(b"\" font-family=\"monospace\"");
    put_value(page, b"font-size", LETTER + 4);
    page.put_line(b">");
    let whole = Area {
        x: 0,
        y: 0,
        width,
        height,
        rounding: 0,
    };
    put_area(page, whole, plain_ink(WHITE, WHITE));
}

/// The title above a picture, if it has one.
pub fn put_title(page: &mut Page, title: &[u8]) {
    if !title.is_empty() {
        put_words(page, (PAD, PAD + LINE - 4), Anchor::Begin, BLACK, title);
    }
}
