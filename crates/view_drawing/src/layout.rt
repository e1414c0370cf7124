//! Where all parts of a picture stand, in whole pixels.
//!
//! Blocks stand in a column, right edges in one line. To the right of the column come the labels of links, then the
//! tracks on which links run up and down, then the names of the points on the container's own border. A link leaves
//! the right edge of a block in a row of its own, so that no link runs over a block or a text.
//!
//! Where links lead from one end to the other one, and there is room, a second column stands behind the tracks, with
//! labels of its own before it: links leave the left edges of its blocks, and the points of these stand there. Its rows
//! are half a row off those of the first column, so that lines from both sides never run into one.
use crate::diagram::{Block, Diagram, End, Link, Mark, Point, Shape};
use crate::place::{GAP, LETTER, NOWHERE, OFF, PAD, Place, ROW, sum, text_width};
use crate::sides::{is_right, sides_of};
use std::alloc::AllocError;

/// The space that a mark takes before the name of a point.
const MARK_SPACE: usize = 12;

/// The rows of a point, and the track of the links that lead to it.
#[derive(Clone, Copy)]
pub struct PointPlace {
    pub row: usize,
    /// How many links leave it.
    pub leaving: usize,
    pub track: Option<usize>,
}

/// The rows and the track of a link.
#[derive(Clone, Copy)]
pub struct LinkPlace {
    /// Which of the links that leave its first end it is.
    pub order: usize,
    pub track: usize,
}

/// Where all parts of a picture stand.
#[derive(Drop)]
pub struct Layout {
    pub places: Vec<Place>,
    pub points: Vec<PointPlace>,
    pub links: Vec<LinkPlace>,
    pub width: usize,
    pub height: usize,
}

const NO_ROW: PointPlace = PointPlace {
    row: 0,
    leaving: 0,
    track: None,
};

impl Layout {
    /// The place of a block; the one of no width where there is no such block.
    pub fn place(&self, block: usize) -> Place {
        match self.places.as_slice().get(block) {
            Some(place) => *place,
            None => NOWHERE,
        }
    }

    pub fn point(&self, point: usize) -> PointPlace {
        match self.points.as_slice().get(point) {
            Some(place) => *place,
            None => NO_ROW,
        }
    }

    /// Which of the links that leave an end the next one is.
    fn leave(&mut self, from: End) -> usize {
        match from.point {
            Some(point) => match self.points.as_mut_slice().get_mut(point) {
                Some(place) => {
                    place.leaving = place.leaving.saturating_add(1);
                    place.leaving.saturating_sub(1)
                }
                None => 0,
            },
            None => match self.places.as_mut_slice().get_mut(from.block) {
                Some(place) => {
                    place.leaving = place.leaving.saturating_add(1);
                    place.leaving.saturating_sub(1)
                }
                None => 0,
            },
        }
    }

    /// A new track in a block.
    fn new_track(&mut self, inside: usize) -> usize {
        match self.places.as_mut_slice().get_mut(inside) {
            Some(place) => {
                place.tracks = place.tracks.saturating_add(1);
                place.tracks.saturating_sub(1)
            }
            None => 0,
        }
    }

    /// The track of links that lead to an end, if there is one yet.
    fn track_to(&self, to: End) -> Option<usize> {
        match to.point {
            Some(point) => self.point(point).track,
            None => self.place(to.block).track,
        }
    }

    fn keep_track(&mut self, to: End, track: usize) {
        match to.point {
            Some(point) => {
                if let Some(place) = self.points.as_mut_slice().get_mut(point) {
                    place.track = Some(track);
                }
            }
            None => {
                if let Some(place) = self.places.as_mut_slice().get_mut(to.block) {
                    place.track = Some(track);
                }
            }
        }
    }

    /// The track of a link. Links that lead to one end share theirs.
    fn track_of(&mut self, is_directed: bool, inside: usize, to: End) -> usize {
        if is_directed && let Some(track) = self.track_to(to) {
            return track;
        }
        let track = self.new_track(inside);
        self.keep_track(to, track);
        track
    }

    /// Gives the links their tracks, and their blocks the room for their labels.
    fn place_links(&mut self, diagram: &Diagram) -> Result<(), AllocError> {
        for link in diagram.links.as_slice() {
            let order = self.leave(link.from);
            let track = self.track_of(diagram.is_directed, link.inside, link.to);
            self.links.push(LinkPlace { order, track })?;
            self.place_label(link);
        }
        Ok(())
    }

    /// Whether the label of a link stands before the second column: it leaves a block there, or comes in over it.
    pub fn is_leftward(&self, link: &Link) -> bool {
        let from = self.place(link.from.block);
        if link.from.block == link.inside {
            from.has_columns && !from.is_right
        } else {
            from.is_right
        }
    }

    /// Makes room for the label of a link. On which side its block stands is known only later.
    fn place_label(&mut self, link: &Link) {
        let width = text_width(link.label.shown.as_slice()).saturating_add(LETTER);
        let is_over = link.from.block == link.inside;
        let is_leftward = self.place(link.from.block).is_right;
        if let Some(place) = self.places.as_mut_slice().get_mut(link.inside) {
            place.only.labels = place.only.labels.max(width);
            if is_over || is_leftward {
                place.right.labels = place.right.labels.max(width);
            }
            if is_over == is_leftward {
                place.left.labels = place.left.labels.max(width);
            }
        }
    }

    /// The rows of the points of a block, from a row on; gives the row behind them.
    fn place_points(&mut self, diagram: &Diagram, block: &Block, from: usize) -> usize {
        let mut row = from;
        for (number, point) in diagram.points_of(block).iter().enumerate() {
            let number = block.first_point.saturating_add(number);
            if let Some(place) = self.points.as_mut_slice().get_mut(number) {
                place.row = row;
                let rows = if diagram.is_directed {
                    place.leaving.max(1)
                } else {
                    1
                };
                if point.mark != Mark::Hidden {
                    row = row.saturating_add(rows);
                }
            }
        }
        row
    }

    /// The rows of a block.
    fn place_rows(&mut self, diagram: &Diagram, number: usize, block: &Block) {
        let head = if block.shape == Shape::Start {
            0
        } else {
            block.notes.len().saturating_add(1)
        };
        let first_row = self.place_points(diagram, block, head);
        if let Some(place) = self.places.as_mut_slice().get_mut(number) {
            place.first_row = if diagram.is_directed { first_row } else { 0 };
            let leaving = if diagram.is_directed {
                place.leaving
            } else {
                0
            };
            place.rows = first_row.saturating_add(leaving).max(1);
        }
    }

    /// The size of a block whose blocks have theirs.
    fn measure(&mut self, diagram: &Diagram, number: usize, block: &Block) {
        let names = names_width(diagram, block);
        let Some(place) = self.places.as_mut_slice().get_mut(number) else {
            return;
        };
        place.names = names;
        place.measure(
            title_width(block).max(notes_width(block)),
            diagram.is_directed,
        );
        let measured = *place;
        self.hold(block, measured);
    }

    /// Makes room for a block in the one that it stands in. Where a graph begins the second column has nothing.
    fn hold(&mut self, block: &Block, measured: Place) {
        let (width, height) = (measured.width, measured.height);
        let Some(container) = block.container else {
            return;
        };
        let Some(place) = self.places.as_mut_slice().get_mut(container) else {
            return;
        };
        place.has_blocks = true;
        place.only.hold(width, height);
        if measured.is_right {
            place.right.hold(width, height);
        } else {
            place.left.hold(width, height);
        }
        if block.shape == Shape::Start {
            place.right.pass(height);
        }
    }

    /// Where a block stands in its container, below those that stand there already.
    fn spot(&self, container: usize, place: Place) -> (usize, usize) {
        let around = self.place(container);
        let rows = around.rows.saturating_mul(ROW);
        if place.is_right {
            let top = sum(&[around.y, rows, OFF, around.right.height, GAP]);
            return (sum(&[around.labels_to(), GAP]), top);
        }
        let right = sum(&[around.x, PAD, around.left.width]);
        let top = sum(&[around.y, rows, around.left.height, GAP]);
        (right.saturating_sub(place.width), top)
    }

    /// Where a block stands that stands in no other one.
    fn put_outermost(&mut self, place: Place) -> (usize, usize) {
        let y = sum(&[PAD, self.height]);
        self.height = sum(&[y, place.height]);
        self.width = self.width.max(sum(&[PAD, place.width, PAD]));
        (PAD, y)
    }

    /// Puts a block below the ones that stand already in its container, whose room is counted anew meanwhile.
    fn put(&mut self, number: usize, block: &Block) {
        let mut place = self.place(number);
        let spot = match block.container {
            None => self.put_outermost(place),
            Some(container) => {
                place.is_right = place.is_right && self.place(container).has_columns;
                let spot = self.spot(container, place);
                self.take(container, block, place);
                spot
            }
        };
        place.x = spot.0;
        place.y = spot.1;
        if let Some(kept) = self.places.as_mut_slice().get_mut(number) {
            *kept = place;
        }
    }

    /// Counts the room of a block in the one that it stands in.
    fn take(&mut self, container: usize, block: &Block, taken: Place) {
        let Some(place) = self.places.as_mut_slice().get_mut(container) else {
            return;
        };
        if taken.is_right {
            place.right.pass(taken.height);
        } else {
            place.left.pass(taken.height);
        }
        if block.shape == Shape::Start {
            place.right.pass(taken.height);
        }
    }

    /// Says of each block on which side it stands, where its container has two columns.
    fn choose_sides(&mut self, diagram: &Diagram) -> Result<(), AllocError> {
        let sides = sides_of(diagram)?;
        for (number, block) in diagram.blocks.as_slice().iter().enumerate() {
            self.choose_side(number, block.container, is_right(&sides, number));
        }
        Ok(())
    }

    fn choose_side(&mut self, number: usize, container: Option<usize>, is_right: bool) {
        if let Some(place) = self.places.as_mut_slice().get_mut(number) {
            place.is_right = is_right;
            place.is_outermost = container.is_none();
        }
        if is_right
            && let Some(container) = container
            && let Some(place) = self.places.as_mut_slice().get_mut(container)
        {
            place.has_columns = true;
        }
    }

    /// Where all blocks stand, whose links and sides are known.
    fn place_blocks(&mut self, diagram: &Diagram) {
        self.place_all_rows(diagram);
        self.measure_all(diagram);
        self.empty_columns();
        self.put_title(diagram.title.as_slice());
        self.put_all(diagram.blocks.as_slice());
    }

    fn place_all_rows(&mut self, diagram: &Diagram) {
        for (number, block) in diagram.blocks.as_slice().iter().enumerate() {
            self.place_rows(diagram, number, block);
        }
    }

    /// The sizes of all blocks, those inside of a block before its own.
    fn measure_all(&mut self, diagram: &Diagram) {
        for (number, block) in diagram.blocks.as_slice().iter().enumerate().rev() {
            self.measure(diagram, number, block);
        }
    }

    /// Says that nothing stands in any column yet.
    fn empty_columns(&mut self) {
        for place in self.places.as_mut_slice() {
            place.left.height = 0;
            place.right.height = 0;
        }
    }

    fn put_all(&mut self, blocks: &[Block]) {
        for (number, block) in blocks.iter().enumerate() {
            self.put(number, block);
        }
    }

    /// Where nothing stands anywhere yet.
    fn of(diagram: &Diagram) -> Result<Layout, AllocError> {
        let alloc = diagram.alloc;
        let places = vec![in alloc; NOWHERE; diagram.blocks.len()]?;
        Ok(Layout {
            places,
            points: vec![in alloc; NO_ROW; diagram.points.len()]?,
            links: Vec::new(alloc),
            width: 0,
            height: 0,
        })
    }

    /// Leaves room for the title of the picture.
    fn put_title(&mut self, title: &[u8]) {
        if !title.is_empty() {
            self.height = ROW;
            self.width = sum(&[PAD, text_width(title), PAD]);
        }
    }
}

fn title_width(block: &Block) -> usize {
    let mark = if block.has_history { ROW } else { 0 };
    let title = text_width(block.title.as_slice());
    if block.shape == Shape::Choice {
        // the tips of its sides are no place for letters
        return sum(&[title, title, mark]);
    }
    sum(&[title, mark])
}

fn notes_width(block: &Block) -> usize {
    let mut width = 0usize;
    for note in block.notes.as_slice() {
        width = width.max(text_width(note.shown.as_slice()));
    }
    width
}

/// How many digits a number has that is at most 65,536.
fn digits(number: u32) -> usize {
    match number {
        0..10 => 1,
        10..100 => 2,
        100..1_000 => 3,
        1_000..10_000 => 4,
        _ => 5,
    }
}

/// How many letters stand behind the name of a point: how many places it has, and how many are joined to nothing.
fn letters_behind(point: &Point) -> usize {
    let places = if point.places == 1 {
        0
    } else {
        digits(point.places).saturating_add(2)
    };
    if point.lost() == 0 {
        return places;
    }
    // a blank, the number and ` unjoined`
    sum(&[places, digits(point.lost()), 10])
}

/// The width of the names of the points of a block.
fn names_width(diagram: &Diagram, block: &Block) -> usize {
    let mut width = 0usize;
    for point in diagram.points_of(block) {
        if point.mark != Mark::Hidden {
            let name = text_width(point.name.as_slice());
            let letters = letters_behind(point);
            let room = sum(&[name, letters.saturating_mul(LETTER), MARK_SPACE]);
            width = width.max(room);
        }
    }
    width
}

/// Lays a picture out. It takes time and memory linear in its parts.
pub fn lay_out(diagram: &Diagram) -> Result<Layout, AllocError> {
    let mut layout = Layout::of(diagram)?;
    layout.choose_sides(diagram)?;
    layout.place_links(diagram)?;
    layout.place_blocks(diagram);
    Ok(layout)
}
