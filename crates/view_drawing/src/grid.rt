//! Where the parts of a run stand: lifelines in columns, what happens in rows.
use crate::place::{LETTER, PAD, ROW, sum, text_width};
use crate::sequence::{Event, Lifeline, Row, Sequence, Way};
use crate::shapes::{before, behind};
use std::alloc::{AllocError, Global};

/// The width of the column of stamps.
pub const CLOCK: usize = 14 * LETTER + PAD;

/// Where the bands begin, the head of a lifeline, and the first row.
pub const TOP: usize = PAD + ROW;

pub const HEAD: usize = TOP + 24;

const FIRST: usize = HEAD + 2 * ROW + 6;

/// The least width of a lifeline's column.
const LEAST: usize = 110;

/// How far a message leaves a lifeline to which it comes back.
pub const LOOP: usize = 18;

/// How far from a lifeline its texts stand.
const ASIDE: usize = 8;

/// Where the columns and the rows of a run stand.
#[derive(Drop)]
pub struct Grid {
    /// The middle of each lifeline, and half the width of its column.
    columns: Vec<(usize, usize)>,
    /// The line of each row.
    lines: Vec<usize>,
    /// For each row whether its text stands to the left of its lifeline.
    leftward: Vec<bool>,
    pub width: usize,
    pub height: usize,
}

/// The widths of the columns: wide enough for the titles and the states.
fn widths_of(sequence: &Sequence) -> Result<Vec<usize>, AllocError> {
    let mut widths = Vec::new(sequence.alloc);
    for lifeline in sequence.lifelines.as_slice() {
        widths.push(sum(&[text_width(lifeline.title.as_slice()), PAD, PAD]).max(LEAST))?;
    }
    for row in sequence.rows.as_slice() {
        if row.event == Event::State
            && let Some(width) = widths.as_mut_slice().get_mut(row.lifeline)
        {
            let state = sum(&[text_width(row.text.shown.as_slice()), PAD, PAD]);
            *width = state.max(*width);
        }
    }
    widen(sequence, widths.as_mut_slice());
    Ok(widths)
}

/// Widens the last column of each group so that the title of the next one stands behind its own.
fn widen(sequence: &Sequence, widths: &mut [usize]) {
    let lifelines = sequence.lifelines.as_slice();
    let mut missing = 0usize;
    let mut last = None;
    for (number, lifeline) in lifelines.iter().enumerate() {
        if last != Some(lifeline.group) {
            missing = title_width(sequence, lifeline.group);
            last = Some(lifeline.group);
        }
        if let Some(width) = widths.get_mut(number) {
            if is_last(lifelines, number, lifeline.group) {
                *width = missing.max(*width);
            }
            missing = missing.saturating_sub(*width);
        }
    }
}

/// Whether the next lifeline is of another group.
fn is_last(lifelines: &[Lifeline], number: usize, group: usize) -> bool {
    match lifelines.get(number.saturating_add(1)) {
        Some(next) => next.group != group,
        None => true,
    }
}

/// The width of the title of a group.
fn title_width(sequence: &Sequence, group: usize) -> usize {
    match sequence.groups.as_slice().get(group) {
        Some(group) => sum(&[text_width(group.title.as_slice()), PAD]),
        None => 0,
    }
}

/// The columns side by side from a place on.
fn columns_of(
    alloc: Global,
    widths: &[usize],
    from: usize,
) -> Result<Vec<(usize, usize)>, AllocError> {
    let mut columns = Vec::new(alloc);
    let mut left = from;
    for width in widths {
        columns.push((sum(&[left, *width / 2]), *width / 2))?;
        left = sum(&[left, *width]);
    }
    Ok(columns)
}

/// How far what stands in a row reaches above its line.
fn above(event: Event) -> usize {
    match event {
        Event::Post | Event::Divider => 13,
        Event::State => 9,
        Event::Taken
        | Event::Deferred
        | Event::Unhandled
        | Event::Discarded
        | Event::Note
        | Event::Trouble => 7,
    }
}

/// How far what stands in a row reaches below its line.
fn below(event: Event) -> usize {
    match event {
        Event::Post | Event::Divider => 3,
        Event::State => 10,
        Event::Taken
        | Event::Deferred
        | Event::Unhandled
        | Event::Discarded
        | Event::Note
        | Event::Trouble => 6,
    }
}

/// The lines of the rows, so far apart that nothing in a row touches what stands in the next one.
fn lines_of(sequence: &Sequence) -> Result<Vec<usize>, AllocError> {
    let mut lines = Vec::new(sequence.alloc);
    let mut line = FIRST;
    let mut last = None;
    for row in sequence.rows.as_slice() {
        if let Some(event) = last
            && !row.is_beside
        {
            line = sum(&[line, sum(&[below(event), above(row.event), 1]).max(ROW)]);
        }
        lines.push(line)?;
        last = Some(row.event);
    }
    Ok(lines)
}

/// For each row whether its text stands to the left of its lifeline: its message goes there, or one comes to it from
/// the right.
fn leftward_of(sequence: &Sequence) -> Result<Vec<bool>, AllocError> {
    let mut leftward = vec![in sequence.alloc; false; sequence.rows.len()]?;
    for (number, row) in sequence.rows.as_slice().iter().enumerate() {
        if let Some(lead) = row.lead {
            if row.event == Event::Post && lead.lifeline < row.lifeline {
                set(&mut leftward, number);
            }
            if lead.way != Way::Open && lead.lifeline <= row.lifeline {
                set(&mut leftward, lead.row);
            }
        }
    }
    Ok(leftward)
}

fn set(flags: &mut Vec<bool>, number: usize) {
    if let Some(flag) = flags.as_mut_slice().get_mut(number) {
        *flag = true;
    }
}

/// Whether the message of a row comes back to its lifeline.
fn comes_back(row: &Row) -> bool {
    match row.lead {
        Some(lead) => lead.lifeline == row.lifeline,
        None => false,
    }
}

/// How far from its lifeline the text of a row stands.
fn aside(row: &Row, is_leftward: bool) -> usize {
    if comes_back(row) && !is_leftward {
        LOOP + ASIDE
    } else if row.event == Event::Discarded {
        ASIDE + 4
    } else {
        ASIDE
    }
}

fn middle_of(columns: &[(usize, usize)], lifeline: usize) -> usize {
    match columns.get(lifeline) {
        Some((middle, _)) => *middle,
        None => CLOCK,
    }
}

/// How far to the right the columns have to stand, so that texts to the left of a lifeline end behind the clock.
fn first_column(sequence: &Sequence, leftward: &[bool], columns: &[(usize, usize)]) -> usize {
    let mut first = CLOCK;
    for (row, is_leftward) in sequence.rows.as_slice().iter().zip(leftward) {
        if *is_leftward {
            let text = text_width(row.text.shown.as_slice());
            let room = sum(&[text, aside(row, true), CLOCK]);
            first = first.max(room.saturating_sub(middle_of(columns, row.lifeline)));
        }
    }
    first
}

/// Where the text of a row ends.
fn end_of_text(row: &Row, is_leftward: bool, columns: &[(usize, usize)]) -> usize {
    let text = text_width(row.text.shown.as_slice());
    if row.event == Event::Divider {
        return sum(&[CLOCK, text]);
    }
    if is_leftward {
        return 0;
    }
    sum(&[middle_of(columns, row.lifeline), aside(row, false), text])
}

/// How wide a run is with all its texts.
fn width_of(sequence: &Sequence, leftward: &[bool], columns: &[(usize, usize)]) -> usize {
    let mut width = sum(&[PAD, text_width(sequence.title.as_slice())]).max(CLOCK);
    for (middle, half) in columns {
        width = width.max(sum(&[*middle, *half]));
    }
    for (row, is_leftward) in sequence.rows.as_slice().iter().zip(leftward) {
        width = width.max(end_of_text(row, *is_leftward, columns));
    }
    sum(&[width, PAD])
}

/// Lays a run out. It takes time and memory linear in its parts.
pub fn grid_of(sequence: &Sequence) -> Result<Grid, AllocError> {
    let alloc = sequence.alloc;
    let leftward = leftward_of(sequence)?;
    let widths = widths_of(sequence)?;
    let narrow = columns_of(alloc, widths.as_slice(), 0)?;
    let first = first_column(sequence, leftward.as_slice(), narrow.as_slice());
    let columns = columns_of(alloc, widths.as_slice(), first)?;
    let lines = lines_of(sequence)?;
    let last = lines.as_slice().last().copied().unwrap_or(FIRST);
    let width = width_of(sequence, leftward.as_slice(), columns.as_slice());
    Ok(Grid {
        columns,
        lines,
        leftward,
        width,
        height: sum(&[last, ROW, PAD]),
    })
}

impl Grid {
    pub fn middle(&self, lifeline: usize) -> usize {
        middle_of(self.columns.as_slice(), lifeline)
    }

    /// Where the column of a lifeline begins, and where it ends.
    pub fn sides(&self, lifeline: usize) -> (usize, usize) {
        match self.columns.as_slice().get(lifeline) {
            Some((middle, half)) => (before(*middle, *half), behind(*middle, *half)),
            None => (CLOCK, CLOCK),
        }
    }

    pub fn line(&self, row: usize) -> usize {
        self.lines.as_slice().get(row).copied().unwrap_or(FIRST)
    }

    /// Where a lifeline is in a row.
    pub fn place(&self, lifeline: usize, row: usize) -> (usize, usize) {
        (self.middle(lifeline), self.line(row))
    }

    /// Where the text of a row begins, or where it ends if that stands to the left.
    pub fn text_from(&self, number: usize, row: &Row) -> (usize, bool) {
        let is_leftward = self.leftward.as_slice().get(number) == Some(&true);
        let middle = self.middle(row.lifeline);
        let by = aside(row, is_leftward);
        if is_leftward {
            (before(middle, by), true)
        } else {
            (behind(middle, by), false)
        }
    }
}
