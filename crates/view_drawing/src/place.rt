//! The place of a block: where it stands, how large it is, and where its parts are.
/// The width of a letter.
pub const LETTER: usize = 7;

/// The height of a row.
pub const ROW: usize = 20;

/// How far below the top of its row a link runs.
pub const LINE: usize = 15;

/// The space inside of a border, and around the picture.
pub const PAD: usize = 16;

/// The space between two blocks, and between two parts of a row.
pub const GAP: usize = 14;

const TRACK: usize = 10;

const LEAST_WIDTH: usize = 56;

/// How far the rows of a second column are off those of the first one.
pub const OFF: usize = ROW / 2;

/// The most that two columns are wide, in the outermost block and in the others.
const MOST_WIDE: usize = 1_100;

const MOST_WIDE_INSIDE: usize = 700;

/// The most that the width of a block or its height can be.
const MOST: usize = 1 << 40;

/// The room of a column of blocks, and the width of the labels of the links that begin there.
#[derive(Clone, Copy)]
pub struct Column {
    pub width: usize,
    pub height: usize,
    pub labels: usize,
}

/// Where a block stands, how large it is, and how wide its parts are.
#[derive(Clone, Copy)]
pub struct Place {
    pub x: usize,
    pub y: usize,
    pub width: usize,
    pub height: usize,
    /// Whether it stands in the second column of its container.
    pub is_right: bool,
    /// The rows below the title.
    pub rows: usize,
    /// The first row of links that leave the block itself.
    pub first_row: usize,
    /// The column of the blocks in it, if it has only one.
    pub only: Column,
    /// Its columns; the second one is empty where it has only one.
    pub left: Column,
    pub right: Column,
    /// Whether it has both, or may have them as long as that isn't known.
    pub has_columns: bool,
    pub is_outermost: bool,
    /// How many tracks there are in it.
    pub tracks: usize,
    /// The width of the names of its points.
    pub names: usize,
    /// How many links leave the block itself.
    pub leaving: usize,
    /// The track of the links that lead to it.
    pub track: Option<usize>,
    pub has_blocks: bool,
}

impl Column {
    /// Makes room for a block below the others.
    pub fn hold(&mut self, width: usize, height: usize) {
        self.width = self.width.max(width);
        self.pass(height);
    }

    /// Leaves room as high as a block.
    pub fn pass(&mut self, height: usize) {
        self.height = sum(&[self.height, height, GAP]);
    }
}

impl Place {
    /// Whether something stands in the block.
    pub fn is_open(&self) -> bool {
        self.has_blocks || self.tracks > 0
    }

    /// The row of a link among those of a block.
    pub fn line(&self, row: usize) -> usize {
        sum(&[self.y, row.saturating_mul(ROW), LINE])
    }

    /// Where the labels of the links begin that leave the first column.
    pub fn labels_from(&self) -> usize {
        sum(&[self.x, PAD, self.left.width, GAP])
    }

    /// Where a track of the block runs.
    pub fn track(&self, track: usize) -> usize {
        let before = track.saturating_mul(TRACK);
        sum(&[self.labels_from(), self.left.labels, before])
    }

    /// Where the labels of the links end that leave the second column.
    pub fn labels_to(&self) -> usize {
        sum(&[self.track(self.tracks), self.right.labels])
    }

    pub fn right(&self) -> usize {
        sum(&[self.x, self.width])
    }

    /// The edge that links leave.
    pub fn edge(&self) -> usize {
        if self.is_right { self.x } else { self.right() }
    }

    /// The width of what stands in the block.
    fn inside_width(&self) -> usize {
        if !self.is_open() {
            return self.names;
        }
        let tracks = self.tracks.saturating_mul(TRACK).min(MOST);
        let behind = sum(&[self.right.labels, self.right.width]);
        sum(&[
            self.left.width,
            GAP,
            self.left.labels,
            tracks,
            GAP,
            behind.max(self.names),
        ])
    }

    /// Puts what stands in the block into two columns where they fit, and else into one.
    fn choose_columns(&mut self) {
        let most = if self.is_outermost {
            MOST_WIDE
        } else {
            MOST_WIDE_INSIDE
        };
        self.has_columns = self.has_columns && self.inside_width() <= most;
        if !self.has_columns {
            self.left = self.only;
            self.right = NO_COLUMN;
        }
        if self.is_right && self.is_open() {
            // the names of its points stand over the first column
            self.left.width = self.left.width.max(self.names);
        }
    }

    /// Gives the block its size, whose own texts have this width, once the blocks in it have theirs.
    pub fn measure(&mut self, own: usize, in_rows: bool) {
        self.choose_columns();
        self.width = sum(&[own.max(self.inside_width()), PAD, PAD]).max(LEAST_WIDTH);
        self.height = self.whole_height(in_rows);
    }

    /// The height of the columns.
    fn inside_height(&self) -> usize {
        if self.has_columns {
            sum(&[self.right.height, OFF]).max(self.left.height)
        } else {
            self.left.height
        }
    }

    /// The height of the block. With the gap behind it that is a number of whole rows, where there are two columns.
    fn whole_height(&self, in_rows: bool) -> usize {
        let rows = self.rows.saturating_mul(ROW).min(MOST);
        if !self.is_open() {
            return sum(&[rows, 6]);
        }
        let height = sum(&[rows, self.inside_height(), PAD]);
        if in_rows {
            whole_rows(sum(&[height, GAP])).saturating_sub(GAP)
        } else {
            height
        }
    }
}

/// The next height that is a number of whole rows.
fn whole_rows(height: usize) -> usize {
    let rows = height.saturating_add(ROW - 1) / ROW;
    rows.saturating_mul(ROW)
}

const NO_COLUMN: Column = Column {
    width: 0,
    height: 0,
    labels: 0,
};

/// The place of no width.
pub const NOWHERE: Place = Place {
    x: 0,
    y: 0,
    width: 0,
    height: 0,
    is_right: false,
    rows: 0,
    first_row: 0,
    only: NO_COLUMN,
    left: NO_COLUMN,
    right: NO_COLUMN,
    has_columns: false,
    is_outermost: false,
    tracks: 0,
    names: 0,
    leaving: 0,
    track: None,
    has_blocks: false,
};

/// The width of a text.
pub fn text_width(text: &[u8]) -> usize {
    text.len().saturating_mul(LETTER)
}

/// A sum that stays in bounds.
pub fn sum(parts: &[usize]) -> usize {
    let mut whole = 0usize;
    for part in parts {
        whole = whole.saturating_add(*part).min(MOST);
    }
    whole
}
