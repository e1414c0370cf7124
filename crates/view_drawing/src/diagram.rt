//! A picture before it is laid out: blocks in blocks, points on their borders, and links among these.
use crate::plain::Label;
use std::alloc::{AllocError, Global};

/// What a block stands for, by which it is drawn.
#[derive(Clone, Copy, PartialEq, Eq)]
pub enum Shape {
    /// What holds all others.
    Frame,
    Actor,
    /// A place where actors are made and destroyed.
    OptionalActor,
    /// A place to which actors are lent.
    ImportedActor,
    State,
    Choice,
    /// Where a graph begins.
    Start,
}

/// What a point stands for, by which it is drawn.
#[derive(Clone, Copy, PartialEq, Eq)]
pub enum Mark {
    /// It isn't drawn.
    Hidden,
    Port,
    ConjugatedPort,
    Relay,
    ConjugatedRelay,
    Access,
    Provision,
    Entry,
    Exit,
    Door,
}

/// Where a point leads whose places aren't all joined.
#[derive(Clone, Copy, PartialEq, Eq)]
pub enum Leads {
    /// Those that aren't joined lead to nothing, if there are any.
    Within,
    /// Out of all blocks.
    Outside,
    /// To points that aren't drawn as joined: they come together only later.
    Later,
    /// To nobody at the moment that is drawn.
    Nobody,
}

/// A block of a picture.
#[derive(Drop)]
pub struct Block {
    /// The block that it stands in, whose number is lower.
    pub container: Option<usize>,
    pub shape: Shape,
    pub title: Vec<u8>,
    /// Lines below the title.
    pub notes: Vec<Label>,
    /// The number of its colour.
    pub colour: Option<u8>,
    /// How many it stands for.
    pub copies: u32,
    /// Whether who enters it by its name comes back to where it was left.
    pub has_history: bool,
    /// Its points: the first of them, and how many there are.
    pub first_point: usize,
    pub point_count: usize,
}

/// A point on the border of a block.
#[derive(Drop)]
pub struct Point {
    pub mark: Mark,
    pub name: Vec<u8>,
    /// How many places stand there.
    pub places: u32,
    /// How many places are joined, and how many to nothing, over all that the block stands for.
    pub joined: u32,
    pub unjoined: u32,
    pub leads: Leads,
}

/// Where a link ends: at a block, or at a point of it.
#[derive(Clone, Copy)]
pub struct End {
    pub block: usize,
    pub point: Option<usize>,
}

/// A link among the blocks that stand in a block and the points on this one's own border.
#[derive(Drop)]
pub struct Link {
    pub inside: usize,
    pub from: End,
    pub to: End,
    pub label: Label,
    pub is_dashed: bool,
}

/// A line of the legend.
#[derive(Drop)]
pub struct Key {
    pub sign: Sign,
    pub text: Vec<u8>,
}

/// What a line of the legend explains.
#[derive(Clone, Copy)]
pub enum Sign {
    Colour(u8),
    Point(Mark),
    Dashes,
    /// The colour of points with places that aren't joined, and lead there.
    Leads(Leads),
    History,
}

/// A picture before it is laid out. A block has a higher number than the one that it stands in.
#[derive(Drop)]
pub struct Diagram {
    pub alloc: Global,
    /// What stands above the picture.
    pub title: Vec<u8>,
    pub blocks: Vec<Block>,
    pub points: Vec<Point>,
    pub links: Vec<Link>,
    pub legend: Vec<Key>,
    /// Whether links lead from one end to the other one: then those to one end run together.
    pub is_directed: bool,
}

impl Block {
    /// A block without notes and points.
    pub fn new(alloc: Global, shape: Shape, container: Option<usize>, title: Vec<u8>) -> Block {
        Block {
            container,
            shape,
            title,
            notes: Vec::new(alloc),
            colour: None,
            copies: 1,
            has_history: false,
            first_point: 0,
            point_count: 0,
        }
    }
}

impl Point {
    /// A point of one place at which nothing is counted.
    pub fn new(mark: Mark, name: Vec<u8>) -> Point {
        Point {
            mark,
            name,
            places: 1,
            joined: 0,
            unjoined: 0,
            leads: Leads::Within,
        }
    }

    /// How many places there lead to nothing.
    pub fn lost(&self) -> u32 {
        match self.leads {
            Leads::Within => self.unjoined,
            Leads::Outside | Leads::Later | Leads::Nobody => 0,
        }
    }
}

impl Diagram {
    /// A picture of nothing, without a title.
    pub fn new(alloc: Global, is_directed: bool) -> Diagram {
        Diagram {
            alloc,
            title: Vec::new(alloc),
            blocks: Vec::new(alloc),
            points: Vec::new(alloc),
            links: Vec::new(alloc),
            legend: Vec::new(alloc),
            is_directed,
        }
    }

    /// Adds a block, which has no points yet, and gives its number.
    pub fn add_block(&mut self, block: Block) -> Result<usize, AllocError> {
        let number = self.blocks.len();
        self.blocks.push(block)?;
        if let Some(block) = self.blocks.as_mut_slice().get_mut(number) {
            block.first_point = self.points.len();
        }
        Ok(number)
    }

    /// Adds a point to the block that was added last, or to an earlier one if no other block has got points since, and
    /// gives its number.
    pub fn add_point(&mut self, block: usize, point: Point) -> Result<usize, AllocError> {
        let number = self.points.len();
        self.points.push(point)?;
        if let Some(block) = self.blocks.as_mut_slice().get_mut(block) {
            if block.point_count == 0 {
                block.first_point = number;
            }
            block.point_count = block.point_count.saturating_add(1);
        }
        Ok(number)
    }

    /// Adds a line to the legend for each of these marks that one of the points has.
    pub fn add_marks(&mut self, marks: &[(Mark, &[u8])]) -> Result<(), AllocError> {
        for (mark, text) in marks {
            if self.has_mark(*mark) {
                self.add_key(Sign::Point(*mark), text)?;
            }
        }
        Ok(())
    }

    /// Whether one of the points has this mark.
    fn has_mark(&self, mark: Mark) -> bool {
        let points = self.points.as_slice();
        points.iter().any(|point| point.mark == mark)
    }

    /// Adds a line to the legend.
    pub fn add_key(&mut self, sign: Sign, text: &[u8]) -> Result<(), AllocError> {
        let text = Vec::from_slice(self.alloc, text)?;
        Ok(self.legend.push(Key { sign, text })?)
    }

    /// The points of a block; none where there is no such block.
    pub fn points_of(&self, block: &Block) -> &[Point] {
        let end = block.first_point.saturating_add(block.point_count);
        self.points
            .as_slice()
            .get(block.first_point..end)
            .unwrap_or(&[])
    }
}
