//! On which side of its graph each block stands: a link begins on one side and ends on the other one, where that can
//! be chosen.
use crate::diagram::{Diagram, Link, Shape};
use std::alloc::AllocError;

/// A walk along the links of a picture from block to block, each graph by itself.
#[derive(Drop)]
struct Walk {
    /// For each block the first of the links that begin there, and for each link the next one.
    first: Vec<Option<usize>>,
    next: Vec<Option<usize>>,
    /// For each block whether it stands to the right, once it was met.
    sides: Vec<Option<bool>>,
    /// The blocks that were met, in order, and how many of them have been left.
    met: Vec<usize>,
    done: usize,
}

fn number_at(row: &Vec<Option<usize>>, at: usize) -> Option<usize> {
    match row.as_slice().get(at) {
        Some(number) => *number,
        None => None,
    }
}

/// Whether a block stands to the right.
pub fn is_right(sides: &Vec<Option<bool>>, block: usize) -> bool {
    sides.as_slice().get(block) == Some(&Some(true))
}

/// Whether those to which a block leads stand on its own side: where a graph begins.
fn keeps_side(diagram: &Diagram, block: usize) -> bool {
    match diagram.blocks.as_slice().get(block) {
        Some(block) => block.shape == Shape::Start,
        None => false,
    }
}

impl Walk {
    /// A walk that has met nothing.
    fn of(diagram: &Diagram) -> Result<Walk, AllocError> {
        let alloc = diagram.alloc;
        let mut walk = Walk {
            first: vec![in alloc; None; diagram.blocks.len()]?,
            next: vec![in alloc; None; diagram.links.len()]?,
            sides: vec![in alloc; None; diagram.blocks.len()]?,
            met: Vec::new(alloc),
            done: 0,
        };
        for (number, link) in diagram.links.as_slice().iter().enumerate().rev() {
            walk.add_link(number, link);
        }
        Ok(walk)
    }

    /// Adds a link before those that begin at its block, unless it begins or ends at the border around it.
    fn add_link(&mut self, number: usize, link: &Link) {
        if link.from.block == link.inside || link.to.block == link.inside {
            return;
        }
        let following = number_at(&self.first, link.from.block);
        if let Some(next) = self.next.as_mut_slice().get_mut(number) {
            *next = following;
        }
        if let Some(first) = self.first.as_mut_slice().get_mut(link.from.block) {
            *first = Some(number);
        }
    }

    /// Meets a block on a side, unless it was met before.
    fn meet(&mut self, block: usize, is_right: bool) -> Result<(), AllocError> {
        let Some(side) = self.sides.as_mut_slice().get_mut(block) else {
            return Ok(());
        };
        if side.is_none() {
            *side = Some(is_right);
            self.met.push(block)?;
        }
        Ok(())
    }

    /// Meets those to which a block leads.
    fn follow(&mut self, diagram: &Diagram, block: usize) -> Result<(), AllocError> {
        let there = is_right(&self.sides, block) == keeps_side(diagram, block);
        let mut link = number_at(&self.first, block);
        for _link in 0..diagram.links.len() {
            let Some(number) = link else {
                break;
            };
            if let Some(link) = diagram.links.as_slice().get(number) {
                self.meet(link.to.block, there)?;
            }
            link = number_at(&self.next, number);
        }
        Ok(())
    }

    /// Meets all to which the blocks lead that were met.
    fn go_on(&mut self, diagram: &Diagram) -> Result<(), AllocError> {
        for _block in 0..diagram.blocks.len() {
            let Some(block) = self.met.as_slice().get(self.done).copied() else {
                break;
            };
            self.done = self.done.saturating_add(1);
            self.follow(diagram, block)?;
        }
        Ok(())
    }

    /// Meets all blocks. One to which nothing leads stands to the left.
    fn go(&mut self, diagram: &Diagram) -> Result<(), AllocError> {
        for block in 0..diagram.blocks.len() {
            self.meet(block, false)?;
            self.go_on(diagram)?;
        }
        Ok(())
    }
}

/// For each block whether it stands to the right. It takes time and memory linear in the parts of the picture.
pub fn sides_of(diagram: &Diagram) -> Result<Vec<Option<bool>>, AllocError> {
    let mut walk = Walk::of(diagram)?;
    if diagram.is_directed {
        walk.go(diagram)?;
    }
    let Walk { sides, .. } = walk;
    Ok(sides)
}
