//! The blocks of a picture as a text with brackets has them.
use crate::diagram::{Block, Diagram, End, Mark};
use std::alloc::AllocError;

/// A step along the blocks of a picture.
#[derive(Clone, Copy)]
pub enum Step {
    /// A block in which something stands begins.
    Open(usize),
    /// A block in which nothing stands.
    Leaf(usize),
    Close,
}

/// What is known of each block of a picture.
#[derive(Drop)]
pub struct Blocks {
    /// Whether something stands in it or on its border.
    pub holds: Vec<bool>,
    /// Whether a link ends at the block itself.
    pub is_met: Vec<bool>,
}

fn set(flags: &mut Vec<bool>, number: usize) {
    if let Some(flag) = flags.as_mut_slice().get_mut(number) {
        *flag = true;
    }
}

pub fn is_set(flags: &Vec<bool>, number: usize) -> bool {
    flags.as_slice().get(number) == Some(&true)
}

fn meet(blocks: &mut Blocks, end: End) {
    if end.point.is_none() {
        set(&mut blocks.is_met, end.block);
    }
}

/// What is known of the blocks of a picture.
pub fn blocks_of(diagram: &Diagram) -> Result<Blocks, AllocError> {
    let alloc = diagram.alloc;
    let mut blocks = Blocks {
        holds: vec![in alloc; false; diagram.blocks.len()]?,
        is_met: vec![in alloc; false; diagram.blocks.len()]?,
    };
    for (number, block) in diagram.blocks.as_slice().iter().enumerate() {
        if let Some(container) = block.container {
            set(&mut blocks.holds, container);
        }
        let points = diagram.points_of(block);
        if points.iter().any(|point| point.mark != Mark::Hidden) {
            set(&mut blocks.holds, number);
        }
    }
    for link in diagram.links.as_slice() {
        set(&mut blocks.holds, link.inside);
        meet(&mut blocks, link.from);
        meet(&mut blocks, link.to);
    }
    Ok(blocks)
}

/// Closes the open blocks in which a block doesn't stand.
fn close_others(
    open: &mut Vec<usize>,
    steps: &mut Vec<Step>,
    block: &Block,
) -> Result<(), AllocError> {
    for _deep in 0..open.len() {
        if open.as_slice().last().copied() == block.container {
            break;
        }
        let _ = open.pop();
        steps.push(Step::Close)?;
    }
    Ok(())
}

/// The steps along the blocks of a picture, which stand behind those that they stand in.
pub fn steps_of(diagram: &Diagram, blocks: &Blocks) -> Result<Vec<Step>, AllocError> {
    let mut steps = Vec::new(diagram.alloc);
    let mut open = Vec::new(diagram.alloc);
    for (number, block) in diagram.blocks.as_slice().iter().enumerate() {
        close_others(&mut open, &mut steps, block)?;
        if is_set(&blocks.holds, number) {
            open.push(number)?;
            steps.push(Step::Open(number))?;
        } else {
            steps.push(Step::Leaf(number))?;
        }
    }
    for _deep in 0..open.len() {
        steps.push(Step::Close)?;
    }
    Ok(steps)
}
