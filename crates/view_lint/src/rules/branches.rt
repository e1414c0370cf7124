//! Branches of choice points that are never taken.
use crate::conditions::always;
use crate::finding::{Finding, Kind};
use indexmap::IndexMap;
use room_lexer::Word;
use std::alloc::{AllocError, Global};
use view_charts::{Code, Item, Part, Source, Ways};

/// What is known of the branches of a choice point, in order, while they are looked at.
#[derive(Drop)]
struct Branches {
    /// The conditions that were looked at, with their branches.
    conditions: IndexMap<Vec<u8>, Item>,
    /// The branch whose condition always holds.
    taken: Option<Item>,
    /// The branch without a condition.
    last: Option<Item>,
}

/// The part of a branch that is its condition.
fn condition_part(source: Source<'_>, parts: &[Item]) -> Option<Item> {
    parts
        .iter()
        .find(|part| source.word(**part) == Some(Word::Cond))
        .copied()
}

/// The condition of a branch.
fn condition_of(source: Source<'_>, branch: Item) -> Result<Option<Code>, AllocError> {
    let parts = source.parts(branch)?;
    match condition_part(source, parts.as_slice()) {
        Some(part) => Ok(Some(Code::of(source, part)?)),
        None => Ok(None),
    }
}

/// The finding that a branch is never taken.
fn dead(source: Source<'_>, branch: Item, detail: Vec<u8>) -> Finding {
    let (start, end) = source.head(branch);
    Finding {
        kind: Kind::DeadBranch,
        start,
        end,
        detail,
    }
}

/// The finding that a branch is never taken, since another one before it has what is said of it.
fn behind(
    source: Source<'_>,
    branch: Item,
    other: Item,
    why: &[u8],
) -> Result<Finding, AllocError> {
    let (from, to) = source.head(other);
    let mut detail = Vec::from_slice(source.alloc, b"before it stands ")?;
    detail.extend_from_slice(source.text.get(from..to).unwrap_or(&[]))?;
    detail.extend_from_slice(why)?;
    Ok(dead(source, branch, detail))
}

impl Branches {
    fn new(alloc: Global) -> Branches {
        Branches {
            conditions: IndexMap::new(alloc),
            taken: None,
            last: None,
        }
    }

    /// Looks at a branch whose condition may hold or not.
    fn add_open(
        &mut self,
        source: Source<'_>,
        branch: Item,
        condition: &[u8],
        findings: &mut Vec<Finding>,
    ) -> Result<(), AllocError> {
        if let Some(other) = self.conditions.get(condition).copied() {
            let finding = behind(source, branch, other, SAME)?;
            return Ok(findings.push(finding)?);
        }
        self.conditions
            .insert(Vec::from_slice(source.alloc, condition)?, branch)?;
        Ok(())
    }

    /// Looks at a branch with a condition, behind one that isn't always taken.
    fn add_condition(
        &mut self,
        source: Source<'_>,
        branch: Item,
        condition: &Code,
        findings: &mut Vec<Finding>,
    ) -> Result<(), AllocError> {
        match always(source.alloc, condition)? {
            Some(true) => {
                self.taken = Some(branch);
                Ok(())
            }
            Some(false) => {
                let detail = Vec::from_slice(source.alloc, NEVER)?;
                Ok(findings.push(dead(source, branch, detail))?)
            }
            None => self.add_open(source, branch, condition.text(), findings),
        }
    }

    /// Looks at the next branch.
    fn add(
        &mut self,
        source: Source<'_>,
        branch: Item,
        findings: &mut Vec<Finding>,
    ) -> Result<(), AllocError> {
        let Some(condition) = condition_of(source, branch)? else {
            self.last = Some(branch);
            return Ok(());
        };
        match self.taken {
            Some(taken) => {
                let finding = behind(source, branch, taken, ALWAYS)?;
                Ok(findings.push(finding)?)
            }
            None => self.add_condition(source, branch, &condition, findings),
        }
    }

    /// Looks at the branches of a choice point, which are the transitions of these numbers.
    fn add_all(
        &mut self,
        source: Source<'_>,
        arrows: &[Part],
        numbers: &[usize],
        findings: &mut Vec<Finding>,
    ) -> Result<(), AllocError> {
        for number in numbers {
            if let Some(arrow) = arrows.get(*number) {
                self.add(source, arrow.item, findings)?;
            }
        }
        Ok(())
    }

    /// Looks at the branch without a condition, which comes behind all others.
    fn end(&self, source: Source<'_>, findings: &mut Vec<Finding>) -> Result<(), AllocError> {
        if let (Some(taken), Some(last)) = (self.taken, self.last) {
            let finding = behind(source, last, taken, ALWAYS)?;
            findings.push(finding)?;
        }
        Ok(())
    }
}

/// What is said of a branch behind one that is always taken, behind one of the same condition, and of one that can't
/// be taken itself.
const ALWAYS: &[u8] = b", whose condition always holds";

const SAME: &[u8] = b", with the same condition";

const NEVER: &[u8] = b"its condition never holds";

/// Adds a finding for each branch of a choice point that is never taken.
fn add_choice(
    source: Source<'_>,
    arrows: &[Part],
    numbers: &[usize],
    findings: &mut Vec<Finding>,
) -> Result<(), AllocError> {
    let mut branches = Branches::new(source.alloc);
    branches.add_all(source, arrows, numbers, findings)?;
    branches.end(source, findings)
}

/// Adds a finding for each branch of a choice point of a class that is never taken.
pub(crate) fn add_dead_branches(
    source: Source<'_>,
    arrows: &[Part],
    ways: &Ways,
    findings: &mut Vec<Finding>,
) -> Result<(), AllocError> {
    for (_choice, numbers) in ways.choices().iter() {
        add_choice(source, arrows, numbers.as_slice(), findings)?;
    }
    Ok(())
}
