//! The chain of a message step by step: which states were left and entered, and how choice points chose.
//!
//! A trace does the chain that `Mind` does on copies of what it changes (docs/CHARTS.md, What happens then: the chain).
use action_program::{Bound, Effects, Moment, Vars, eval, test};
use chart_run::chart_tables::{Mind, Taken};
use chart_run::{Arrow, Node, Tables};
use std::alloc::{AllocError, Global};

/// A step of a chain.
#[derive(Clone, Copy, Drop, PartialEq, Eq)]
pub enum Passed {
    /// A state was left: its exit action ran.
    Left(u16),
    /// The action of a transition ran.
    Went,
    /// A choice point chose: so many conditions didn't hold, and then one did, or there was none left.
    Chose(usize),
    /// A state was entered: its entry action ran.
    Entered(u16),
}

/// A chain on its way.
#[derive(Drop)]
struct Trace<'a> {
    alloc: Global,
    tables: &'a Tables,
    at: &'a Moment,
    /// Where the active path ended when the chain began.
    began: u16,
    past: Vec<Option<u16>>,
    vars: Vars,
    told: Effects,
    passed: Vec<Passed>,
}

impl<'a> Trace<'a> {
    fn run(&mut self, program: &Bound) -> Result<(), AllocError> {
        eval(self.alloc, program, &mut self.vars, self.at, &mut self.told)
    }

    fn leave(&mut self, state: u16) -> Result<(), AllocError> {
        if self.tables.is_inside(self.began, state) {
            if let Some(past) = self.past.as_mut_slice().get_mut(usize::from(state)) {
                *past = Some(self.began);
            }
        }
        self.passed.push(Passed::Left(state))?;
        match self.tables.states.as_slice().get(usize::from(state)) {
            Some(row) => self.run(&row.exit),
            None => Ok(()),
        }
    }

    fn enter(&mut self, state: u16) -> Result<(), AllocError> {
        self.passed.push(Passed::Entered(state))?;
        match self.tables.states.as_slice().get(usize::from(state)) {
            Some(row) => self.run(&row.entry),
            None => Ok(()),
        }
    }

    /// Enters the states of the path that ends at a leaf, below a state, from outer to inner.
    fn enter_below(&mut self, state: u16, leaf: u16) -> Result<(), AllocError> {
        let up = self.tables.up(leaf);
        let count = up.len().saturating_sub(self.tables.up(state).len());
        for inner in up.get(..count).unwrap_or(&[]).iter().rev() {
            self.enter(*inner)?;
        }
        Ok(())
    }

    /// The initial transition of a composite state, which is entered; none where its history is entered again.
    fn pass_border(
        &mut self,
        state: u16,
        initial: &'a Arrow,
    ) -> Result<Option<&'a Arrow>, AllocError> {
        self.enter(state)?;
        let past = self.past.as_slice().get(usize::from(state)).copied();
        match past {
            Some(Some(leaf)) => {
                self.enter_below(state, leaf)?;
                Ok(None)
            }
            _ => Ok(Some(initial)),
        }
    }

    /// The branch that a choice point chooses.
    fn choose(
        &mut self,
        branches: &'a [Arrow],
        default: &'a Arrow,
    ) -> Result<&'a Arrow, AllocError> {
        for (before, branch) in branches.iter().enumerate() {
            let holds = match &branch.condition {
                Some(condition) => test(condition, &self.vars, self.at, &mut self.told)?,
                None => true,
            };
            if holds {
                self.passed.push(Passed::Chose(before))?;
                return Ok(branch);
            }
        }
        self.passed.push(Passed::Chose(branches.len()))?;
        Ok(default)
    }

    /// The transition that goes on from a node, if one does.
    fn arrive(&mut self, node: &'a Node) -> Result<Option<&'a Arrow>, AllocError> {
        match node {
            Node::Simple(state) => {
                self.enter(*state)?;
                Ok(None)
            }
            Node::Border(state, initial) => self.pass_border(*state, initial),
            Node::Choice(branches, default) => {
                Ok(Some(self.choose(branches.as_slice(), default)?))
            }
            Node::Entry(state, next) => {
                self.enter(*state)?;
                Ok(Some(next))
            }
            Node::Exit(state, next) => {
                self.leave(*state)?;
                Ok(Some(next))
            }
        }
    }

    /// Runs a transition and what follows. Each node leads to lower ones, so there are no more steps than nodes.
    fn chain(&mut self, first: &'a Arrow) -> Result<(), AllocError> {
        let mut arrow = first;
        for _step in 0..self.tables.nodes.len().saturating_add(1) {
            self.passed.push(Passed::Went)?;
            self.run(&arrow.action)?;
            let Some(node) = self.tables.nodes.as_slice().get(arrow.target) else {
                break;
            };
            match self.arrive(node)? {
                Some(next) => arrow = next,
                None => break,
            }
        }
        Ok(())
    }
}

/// The steps of the chain of a transition that is taken while the active path ends at a state. Nothing changes.
pub(crate) fn steps_of(
    alloc: Global,
    tables: &Tables,
    mind: &Mind,
    began: u16,
    taken: Taken<'_>,
    at: &Moment,
) -> Result<Vec<Passed>, AllocError> {
    let mut trace = Trace {
        alloc,
        tables,
        at,
        began,
        past: mind.past.as_slice().to_vec(alloc)?,
        vars: Vars::new(alloc, mind.vars.numbers())?,
        told: Effects::new(alloc),
        passed: Vec::new(alloc),
    };
    for state in tables.up(began).iter().take(taken.leaves) {
        trace.leave(*state)?;
    }
    trace.chain(taken.arrow)?;
    Ok(trace.passed)
}
