//! The ways through a chart: from the initial transition on, whatever the triggers, guards and conditions.
//!
//! A way goes from node to node. Nodes have keys: a state its own; behind the key of a state, or behind nothing for the
//! top graph, `>` is the beginning of its graph, `*` says that some state of its graph is active, `?` and a name is a
//! choice point of its graph, `:` and a name a point of its border; `!` behind the key of a state says that it is
//! entered by its name, so that its graph begins.
use crate::chart::{Chart, Part, State};
use crate::ends::{Ends, ends_of, is_word};
use crate::keys::{marked, named};
use crate::source::Source;
use indexmap::{IndexMap, IndexSet};
use room_lexer::{Token, Word};
use std::alloc::{AllocError, Global};

/// The ways through a chart.
#[derive(Drop)]
pub struct Ways {
    nodes: IndexSet<Vec<u8>>,
    edges: Vec<Vec<usize>>,
    /// For each choice point that has branches the numbers of their transitions, in order.
    choices: IndexMap<usize, Vec<usize>>,
}

/// What is on the way where a transition begins or leads to.
#[derive(Clone, Copy)]
struct Walk<'a> {
    source: Source<'a>,
    chart: &'a Chart,
}

impl<'a> Walk<'a> {
    /// The key of a choice point of a graph.
    fn choice(&self, graph: &[u8], name: &Token) -> Result<Vec<u8>, AllocError> {
        named(self.source.alloc, graph, b'?', self.source.bytes(name))
    }

    /// The key of a state of a graph, or else of a choice point.
    fn bare(&self, graph: &[u8], name: &Token) -> Result<Vec<u8>, AllocError> {
        let state = named(self.source.alloc, graph, b'.', self.source.bytes(name))?;
        if self.chart.has_state(state.as_slice()) {
            return Ok(state);
        }
        self.choice(graph, name)
    }

    /// The key of a state that is entered by its name, or else of a choice point.
    fn entered(&self, graph: &[u8], name: &Token) -> Result<Vec<u8>, AllocError> {
        let state = named(self.source.alloc, graph, b'.', self.source.bytes(name))?;
        if self.chart.has_state(state.as_slice()) {
            return marked(self.source.alloc, state.as_slice(), b'!');
        }
        self.choice(graph, name)
    }

    /// The key of a point of the border of a graph.
    fn border(&self, graph: &[u8], name: &Token) -> Result<Vec<u8>, AllocError> {
        named(self.source.alloc, graph, b':', self.source.bytes(name))
    }

    /// The key from which a transition goes on that begins at a point of the border of its graph.
    fn from_border(&self, graph: &[u8], name: &Token) -> Result<Vec<u8>, AllocError> {
        let point = self.border(graph, name)?;
        if self.chart.has_transition_point(point.as_slice()) {
            return marked(self.source.alloc, graph, b'*');
        }
        Ok(point)
    }

    /// The key of a state of a graph.
    fn state(&self, graph: &[u8], state: &Token) -> Result<Vec<u8>, AllocError> {
        named(self.source.alloc, graph, b'.', self.source.bytes(state))
    }

    /// The key of a point of a state of a graph.
    fn point(&self, graph: &[u8], name: &Token, state: &Token) -> Result<Vec<u8>, AllocError> {
        let state = self.state(graph, state)?;
        self.border(state.as_slice(), name)
    }

    /// The key to which a transition leads that ends at a point of a state of its graph.
    fn to_point(&self, graph: &[u8], name: &Token, state: &Token) -> Result<Vec<u8>, AllocError> {
        let point = self.point(graph, name, state)?;
        if !self.chart.has_transition_point(point.as_slice()) {
            return Ok(point);
        }
        let state = self.state(graph, state)?;
        marked(self.source.alloc, state.as_slice(), b'!')
    }

    /// The key from which a transition goes on.
    fn source_key(&self, graph: &[u8], tokens: &[Token]) -> Result<Option<Vec<u8>>, AllocError> {
        let key = match tokens {
            [only] if is_word(only, Word::Initial) => marked(self.source.alloc, graph, b'>'),
            [name] => self.bare(graph, name),
            [cp, name] if is_word(cp, Word::Cp) => self.choice(graph, name),
            [_my, name] => self.from_border(graph, name),
            [name, _of, state] => self.point(graph, name, state),
            _ => return Ok(None),
        };
        Ok(Some(key?))
    }

    /// The key to which a transition leads.
    fn target_key(&self, graph: &[u8], tokens: &[Token]) -> Result<Option<Vec<u8>>, AllocError> {
        let key = match tokens {
            [name] => self.entered(graph, name),
            [cp, name] if is_word(cp, Word::Cp) => self.choice(graph, name),
            [_my, name] => self.border(graph, name),
            [name, _of, state] => self.to_point(graph, name, state),
            _ => return Ok(None),
        };
        Ok(Some(key?))
    }
}

/// The key of the state that has a point.
fn before_point(key: &[u8]) -> Option<&[u8]> {
    key.get(..key.iter().rposition(|byte| *byte == b':')?)
}

/// Goes on to a node; says whether it wasn't reached before.
fn reach(node: usize, reached: &mut [bool]) -> bool {
    match reached.get_mut(node) {
        Some(is_reached) => {
            let is_new = !*is_reached;
            *is_reached = true;
            is_new
        }
        None => false,
    }
}

/// That of so many nodes the first alone is reached.
fn first_reached(alloc: Global, count: usize) -> Result<Vec<bool>, AllocError> {
    let mut reached = Vec::new(alloc);
    for node in 0..count {
        reached.push(node == 0)?;
    }
    Ok(reached)
}

impl Ways {
    fn new(alloc: Global) -> Ways {
        Ways {
            nodes: IndexSet::new(alloc),
            edges: Vec::new(alloc),
            choices: IndexMap::new(alloc),
        }
    }

    /// The number of a node, which is added where it is new.
    fn node(&mut self, alloc: Global, key: Vec<u8>) -> Result<usize, AllocError> {
        let (number, is_new) = self.nodes.insert_full(key)?;
        if is_new {
            self.edges.push(Vec::new(alloc))?;
        }
        Ok(number)
    }

    /// Adds a step of a way.
    fn add(&mut self, alloc: Global, from: Vec<u8>, to: Vec<u8>) -> Result<(), AllocError> {
        let from = self.node(alloc, from)?;
        let to = self.node(alloc, to)?;
        self.join(from, to)
    }

    /// Adds a step between two nodes.
    fn join(&mut self, from: usize, to: usize) -> Result<(), AllocError> {
        match self.edges.as_mut_slice().get_mut(from) {
            Some(steps) => Ok(steps.push(to)?),
            None => Ok(()),
        }
    }

    /// Adds that a state is entered, and that its graph begins, where it is gone to by its name.
    fn add_entry(&mut self, alloc: Global, key: &[u8]) -> Result<(), AllocError> {
        let entered = self.node(alloc, marked(alloc, key, b'!')?)?;
        let state = self.node(alloc, Vec::from_slice(alloc, key)?)?;
        let beginning = self.node(alloc, marked(alloc, key, b'>')?)?;
        self.join(entered, state)?;
        self.join(entered, beginning)
    }

    /// Adds that the graph that holds a state is active where the state is.
    fn add_activity(&mut self, alloc: Global, key: &[u8], graph: &[u8]) -> Result<(), AllocError> {
        let is_active = marked(alloc, graph, b'*')?;
        self.add(alloc, Vec::from_slice(alloc, key)?, is_active)
    }

    /// Adds what follows where states are entered.
    fn add_states(&mut self, walk: &Walk<'_>, states: &[State]) -> Result<(), AllocError> {
        for state in states {
            let key = state.key.as_slice();
            self.add_entry(walk.source.alloc, key)?;
            self.add_activity(walk.source.alloc, key, walk.chart.key_of(state.part.owner))?;
        }
        Ok(())
    }

    /// Adds that a state is entered where a way comes to a point of its border.
    fn add_point(&mut self, alloc: Global, key: &[u8]) -> Result<(), AllocError> {
        if let Some(state) = before_point(key) {
            let state = Vec::from_slice(alloc, state)?;
            self.add(alloc, Vec::from_slice(alloc, key)?, state)?;
        }
        Ok(())
    }

    /// Adds a branch of a choice point.
    fn add_branch(
        &mut self,
        alloc: Global,
        choice: usize,
        number: usize,
    ) -> Result<(), AllocError> {
        if let Some(branches) = self.choices.get_mut(&choice) {
            return Ok(branches.push(number)?);
        }
        let mut branches = Vec::new(alloc);
        branches.push(number)?;
        self.choices.insert(choice, branches)?;
        Ok(())
    }

    /// Adds a step that a transition makes, by the transition's number.
    fn add_step(
        &mut self,
        alloc: Global,
        number: usize,
        from: Vec<u8>,
        to: Vec<u8>,
    ) -> Result<(), AllocError> {
        self.add_point(alloc, to.as_slice())?;
        if from.as_slice().contains(&b'?') {
            let choice = self.node(alloc, Vec::from_slice(alloc, from.as_slice())?)?;
            self.add_branch(alloc, choice, number)?;
        }
        self.add(alloc, from, to)
    }

    /// Adds a transition, by its number, of a graph with a key.
    fn add_ends(
        &mut self,
        walk: &Walk<'_>,
        number: usize,
        graph: &[u8],
        ends: Ends<'_>,
    ) -> Result<(), AllocError> {
        let Some(from) = walk.source_key(graph, ends.source)? else {
            return Ok(());
        };
        match walk.target_key(graph, ends.target)? {
            Some(to) => self.add_step(walk.source.alloc, number, from, to),
            None => Ok(()),
        }
    }

    /// Adds transitions.
    fn add_arrows(&mut self, walk: &Walk<'_>, arrows: &[Part]) -> Result<(), AllocError> {
        for (number, arrow) in arrows.iter().enumerate() {
            if let Some(ends) = ends_of(walk.source, *arrow) {
                self.add_ends(walk, number, walk.chart.key_of(arrow.owner), ends)?;
            }
        }
        Ok(())
    }

    /// Adds the ways through a chart: the first node is the beginning of the top graph.
    fn add_chart(&mut self, walk: &Walk<'_>) -> Result<(), AllocError> {
        let begins = marked(walk.source.alloc, &[], b'>')?;
        self.node(walk.source.alloc, begins)?;
        self.add_states(walk, walk.chart.states())?;
        self.add_arrows(walk, walk.chart.arrows())
    }

    /// The ways through a chart.
    pub fn of(source: Source<'_>, chart: &Chart) -> Result<Ways, AllocError> {
        let mut ways = Ways::new(source.alloc);
        ways.add_chart(&Walk { source, chart })?;
        Ok(ways)
    }

    /// The branches of each choice point, as the numbers of their transitions, in order.
    pub fn choices(&self) -> &IndexMap<usize, Vec<usize>> {
        &self.choices
    }

    /// The nodes to which steps lead from a node.
    fn steps_from(&self, node: usize) -> &[usize] {
        match self.edges.as_slice().get(node) {
            Some(steps) => steps.as_slice(),
            None => &[],
        }
    }

    /// Goes one step on from each of some nodes; gives those that weren't reached before.
    fn step(
        &self,
        alloc: Global,
        from: &[usize],
        reached: &mut [bool],
    ) -> Result<Vec<usize>, AllocError> {
        let mut next = Vec::new(alloc);
        for node in from {
            for to in self.steps_from(*node) {
                if reach(*to, reached) {
                    next.push(*to)?;
                }
            }
        }
        Ok(next)
    }

    /// Goes on from the first node as far as ways lead.
    fn walk(&self, alloc: Global, reached: &mut [bool]) -> Result<(), AllocError> {
        let mut level = Vec::new(alloc);
        level.push(0usize)?;
        for _step in 0..self.nodes.len() {
            level = self.step(alloc, level.as_slice(), reached)?;
            if level.is_empty() {
                break;
            }
        }
        Ok(())
    }

    /// Whether each node is on a way from the initial transition, by number.
    pub fn reached(&self, alloc: Global) -> Result<Vec<bool>, AllocError> {
        let mut reached = first_reached(alloc, self.nodes.len())?;
        self.walk(alloc, reached.as_mut_slice())?;
        Ok(reached)
    }

    /// The number of the node of a key, if it has one.
    pub fn number_of(&self, key: &[u8]) -> Option<usize> {
        self.nodes.get_index_of(key)
    }
}
