//! What the chart of a class has, at its places in the text: states, transitions and codes, those of its bases first.
use crate::by_port::ByPort;
use crate::items::{Item, is_mark};
use crate::keys::named;
use crate::source::Source;
use indexmap::{IndexMap, IndexSet};
use room_lexer::{Mark, Token, TokenKind, Word};
use std::alloc::{AllocError, Global};

/// How deep states nest at most, with the top graph.
const MOST_DEEP: usize = 17;

/// A part of a graph, as a transition or a point: the number of the state whose graph has it, none in the top graph, and
/// its part of the text.
#[derive(Clone, Copy, Drop)]
pub struct Part {
    pub owner: Option<usize>,
    pub item: Item,
}

/// A state: its key, which is that of the state that holds it, a dot and its name; and where it stands.
#[derive(Drop)]
pub struct State {
    pub key: Vec<u8>,
    pub part: Part,
}

/// What a chart has, in the order in which charts have it.
#[derive(Drop)]
pub struct Chart {
    states: Vec<State>,
    by_key: IndexMap<Vec<u8>, usize>,
    points: Vec<Part>,
    /// The keys of the transition points.
    doors: IndexSet<Vec<u8>>,
    arrows: Vec<Part>,
    /// The states that have a graph, as their numbers.
    composite: IndexSet<usize>,
    /// The entry, exit and action codes.
    codes: Vec<Item>,
    /// The messages that transitions name, by ports.
    taken: ByPort,
}

/// The message and the port of an event that begins behind a token: `<` or `|`.
pub fn event_in(tokens: &[Token]) -> Option<(&Token, &Token)> {
    let [before, message, colon, port, ..] = tokens else {
        return None;
    };
    let is_event = begins_event(before) && is_mark(colon, Mark::Colon);
    is_event.then_some((message, port))
}

/// Whether an event begins behind a token.
fn begins_event(token: &Token) -> bool {
    is_mark(token, Mark::Less) || is_mark(token, Mark::Bar)
}

/// The key of the state that a refinement names by its path.
fn refined_key(source: Source<'_>, item: Item) -> Result<Vec<u8>, AllocError> {
    let mut key = Vec::new(source.alloc);
    for token in source.tokens_of(item) {
        if is_mark(token, Mark::OpenBrace) {
            break;
        }
        if token.kind == TokenKind::Ident(None) {
            key.push(b'.')?;
            key.extend_from_slice(source.bytes(token))?;
        }
    }
    Ok(key)
}

impl Chart {
    fn new(alloc: Global) -> Chart {
        Chart {
            states: Vec::new(alloc),
            by_key: IndexMap::new(alloc),
            points: Vec::new(alloc),
            doors: IndexSet::new(alloc),
            arrows: Vec::new(alloc),
            composite: IndexSet::new(alloc),
            codes: Vec::new(alloc),
            taken: ByPort::new(alloc),
        }
    }

    /// The states.
    pub fn states(&self) -> &[State] {
        self.states.as_slice()
    }

    /// The points and choice points.
    pub fn points(&self) -> &[Part] {
        self.points.as_slice()
    }

    /// The transitions.
    pub fn arrows(&self) -> &[Part] {
        self.arrows.as_slice()
    }

    /// The entry, exit and action codes.
    pub fn codes(&self) -> &[Item] {
        self.codes.as_slice()
    }

    /// The messages that transitions name, by ports.
    pub fn taken(&self) -> &ByPort {
        &self.taken
    }

    /// The key of a state; nothing stands for the top graph.
    pub fn key_of(&self, owner: Option<usize>) -> &[u8] {
        match owner {
            Some(number) => match self.states.as_slice().get(number) {
                Some(state) => state.key.as_slice(),
                None => &[],
            },
            None => &[],
        }
    }

    /// Whether a state has a graph, by its number.
    pub fn is_composite(&self, state: usize) -> bool {
        self.composite.contains(&state)
    }

    /// The number of the state of a key.
    pub fn state_of(&self, key: &[u8]) -> Option<usize> {
        self.by_key.get(key).copied()
    }

    pub(crate) fn has_state(&self, key: &[u8]) -> bool {
        self.by_key.contains_key(key)
    }

    pub(crate) fn has_transition_point(&self, key: &[u8]) -> bool {
        self.doors.contains(key)
    }

    /// Adds the codes and the graph in the body of a state, or of what refines it.
    fn add_body(
        &mut self,
        source: Source<'_>,
        item: Item,
        number: usize,
        below: &mut Vec<Part>,
    ) -> Result<(), AllocError> {
        for part in source.parts(item)?.as_slice() {
            match source.word(*part) {
                Some(Word::Entry | Word::Exit) => self.codes.push(*part)?,
                Some(Word::Subgraph) => {
                    self.composite.insert(number)?;
                    below.push(Part {
                        owner: Some(number),
                        item: *part,
                    })?
                }
                _ => (),
            }
        }
        Ok(())
    }

    /// Adds a state without what is in it; gives its number.
    fn add_name(&mut self, source: Source<'_>, part: Part) -> Result<usize, AllocError> {
        let number = self.states.len();
        let name = source.name(part.item).unwrap_or(&[]);
        let known = named(source.alloc, self.key_of(part.owner), b'.', name)?;
        let key = Vec::from_slice(source.alloc, known.as_slice())?;
        self.by_key.insert(known, number)?;
        self.states.push(State { key, part })?;
        Ok(number)
    }

    /// Adds a state and what is in it.
    fn add_state(
        &mut self,
        source: Source<'_>,
        part: Part,
        below: &mut Vec<Part>,
    ) -> Result<(), AllocError> {
        let number = self.add_name(source, part)?;
        self.add_body(source, part.item, number, below)
    }

    /// Adds what refines a state.
    fn add_refined_state(
        &mut self,
        source: Source<'_>,
        item: Item,
        below: &mut Vec<Part>,
    ) -> Result<(), AllocError> {
        let key = refined_key(source, item)?;
        match self.by_key.get(key.as_slice()).copied() {
            Some(number) => self.add_body(source, item, number, below),
            None => Ok(()),
        }
    }

    /// Adds a transition point.
    fn add_transition_point(&mut self, source: Source<'_>, part: Part) -> Result<(), AllocError> {
        let name = source.name(part.item).unwrap_or(&[]);
        let key = named(source.alloc, self.key_of(part.owner), b':', name)?;
        self.doors.insert(key)?;
        Ok(self.points.push(part)?)
    }

    fn add_transition(&mut self, source: Source<'_>, part: Part) -> Result<(), AllocError> {
        self.arrows.push(part)?;
        self.add_deeds(source, part.item)
    }

    /// Adds the events of the triggers of a transition.
    fn add_events(&mut self, source: Source<'_>, triggers: Item) -> Result<(), AllocError> {
        let tokens = source.tokens_of(triggers);
        for at in 0..tokens.len() {
            if let Some((message, port)) = event_in(tokens.get(at..).unwrap_or(&[])) {
                self.taken
                    .add(source.alloc, source.bytes(port), source.bytes(message))?;
            }
        }
        Ok(())
    }

    /// Adds the action and the events of a transition, or the action of what refines it.
    fn add_deeds(&mut self, source: Source<'_>, item: Item) -> Result<(), AllocError> {
        for part in source.parts(item)?.as_slice() {
            match source.word(*part) {
                Some(Word::Action) => self.codes.push(*part)?,
                Some(Word::Triggers) => self.add_events(source, *part)?,
                _ => (),
            }
        }
        Ok(())
    }

    /// Adds a part of a graph; the graphs in it are added to those below.
    fn add_part(
        &mut self,
        source: Source<'_>,
        part: Part,
        below: &mut Vec<Part>,
    ) -> Result<(), AllocError> {
        match source.word(part.item) {
            Some(Word::State) => self.add_state(source, part, below),
            Some(Word::RefinedState) => self.add_refined_state(source, part.item, below),
            Some(Word::TransitionPoint) => self.add_transition_point(source, part),
            Some(Word::EntryPoint | Word::ExitPoint | Word::ChoicePoint) => {
                Ok(self.points.push(part)?)
            }
            Some(Word::Transition) => self.add_transition(source, part),
            Some(Word::RefinedTransition) => self.add_deeds(source, part.item),
            _ => Ok(()),
        }
    }

    /// Adds the parts of a graph that stand in a part of the text; the graphs in them are added to those below.
    fn add_graph(
        &mut self,
        source: Source<'_>,
        graph: Part,
        below: &mut Vec<Part>,
    ) -> Result<(), AllocError> {
        let owner = graph.owner;
        for item in source.parts(graph.item)?.as_slice() {
            self.add_part(source, Part { owner, item: *item }, below)?;
        }
        Ok(())
    }

    /// Adds the graphs of a level; gives those of the level below.
    fn add_level(&mut self, source: Source<'_>, level: &[Part]) -> Result<Vec<Part>, AllocError> {
        let mut below = Vec::new(source.alloc);
        for graph in level {
            self.add_graph(source, *graph, &mut below)?;
        }
        Ok(below)
    }

    /// Adds the state machine of a class, which stands in a part of the text. That of its base is added before it.
    fn add_machine(&mut self, source: Source<'_>, machine: Item) -> Result<(), AllocError> {
        let mut level = Vec::new(source.alloc);
        level.push(Part {
            owner: None,
            item: machine,
        })?;
        for _deep in 0..MOST_DEEP {
            level = self.add_level(source, level.as_slice())?;
        }
        Ok(())
    }

    /// Adds the state machine in the Behavior of a class.
    fn add_behavior(&mut self, source: Source<'_>, behavior: Item) -> Result<(), AllocError> {
        for machine in source.parts(behavior)?.as_slice() {
            self.add_machine(source, *machine)?;
        }
        Ok(())
    }

    /// Adds what a class says of its chart beyond its base.
    fn add_class(&mut self, source: Source<'_>, class: Item) -> Result<(), AllocError> {
        for part in source.parts(class)?.as_slice() {
            if source.word(*part) == Some(Word::Behavior) {
                self.add_behavior(source, *part)?;
            }
        }
        Ok(())
    }

    /// Adds what classes say of their chart, the last of them first.
    fn add_classes(&mut self, source: Source<'_>, chain: &[Item]) -> Result<(), AllocError> {
        for class in chain.iter().rev() {
            self.add_class(source, *class)?;
        }
        Ok(())
    }

    /// The chart of a class, which stands before its bases in a chain.
    pub fn of(source: Source<'_>, chain: &[Item]) -> Result<Chart, AllocError> {
        let mut chart = Chart::new(source.alloc);
        chart.add_classes(source, chain)?;
        Ok(chart)
    }
}
