//! The blocks, points and links of the chart of a class.
use crate::orders::{Orders, orders_of};
use crate::transitions::{add_code, label_of};
use indexmap::IndexMap;
use room_ast::{
    ChoicePoint, Code, GraphItem, PointKind, Source, State, StateBody, StateMachine, Target,
    Transition,
};
use std::alloc::{AllocError, Global};
use view_drawing::{Block, Diagram, End, Label, Link, Mark, Point, Shape, Sign, name_of};

/// How deep graphs stand in graphs at most, where they are drawn.
const MOST_DEEP: u32 = 64;

/// A name in a block.
#[derive(Clone, Copy, PartialEq, Eq, Hash)]
struct Key<'a> {
    block: usize,
    name: &'a [u8],
}

/// The chart of a class that is being drawn.
#[derive(Drop)]
struct Sketch<'a> {
    diagram: Diagram,
    states: IndexMap<Key<'a>, usize>,
    choices: IndexMap<Key<'a>, usize>,
    points: IndexMap<Key<'a>, usize>,
    /// For each block the one where its graph begins.
    starts: Vec<Option<usize>>,
    /// For each block whether it is composite.
    composite: Vec<bool>,
}

fn mark_of(kind: PointKind) -> Mark {
    match kind {
        PointKind::Transition => Mark::Door,
        PointKind::Entry => Mark::Entry,
        PointKind::Exit => Mark::Exit,
    }
}

/// The graph of a state, if it is composite.
fn graph_of(state: &State) -> Option<&[GraphItem]> {
    match &state.body {
        Some(body) => match &body.subgraph {
            Some(items) => Some(items.as_slice()),
            None => None,
        },
        None => None,
    }
}

/// A line for the action of a state.
fn add_action(
    alloc: Global,
    block: &mut Block,
    when: &[u8],
    code: &Option<Code>,
) -> Result<(), AllocError> {
    if let Some(code) = code {
        let mut text = Vec::from_slice(alloc, when)?;
        add_code(&mut text, code)?;
        block.notes.push(Label::of(alloc, text)?)?;
    }
    Ok(())
}

fn add_actions(alloc: Global, block: &mut Block, body: &StateBody) -> Result<(), AllocError> {
    add_action(alloc, block, b"entry / ", &body.entry)?;
    add_action(alloc, block, b"exit / ", &body.exit)
}

/// The block of a state, which stands in this one.
fn state_block(alloc: Global, inside: usize, state: &State) -> Result<Block, AllocError> {
    let title = name_of(alloc, state.name.as_bytes())?;
    let mut block = Block::new(alloc, Shape::State, Some(inside), title);
    if let Some(body) = &state.body {
        add_actions(alloc, &mut block, body)?;
    }
    Ok(block)
}

/// The block that holds the chart of a class.
fn frame_of(alloc: Global, class: &[u8]) -> Result<Block, AllocError> {
    let title = name_of(alloc, class)?;
    Ok(Block::new(alloc, Shape::Frame, None, title))
}

fn is_initial(item: &GraphItem) -> bool {
    match item {
        GraphItem::Transition(transition) => matches!(transition.source, Source::Initial),
        _ => false,
    }
}

impl<'a> Sketch<'a> {
    fn new(alloc: Global) -> Sketch<'a> {
        Sketch {
            diagram: Diagram::new(alloc, true),
            states: IndexMap::new(alloc),
            choices: IndexMap::new(alloc),
            points: IndexMap::new(alloc),
            starts: Vec::new(alloc),
            composite: Vec::new(alloc),
        }
    }

    fn alloc(&self) -> Global {
        self.diagram.alloc
    }

    fn add_block(&mut self, block: Block, is_composite: bool) -> Result<usize, AllocError> {
        self.starts.push(None)?;
        self.composite.push(is_composite)?;
        self.diagram.add_block(block)
    }

    /// Adds the points on the border of a block.
    fn add_points(&mut self, block: usize, items: &'a [GraphItem]) -> Result<(), AllocError> {
        for item in items {
            if let GraphItem::Point(point) = item {
                let name = point.name.as_bytes();
                let drawn = Point::new(mark_of(point.kind), name_of(self.alloc(), name)?);
                let number = self.diagram.add_point(block, drawn)?;
                self.points.insert(Key { block, name }, number)?;
            }
        }
        Ok(())
    }

    /// Adds the place where the graph of a block begins, if it is ever entered anew.
    fn add_start(&mut self, block: usize, items: &'a [GraphItem]) -> Result<(), AllocError> {
        if items.iter().any(is_initial) {
            let alloc = self.alloc();
            let start = Block::new(alloc, Shape::Start, Some(block), Vec::new(alloc));
            let number = self.add_block(start, false)?;
            if let Some(place) = self.starts.as_mut_slice().get_mut(block) {
                *place = Some(number);
            }
        }
        Ok(())
    }

    fn add_choice(&mut self, inside: usize, choice: &'a ChoicePoint) -> Result<(), AllocError> {
        let name = choice.name.as_bytes();
        let alloc = self.alloc();
        let title = name_of(alloc, name)?;
        let block = Block::new(alloc, Shape::Choice, Some(inside), title);
        let number = self.add_block(block, false)?;
        let key = Key {
            block: inside,
            name,
        };
        self.choices.insert(key, number)?;
        Ok(())
    }

    /// Adds a state without what stands in it, and gives its number.
    fn add_state(&mut self, inside: usize, state: &'a State) -> Result<usize, AllocError> {
        let block = state_block(self.alloc(), inside, state)?;
        let number = self.add_block(block, graph_of(state).is_some())?;
        let key = Key {
            block: inside,
            name: state.name.as_bytes(),
        };
        self.states.insert(key, number)?;
        Ok(number)
    }

    /// Adds a state or a choice point. Gives the graph of a composite state, and the number of the block that it is of.
    fn add_item(
        &mut self,
        block: usize,
        item: &'a GraphItem,
    ) -> Result<Option<(usize, &'a [GraphItem])>, AllocError> {
        match item {
            GraphItem::State(state) => {
                let number = self.add_state(block, state)?;
                match graph_of(state) {
                    Some(graph) => Ok(Some((number, graph))),
                    None => Ok(None),
                }
            }
            GraphItem::Choice(choice) => {
                self.add_choice(block, choice)?;
                Ok(None)
            }
            GraphItem::Point(_) | GraphItem::Transition(_) | GraphItem::Refinement(_) => Ok(None),
        }
    }

    /// Adds what stands in the graph of a block, and in the graphs inside, so deep at most.
    fn add_graph(
        &mut self,
        block: usize,
        items: &'a [GraphItem],
        deep: u32,
    ) -> Result<(), AllocError> {
        self.add_points(block, items)?;
        self.add_start(block, items)?;
        for item in items {
            if let Some((number, graph)) = self.add_item(block, item)?
                && deep > 0
            {
                self.add_graph(number, graph, deep - 1)?;
            }
        }
        self.add_transitions(block, items)
    }

    /// Adds the transitions of the graph of a block.
    fn add_transitions(&mut self, block: usize, items: &'a [GraphItem]) -> Result<(), AllocError> {
        let mut orders = orders_of(self.alloc(), items)?;
        for item in items {
            if let GraphItem::Transition(transition) = item {
                self.add_transition(block, transition, &mut orders)?;
            }
        }
        Ok(())
    }

    fn add_transition(
        &mut self,
        inside: usize,
        transition: &'a Transition,
        orders: &mut Orders<'a>,
    ) -> Result<(), AllocError> {
        let order = orders.next(transition)?;
        let from = self.source_of(inside, &transition.source);
        let to = self.target_of(inside, &transition.target);
        if let (Some(from), Some(to)) = (from, to) {
            self.enter(inside, to);
            let label = label_of(self.alloc(), transition, order)?;
            self.add_link(inside, from, to, label)?;
        }
        Ok(())
    }

    fn add_link(
        &mut self,
        inside: usize,
        from: End,
        to: End,
        label: Label,
    ) -> Result<(), AllocError> {
        let link = Link {
            inside,
            from,
            to,
            label,
            is_dashed: false,
        };
        Ok(self.diagram.links.push(link)?)
    }

    /// Says of a composite state to which a transition leads by its name, or by a door of it, that it has a history.
    fn enter(&mut self, inside: usize, to: End) {
        let is_door = match to.point {
            Some(point) => match self.diagram.points.as_slice().get(point) {
                Some(point) => point.mark == Mark::Door,
                None => false,
            },
            None => true,
        };
        let is_composite = self.composite.as_slice().get(to.block) == Some(&true);
        if is_door
            && is_composite
            && to.block != inside
            && let Some(block) = self.diagram.blocks.as_mut_slice().get_mut(to.block)
        {
            block.has_history = true;
        }
    }

    fn source_of(&self, inside: usize, source: &'a Source) -> Option<End> {
        match source {
            Source::Initial => match self.starts.as_slice().get(inside) {
                Some(Some(start)) => Some(End {
                    block: *start,
                    point: None,
                }),
                _ => None,
            },
            Source::At(place) => self.target_of(inside, place),
        }
    }

    /// What a transition names in the graph of a block.
    fn target_of(&self, inside: usize, target: &'a Target) -> Option<End> {
        match target {
            Target::Bare(name) => {
                let name = name.as_bytes();
                match self.state(inside, name) {
                    Some(end) => Some(end),
                    None => self.choice(inside, name),
                }
            }
            Target::Choice(name) => self.choice(inside, name.as_bytes()),
            Target::My(name) => self.point(inside, name.as_bytes()),
            Target::Of { point, state } => {
                let state = self.state(inside, state.as_bytes())?;
                self.point(state.block, point.as_bytes())
            }
        }
    }

    fn state(&self, inside: usize, name: &'a [u8]) -> Option<End> {
        let block = *self.states.get(&Key {
            block: inside,
            name,
        })?;
        Some(End { block, point: None })
    }

    fn choice(&self, inside: usize, name: &'a [u8]) -> Option<End> {
        let block = *self.choices.get(&Key {
            block: inside,
            name,
        })?;
        Some(End { block, point: None })
    }

    fn point(&self, block: usize, name: &'a [u8]) -> Option<End> {
        let point = *self.points.get(&Key { block, name })?;
        Some(End {
            block,
            point: Some(point),
        })
    }

    /// Adds a frame with what stands in the chart of a class.
    fn add_chart(&mut self, class: &[u8], items: &'a [GraphItem]) -> Result<(), AllocError> {
        let frame = frame_of(self.alloc(), class)?;
        let number = self.add_block(frame, true)?;
        self.add_graph(number, items, MOST_DEEP)?;
        add_keys(&mut self.diagram)
    }

    /// What was drawn.
    fn into_diagram(self) -> Diagram {
        let Sketch { diagram, .. } = self;
        diagram
    }
}

/// What the legend of a chart tells, where it occurs.
fn add_keys(diagram: &mut Diagram) -> Result<(), AllocError> {
    let marks: [(Mark, &[u8]); 3] = [
        (Mark::Entry, b"entry point"),
        (Mark::Exit, b"exit point"),
        (Mark::Door, b"transition point"),
    ];
    diagram.add_marks(&marks)?;
    let blocks = diagram.blocks.as_slice();
    if blocks.iter().any(|block| block.has_history) {
        diagram.add_key(Sign::History, b"comes back to where it was left")?;
    }
    Ok(())
}

/// The picture of the chart of a class.
pub(crate) fn chart_picture(
    alloc: Global,
    class: &[u8],
    machine: &StateMachine,
) -> Result<Diagram, AllocError> {
    let mut sketch = Sketch::new(alloc);
    sketch.add_chart(class, machine.items.as_slice())?;
    Ok(sketch.into_diagram())
}
