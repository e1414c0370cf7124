//! What is wrong with the shape of a chart: with its names, and with where transitions begin and lead to.
use crate::cause::{Cause, cause_with, listed};
use crate::charts::MOST_CAUSES;
use crate::shapes::{Keys, Shapes, part_with};
use room_lexer::{Token, Word};
use std::alloc::AllocError;
use view_charts::{Chart, Ends, Item, Part, Source, ends_of, is_word, joined};

/// How many names of a graph are looked at, of which the first are listed.
const MOST_NAMES: usize = 40;

/// A chart whose shape is looked at, and what it has.
#[derive(Drop)]
pub(crate) struct Shape<'a> {
    keys: Keys<'a>,
    shapes: Shapes,
}

/// Which points and whether states can stand in a place, and what they are called there.
#[derive(Clone, Copy)]
struct Wanted {
    called: &'static [u8],
    states: bool,
    points: &'static [Word],
}

const NODE: Wanted = Wanted {
    called: b"state or choice point",
    states: true,
    points: &[Word::ChoicePoint],
};

const CHOICE: Wanted = Wanted {
    called: b"choice point",
    states: false,
    points: &[Word::ChoicePoint],
};

const STATE: Wanted = Wanted {
    called: b"state",
    states: true,
    points: &[],
};

const WAY_IN: Wanted = Wanted {
    called: b"entry point or transition point",
    states: false,
    points: &[Word::EntryPoint, Word::TransitionPoint],
};

const WAY_OUT: Wanted = Wanted {
    called: b"exit point",
    states: false,
    points: &[Word::ExitPoint],
};

/// A name that a graph doesn't have: the graph, the token, and what is wanted there.
#[derive(Clone, Copy)]
struct Lack<'a> {
    owner: Option<usize>,
    name: &'a Token,
    wanted: Wanted,
}

/// That a graph doesn't have something, if it doesn't.
fn unless_there(
    is_there: bool,
    owner: Option<usize>,
    name: &Token,
    wanted: Wanted,
) -> Option<Lack<'_>> {
    if is_there {
        return None;
    }
    Some(Lack {
        owner,
        name,
        wanted,
    })
}

/// Adds a name that isn't there already.
fn add_name<'a>(names: &mut Vec<&'a [u8]>, name: Option<&'a [u8]>) -> Result<(), AllocError> {
    match name {
        Some(name) if names.len() < MOST_NAMES && !names.contains(&name) => Ok(names.push(name)?),
        _ => Ok(()),
    }
}

/// Whether a transition is the initial one of its graph.
fn is_initial(ends: Ends<'_>) -> bool {
    match ends.source {
        [only] => is_word(only, Word::Initial),
        _ => false,
    }
}

impl<'a> Shape<'a> {
    /// What a chart has.
    pub(crate) fn of(source: Source<'a>, chart: &'a Chart) -> Result<Shape<'a>, AllocError> {
        let keys = Keys { source, chart };
        let shapes = Shapes::of(&keys)?;
        Ok(Shape { keys, shapes })
    }

    fn source(&self) -> Source<'a> {
        self.keys.source
    }

    /// Whether a graph has something under a name.
    fn has(&self, owner: Option<usize>, mark: u8, name: &Token) -> Result<bool, AllocError> {
        let key = self.keys.key(owner, mark, self.source().bytes(name))?;
        Ok(self.shapes.there.of(key.as_slice()) > 0)
    }

    fn has_node(&self, owner: Option<usize>, name: &Token) -> Result<bool, AllocError> {
        Ok(self.has(owner, b'.', name)? || self.has(owner, b'?', name)?)
    }

    /// The number of the state of a graph with a name.
    fn state(&self, owner: Option<usize>, name: &Token) -> Result<Option<usize>, AllocError> {
        let key = self.keys.key(owner, b'.', self.source().bytes(name))?;
        Ok(self.keys.chart.state_of(key.as_slice()))
    }

    /// What a graph lacks for a transition to begin at a point of one of its states, or to lead there.
    fn lack_of_point<'t>(
        &self,
        owner: Option<usize>,
        name: &'t Token,
        state: &'t Token,
        marks: &[u8],
        wanted: Wanted,
    ) -> Result<Option<Lack<'t>>, AllocError> {
        let Some(number) = self.state(owner, state)? else {
            return Ok(unless_there(false, owner, state, STATE));
        };
        let mut is_there = false;
        for mark in marks {
            is_there = is_there || self.has(Some(number), *mark, name)?;
        }
        Ok(unless_there(is_there, Some(number), name, wanted))
    }

    /// What a graph lacks for a transition to begin there.
    fn lack_of_source<'t>(
        &self,
        owner: Option<usize>,
        tokens: &'t [Token],
    ) -> Result<Option<Lack<'t>>, AllocError> {
        match tokens {
            [only] => {
                let is_there = is_word(only, Word::Initial) || self.has_node(owner, only)?;
                Ok(unless_there(is_there, owner, only, NODE))
            }
            [cp, name] if is_word(cp, Word::Cp) => {
                Ok(unless_there(self.has(owner, b'?', name)?, owner, name, CHOICE))
            }
            [_my, name] => {
                let is_there = self.has(owner, b'(', name)? || self.has(owner, b':', name)?;
                Ok(unless_there(is_there, owner, name, WAY_IN))
            }
            [name, _of, state] => self.lack_of_point(owner, name, state, b")", WAY_OUT),
            _ => Ok(None),
        }
    }

    /// What a graph lacks for a transition to lead there.
    fn lack_of_target<'t>(
        &self,
        owner: Option<usize>,
        tokens: &'t [Token],
    ) -> Result<Option<Lack<'t>>, AllocError> {
        match tokens {
            [only] => Ok(unless_there(self.has_node(owner, only)?, owner, only, NODE)),
            [cp, name] if is_word(cp, Word::Cp) => {
                Ok(unless_there(self.has(owner, b'?', name)?, owner, name, CHOICE))
            }
            [_my, name] => Ok(unless_there(self.has(owner, b')', name)?, owner, name, WAY_OUT)),
            [name, _of, state] => self.lack_of_point(owner, name, state, b"(:", WAY_IN),
            _ => Ok(None),
        }
    }

    /// The names in a graph of what is wanted.
    fn names_there(
        &self,
        owner: Option<usize>,
        wanted: Wanted,
    ) -> Result<Vec<&'a [u8]>, AllocError> {
        let source = self.source();
        let mut names = Vec::new(source.alloc);
        for state in self.keys.chart.states() {
            if wanted.states && state.part.owner == owner {
                add_name(&mut names, source.name(state.part.item))?;
            }
        }
        for point in self.keys.chart.points() {
            let is_wanted = source
                .word(point.item)
                .is_some_and(|word| wanted.points.contains(&word));
            if is_wanted && point.owner == owner {
                add_name(&mut names, source.name(point.item))?;
            }
        }
        Ok(names)
    }

    /// A state of another graph with a name.
    fn elsewhere(&self, lack: Lack<'_>) -> Option<Item> {
        if !lack.wanted.states {
            return None;
        }
        let name = self.source().bytes(lack.name);
        let mut states = self.keys.chart.states().iter();
        let state = states.find(|state| self.source().name(state.part.item) == Some(name))?;
        Some(state.part.item)
    }

    /// The name of the state whose graph it is, for a graph inside of a state.
    fn graph_name(&self, owner: Option<usize>) -> &'a [u8] {
        match owner {
            Some(number) => match self.keys.chart.states().get(number) {
                Some(state) => self.source().name(state.part.item).unwrap_or(&[]),
                None => &[],
            },
            None => &[],
        }
    }

    /// That a graph lacks something, and what it has.
    fn tell_lack(&self, lack: Lack<'_>) -> Result<Cause, AllocError> {
        let source = self.source();
        let names = self.names_there(lack.owner, lack.wanted)?;
        let there = listed(source.alloc, names.as_slice())?;
        let what = joined(source.alloc, &[b"there is no ", lack.wanted.called, b" `"])?;
        let graph = self.graph_name(lack.owner);
        let before: &[u8] = match lack.owner {
            Some(_) => b"` in the graph of `",
            None => b"` in the top graph",
        };
        let behind: &[u8] = match lack.owner {
            Some(_) => b"`; there are: ",
            None => b"; there are: ",
        };
        let elsewhere = self.elsewhere(lack);
        let inner: &[u8] = match elsewhere {
            Some(_) => b"; a state of this name is in another graph",
            None => b"",
        };
        cause_with(
            source.alloc,
            (lack.name.start, lack.name.end),
            &[
                what.as_slice(),
                source.bytes(lack.name),
                before,
                graph,
                behind,
                there.as_slice(),
                inner,
            ],
        )?
        .about(elsewhere)
    }

    /// Whether a transition begins at a choice point of its graph, if it begins at what there is.
    fn begins_at_choice(&self, owner: Option<usize>, tokens: &[Token]) -> Result<bool, AllocError> {
        match tokens {
            [only] => Ok(!is_word(only, Word::Initial) && !self.has(owner, b'.', only)?),
            [first, _name] => Ok(is_word(first, Word::Cp)),
            _ => Ok(false),
        }
    }

    /// Whether a transition is triggered by messages: it begins at a state or a transition point.
    fn is_triggered(&self, owner: Option<usize>, tokens: &[Token]) -> Result<bool, AllocError> {
        match tokens {
            [only] => {
                let is_choice = self.begins_at_choice(owner, tokens)?;
                Ok(!is_word(only, Word::Initial) && !is_choice)
            }
            [my, name] if is_word(my, Word::My) => self.has(owner, b':', name),
            _ => Ok(false),
        }
    }

    /// What is wrong with the parts of a transition that begins and leads where it may.
    fn cause_of_parts(&self, arrow: Part, ends: Ends<'_>) -> Result<Option<Cause>, AllocError> {
        let source = self.source();
        let triggers = part_with(source, arrow.item, Word::Triggers)?;
        let condition = part_with(source, arrow.item, Word::Cond)?;
        let (item, what): (Item, &[u8]) = match (
            self.is_triggered(arrow.owner, ends.source)?,
            triggers,
        ) {
            (true, None) => (
                arrow.item,
                b"it begins at a state or a transition point, and has no triggers",
            ),
            (false, Some(item)) => (
                item,
                b"it has triggers, but begins at no state and no transition point",
            ),
            _ => match (self.begins_at_choice(arrow.owner, ends.source)?, condition) {
                (false, Some(item)) => (
                    item,
                    b"it has a `cond`, but begins at no choice point; a condition of a trigger is its `guard`",
                ),
                _ => return Ok(None),
            },
        };
        Ok(Some(cause_with(source.alloc, source.head(item), &[what])?))
    }

    /// What is wrong with a transition.
    fn cause_at_arrow(&self, arrow: Part, ends: Ends<'_>) -> Result<Option<Cause>, AllocError> {
        if let Some(lack) = self.lack_of_source(arrow.owner, ends.source)? {
            return Ok(Some(self.tell_lack(lack)?));
        }
        if let Some(lack) = self.lack_of_target(arrow.owner, ends.target)? {
            return Ok(Some(self.tell_lack(lack)?));
        }
        self.cause_of_parts(arrow, ends)
    }

    /// How many transitions go on from an entry or exit point.
    fn onward_from(&self, point: Part, name: &[u8]) -> Result<usize, AllocError> {
        let mark = match self.source().word(point.item) {
            Some(Word::EntryPoint) => b'(',
            Some(Word::ExitPoint) => b')',
            _ => return Ok(1),
        };
        let key = self.keys.key(point.owner, mark, name)?;
        Ok(self.shapes.onward.of(key.as_slice()))
    }

    /// What is wrong with a state or a point of a graph.
    fn what_at_name(&self, part: Part) -> Result<Option<&'static [u8]>, AllocError> {
        let Some(name) = self.source().name(part.item) else {
            return Ok(None);
        };
        let key = self.keys.key(part.owner, b'#', name)?;
        let word = self.source().word(part.item);
        if word != Some(Word::ChoicePoint) && self.shapes.there.of(key.as_slice()) > 1 {
            return Ok(Some(b"another state or point of its graph has this name"));
        }
        let is_border = matches!(word, Some(Word::EntryPoint | Word::ExitPoint));
        if is_border && part.owner.is_none() {
            return Ok(Some(b"the top graph has no border, and so no entry or exit point"));
        }
        if self.onward_from(part, name)? == 1 {
            return Ok(None);
        }
        let what: &'static [u8] = if word == Some(Word::EntryPoint) {
            b"not exactly one transition goes on from it inside, from `my` and its name"
        } else {
            b"not exactly one transition goes on from it outside, from its name `of` the state"
        };
        Ok(Some(what))
    }

    /// Adds what is wrong with a state or a point.
    fn add_name(&self, part: Part, causes: &mut Vec<Cause>) -> Result<(), AllocError> {
        if let Some(what) = self.what_at_name(part)? {
            let source = self.source();
            causes.push(cause_with(source.alloc, source.head(part.item), &[what])?)?;
        }
        Ok(())
    }

    /// What is wrong with names, and with where transitions begin and lead to.
    pub(crate) fn name_causes(&self) -> Result<Vec<Cause>, AllocError> {
        let mut causes = Vec::new(self.source().alloc);
        for arrow in self.keys.chart.arrows() {
            if causes.len() >= MOST_CAUSES {
                break;
            }
            if let Some(ends) = ends_of(self.source(), *arrow) {
                if let Some(found) = self.cause_at_arrow(*arrow, ends)? {
                    causes.push(found)?;
                }
            }
        }
        for state in self.keys.chart.states() {
            self.add_name(state.part, &mut causes)?;
        }
        for point in self.keys.chart.points() {
            self.add_name(*point, &mut causes)?;
        }
        Ok(causes)
    }

    /// How many initial transitions a graph has.
    fn beginnings(&self, owner: Option<usize>) -> Result<usize, AllocError> {
        let key = self.keys.key(owner, b'>', b"")?;
        Ok(self.shapes.onward.of(key.as_slice()))
    }

    /// The initial transitions of graphs that have several.
    pub(crate) fn beginning_causes(&self) -> Result<Vec<Cause>, AllocError> {
        let source = self.source();
        let mut causes = Vec::new(source.alloc);
        for arrow in self.keys.chart.arrows() {
            let Some(ends) = ends_of(source, *arrow) else {
                continue;
            };
            if is_initial(ends) && self.beginnings(arrow.owner)? > 1 {
                causes.push(cause_with(
                    source.alloc,
                    source.head(arrow.item),
                    &[b"its graph has another initial transition"],
                )?)?;
            }
        }
        Ok(causes)
    }

    /// The state that a transition enters as a whole, by its name or by a transition point of it.
    fn entered(&self, owner: Option<usize>, target: &[Token]) -> Result<Option<usize>, AllocError> {
        match target {
            [only] => self.state(owner, only),
            [name, _of, state] => match self.state(owner, state)? {
                Some(number) if self.has(Some(number), b':', name)? => Ok(Some(number)),
                _ => Ok(None),
            },
            _ => Ok(None),
        }
    }

    /// That a transition enters a graph without an initial one, if it does.
    fn entry_cause(&self, arrow: Part, ends: Ends<'_>) -> Result<Option<Cause>, AllocError> {
        let source = self.source();
        let Some(number) = self.entered(arrow.owner, ends.target)? else {
            return Ok(None);
        };
        let Some(state) = self.keys.chart.states().get(number) else {
            return Ok(None);
        };
        if !self.keys.chart.is_composite(number) || self.beginnings(Some(number))? > 0 {
            return Ok(None);
        }
        let found = cause_with(
            source.alloc,
            source.head(arrow.item),
            &[
                b"it enters `",
                source.name(state.part.item).unwrap_or(&[]),
                b"` as a whole, and inside that state there is no initial transition",
            ],
        )?;
        Ok(Some(found.about(Some(state.part.item))?))
    }

    /// The state machine of the first class of a chain that has one.
    fn machine(&self, chain: &[Item]) -> Result<Option<Item>, AllocError> {
        for class in chain {
            if let Some(behavior) = part_with(self.source(), *class, Word::Behavior)? {
                return part_with(self.source(), behavior, Word::StateMachine);
            }
        }
        Ok(None)
    }

    /// What is wrong where an initial transition is missing.
    pub(crate) fn missing_causes(&self, chain: &[Item]) -> Result<Vec<Cause>, AllocError> {
        let source = self.source();
        let mut causes = Vec::new(source.alloc);
        if self.beginnings(None)? == 0 {
            if let Some(machine) = self.machine(chain)? {
                causes.push(cause_with(
                    source.alloc,
                    source.head(machine),
                    &[b"the top graph has no initial transition"],
                )?)?;
            }
        }
        for arrow in self.keys.chart.arrows() {
            if let Some(ends) = ends_of(source, *arrow) {
                if let Some(found) = self.entry_cause(*arrow, ends)? {
                    causes.push(found)?;
                }
            }
        }
        Ok(causes)
    }

    /// How many branches of a choice point have no condition, and whether it has branches at all.
    fn defaults(&self, owner: Option<usize>, name: &[u8]) -> Result<(usize, bool), AllocError> {
        let any = self.keys.key(owner, b'?', name)?;
        let plain = joined(self.source().alloc, &[any.as_slice(), b"-"])?;
        let onward = &self.shapes.onward;
        Ok((onward.of(plain.as_slice()), onward.of(any.as_slice()) > 0))
    }

    /// That a choice point has no branch without a condition, if it has none.
    fn choice_cause(&self, point: Part) -> Result<Option<Cause>, AllocError> {
        let source = self.source();
        if source.word(point.item) != Some(Word::ChoicePoint) {
            return Ok(None);
        }
        let name = source.name(point.item).unwrap_or(&[]);
        let what: &[u8] = match self.defaults(point.owner, name)? {
            (0, true) => b"each of its branches has a `cond`, and one has to be without",
            (0, false) => b"no transition goes on from it",
            _ => return Ok(None),
        };
        Ok(Some(cause_with(source.alloc, source.head(point.item), &[what])?))
    }

    /// That another branch is without a condition as this one is, if it is so.
    fn branch_cause(&self, arrow: Part, ends: Ends<'_>) -> Result<Option<Cause>, AllocError> {
        let source = self.source();
        let Some(name) = ends.source.last() else {
            return Ok(None);
        };
        let is_plain = part_with(source, arrow.item, Word::Cond)?.is_none();
        if !is_plain || !self.begins_at_choice(arrow.owner, ends.source)? {
            return Ok(None);
        }
        if self.defaults(arrow.owner, source.bytes(name))?.0 < 2 {
            return Ok(None);
        }
        Ok(Some(cause_with(
            source.alloc,
            source.head(arrow.item),
            &[
                b"another branch of `",
                source.bytes(name),
                b"` is without a `cond`, too",
            ],
        )?))
    }

    /// What is wrong with the branches of choice points.
    pub(crate) fn branch_causes(&self) -> Result<Vec<Cause>, AllocError> {
        let source = self.source();
        let mut causes = Vec::new(source.alloc);
        for point in self.keys.chart.points() {
            if let Some(found) = self.choice_cause(*point)? {
                causes.push(found)?;
            }
        }
        for arrow in self.keys.chart.arrows() {
            if let Some(ends) = ends_of(source, *arrow) {
                if let Some(found) = self.branch_cause(*arrow, ends)? {
                    causes.push(found)?;
                }
            }
        }
        Ok(causes)
    }
}
