//! What a chart has, counted by keys: states and points, and the transitions that go on from each.
//!
//! A key is that of a graph, a mark, and a name. The marks are `.` for a state, `?` for a choice point, `:` for
//! a transition point, `(` for an entry point, `)` for an exit point, `#` for any name of a state or a point; `>` for the
//! beginning of the graph, and `-` behind a choice point for a branch without a condition.
use indexmap::IndexMap;
use room_lexer::{Token, Word};
use std::alloc::{AllocError, Global};
use view_charts::{Chart, Ends, Item, Part, Source, ends_of, is_word, joined, named};

/// How often each key is there.
#[derive(Drop)]
pub(crate) struct Counts {
    counts: IndexMap<Vec<u8>, usize>,
}

impl Counts {
    pub(crate) fn new(alloc: Global) -> Counts {
        Counts {
            counts: IndexMap::new(alloc),
        }
    }

    pub(crate) fn add(&mut self, key: Vec<u8>) -> Result<(), AllocError> {
        let count = self.of(key.as_slice()).saturating_add(1);
        self.counts.insert(key, count)?;
        Ok(())
    }

    pub(crate) fn of(&self, key: &[u8]) -> usize {
        self.counts.get(key).copied().unwrap_or(0)
    }
}

/// Whether a transition has a part that begins with a word.
pub(crate) fn part_with(
    source: Source<'_>,
    item: Item,
    word: Word,
) -> Result<Option<Item>, AllocError> {
    let parts = source.parts(item)?;
    Ok(
        parts
            .as_slice()
            .iter()
            .copied()
            .find(|part| source.word(*part) == Some(word)),
    )
}

/// The mark of a point by the word that declares it.
fn mark_of(word: Option<Word>) -> Option<u8> {
    match word {
        Some(Word::ChoicePoint) => Some(b'?'),
        Some(Word::TransitionPoint) => Some(b':'),
        Some(Word::EntryPoint) => Some(b'('),
        Some(Word::ExitPoint) => Some(b')'),
        _ => None,
    }
}

/// What a chart has, and how often transitions go on from it.
#[derive(Drop)]
pub(crate) struct Shapes {
    pub there: Counts,
    pub onward: Counts,
}

/// A chart of which keys are made.
#[derive(Clone, Copy)]
pub(crate) struct Keys<'a> {
    pub source: Source<'a>,
    pub chart: &'a Chart,
}

impl<'a> Keys<'a> {
    /// The key of what a graph has under a name.
    pub(crate) fn key(
        &self,
        owner: Option<usize>,
        mark: u8,
        name: &[u8],
    ) -> Result<Vec<u8>, AllocError> {
        named(self.source.alloc, self.chart.key_of(owner), mark, name)
    }

    /// The key of what the graph of a state has under a name.
    pub(crate) fn key_of_state(
        &self,
        owner: Option<usize>,
        state: &Token,
        mark: u8,
        name: &[u8],
    ) -> Result<Vec<u8>, AllocError> {
        let state = self.key(owner, b'.', self.source.bytes(state))?;
        named(self.source.alloc, state.as_slice(), mark, name)
    }

    /// Whether a name stands for a choice point where it stands alone.
    fn is_choice(
        &self,
        there: &Counts,
        owner: Option<usize>,
        name: &[u8],
    ) -> Result<bool, AllocError> {
        Ok(there.of(self.key(owner, b'.', name)?.as_slice()) == 0)
    }

    /// The key of that from which a transition goes on at once, if it isn't triggered.
    pub(crate) fn origin(
        &self,
        there: &Counts,
        owner: Option<usize>,
        tokens: &[Token],
    ) -> Result<Option<Vec<u8>>, AllocError> {
        let key = match tokens {
            [only] if is_word(only, Word::Initial) => self.key(owner, b'>', b""),
            [only] => {
                let name = self.source.bytes(only);
                if !self.is_choice(there, owner, name)? {
                    return Ok(None);
                }
                self.key(owner, b'?', name)
            }
            [cp, name] if is_word(cp, Word::Cp) => self.key(owner, b'?', self.source.bytes(name)),
            [_my, name] => self.key(owner, b'(', self.source.bytes(name)),
            [name, _of, state] => self.key_of_state(owner, state, b')', self.source.bytes(name)),
            _ => return Ok(None),
        };
        Ok(Some(key?))
    }

    /// The key from which the transitions go on at once that follow where one leads.
    pub(crate) fn aim(
        &self,
        there: &Counts,
        owner: Option<usize>,
        tokens: &[Token],
    ) -> Result<Option<Vec<u8>>, AllocError> {
        let key = match tokens {
            [only] => {
                let name = self.source.bytes(only);
                if self.is_choice(there, owner, name)? {
                    self.key(owner, b'?', name)
                } else {
                    self.key_of_state(owner, only, b'>', b"")
                }
            }
            [cp, name] if is_word(cp, Word::Cp) => self.key(owner, b'?', self.source.bytes(name)),
            [_my, name] => self.key(owner, b')', self.source.bytes(name)),
            [name, _of, state] => {
                let door = self.key_of_state(owner, state, b':', self.source.bytes(name))?;
                if there.of(door.as_slice()) > 0 {
                    self.key_of_state(owner, state, b'>', b"")
                } else {
                    self.key_of_state(owner, state, b'(', self.source.bytes(name))
                }
            }
            _ => return Ok(None),
        };
        Ok(Some(key?))
    }
}

impl Shapes {
    /// Adds a state, or a point that isn't a choice point, under its name.
    fn add_name(&mut self, keys: &Keys<'_>, part: Part) -> Result<(), AllocError> {
        let name = keys.source.name(part.item).unwrap_or(&[]);
        self.there.add(keys.key(part.owner, b'#', name)?)
    }

    fn add_states(&mut self, keys: &Keys<'_>) -> Result<(), AllocError> {
        for state in keys.chart.states() {
            let key = Vec::from_slice(keys.source.alloc, state.key.as_slice())?;
            self.there.add(key)?;
            self.add_name(keys, state.part)?;
        }
        Ok(())
    }

    fn add_points(&mut self, keys: &Keys<'_>) -> Result<(), AllocError> {
        for point in keys.chart.points() {
            let Some(mark) = mark_of(keys.source.word(point.item)) else {
                continue;
            };
            let name = keys.source.name(point.item).unwrap_or(&[]);
            self.there.add(keys.key(point.owner, mark, name)?)?;
            if mark != b'?' {
                self.add_name(keys, *point)?;
            }
        }
        Ok(())
    }

    /// Adds that a transition goes on from its origin, and that it does so without a condition.
    fn add_onward(
        &mut self,
        keys: &Keys<'_>,
        arrow: Part,
        ends: Ends<'_>,
    ) -> Result<(), AllocError> {
        let Some(key) = keys.origin(&self.there, arrow.owner, ends.source)? else {
            return Ok(());
        };
        if part_with(keys.source, arrow.item, Word::Cond)?.is_none() {
            let plain = joined(keys.source.alloc, &[key.as_slice(), b"-"])?;
            self.onward.add(plain)?;
        }
        self.onward.add(key)
    }

    /// What a chart has.
    pub(crate) fn of(keys: &Keys<'_>) -> Result<Shapes, AllocError> {
        let mut shapes = Shapes {
            there: Counts::new(keys.source.alloc),
            onward: Counts::new(keys.source.alloc),
        };
        shapes.add_states(keys)?;
        shapes.add_points(keys)?;
        for arrow in keys.chart.arrows() {
            if let Some(ends) = ends_of(keys.source, *arrow) {
                shapes.add_onward(keys, *arrow, ends)?;
            }
        }
        Ok(shapes)
    }
}
