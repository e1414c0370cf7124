//! The parts of a text whose absence mends a fault.
use crate::draft::Draft;
use room_lexer::{Token, TokenKind, Word};
use std::alloc::{AllocError, Global};
use view_charts::{Item, parts_of, tokens_of};

/// The most causes that are told.
const MOST_CAUSES: usize = 12;

/// How deep parts stand in parts at most, where they are looked for.
const MOST_DEEP: usize = 40;

/// A list of parts is halved so often at most.
const MOST_HALVES: u32 = 24;

/// How many bytes are read in the trials of a search, of which there are at least so few, and at most so many.
const MOST_READ: usize = 96 << 20;

const LEAST_TRIES: usize = 60;

const MOST_TRIES: usize = 1_500;

/// How much more is tried once there is a cause.
const MOST_MORE: usize = 150;

/// Who knows whether a text has a fault.
pub trait Judge {
    /// Whether the fault is gone from a text, and none before it has come. This is all that most trials ask.
    fn is_mended(&self, text: &[u8]) -> Result<bool, AllocError>;

    /// How far a text gets from which the fault is gone, and in which none before it has come: the more, the later the
    /// fault that it has instead, and `u32::MAX` where it has none. None where the fault stands, or one before it.
    fn reached(&self, text: &[u8]) -> Result<Option<u32>, AllocError>;
}

/// A search for the causes of a fault.
#[derive(Drop)]
struct Search<'a, J: Judge> {
    alloc: Global,
    judge: &'a J,
    draft: Draft<'a>,
    tries: usize,
    found: Vec<Item>,
}

impl<'a, J: Judge> Search<'a, J> {
    /// Whether the fault is gone from the draft, and none before it has come.
    fn is_mended(&mut self) -> Result<bool, AllocError> {
        if self.tries == 0 {
            return Ok(false);
        }
        self.tries -= 1;
        self.judge.is_mended(self.draft.bytes())
    }

    /// Whether the fault is gone where these parts are.
    fn is_mended_without(&mut self, items: &[Item]) -> Result<bool, AllocError> {
        self.draft.blank_all(items);
        let mended = self.is_mended()?;
        self.draft.restore_all(items);
        Ok(mended)
    }

    /// How far the draft gets, if the fault is gone from it.
    fn reached(&mut self) -> Result<Option<u32>, AllocError> {
        if self.tries == 0 {
            return Ok(None);
        }
        self.tries -= 1;
        self.judge.reached(self.draft.bytes())
    }

    /// How far the text gets without a part, if the fault is gone then.
    fn reached_without(&mut self, item: Item) -> Result<Option<u32>, AllocError> {
        self.draft.blank_all(&[item]);
        let reached = self.reached()?;
        self.draft.restore_all(&[item]);
        Ok(reached)
    }

    /// Looks for causes among parts of which it isn't known whether their absence mends the fault.
    fn seek(&mut self, items: &[Item], halves: u32) -> Result<(), AllocError> {
        if halves == 0 || items.is_empty() || self.found.len() >= MOST_CAUSES {
            return Ok(());
        }
        if self.is_mended_without(items)? {
            return self.seek_causes(items, halves);
        }
        if items.len() > 1 {
            let (left, right) = items.split_at(items.len() / 2);
            self.seek(left, halves - 1)?;
            self.seek(right, halves - 1)?;
        }
        Ok(())
    }

    /// Looks for the causes among parts whose absence mends the fault.
    fn seek_causes(&mut self, items: &[Item], halves: u32) -> Result<(), AllocError> {
        if halves == 0 || self.found.len() >= MOST_CAUSES {
            return Ok(());
        }
        if let [only] = items {
            return Ok(self.found.push(*only)?);
        }
        let (left, right) = items.split_at(items.len() / 2);
        let by_left = self.is_mended_without(left)?;
        let by_right = self.is_mended_without(right)?;
        if by_left || by_right {
            if by_left {
                self.seek_causes(left, halves - 1)?;
            }
            if by_right {
                self.seek_causes(right, halves - 1)?;
            }
            return Ok(());
        }
        let before = self.found.len();
        self.draft.blank_all(right);
        self.seek_causes(left, halves - 1)?;
        self.draft.restore_all(right);
        let found = self.found_since(before, left)?;
        self.draft.blank_all(found.as_slice());
        if !self.is_mended()? {
            self.seek_causes(right, halves - 1)?;
        }
        self.draft.restore_all(found.as_slice());
        Ok(())
    }

    /// The causes among suspects that aren't within others: those but of the parts that say which actors the system begins
    /// with, and where there are none, all.
    fn first(&mut self, tokens: &[Token], list: Vec<Item>) -> Result<Vec<Item>, AllocError> {
        let tries = self.tries;
        let others = without_system(self.alloc, tokens, list.as_slice())?;
        let found = self.outermost(others)?;
        if !found.is_empty() {
            return Ok(found);
        }
        self.tries = tries;
        self.outermost(list)
    }

    /// The causes within those that were found, as long as others stand there.
    fn innermost(&mut self, outer: Vec<Item>) -> Result<Vec<Item>, AllocError> {
        let mut found = outer;
        for _deep in 0..MOST_DEEP {
            let inside = self.all_inside(found.as_slice())?;
            let is_same = inside.as_slice() == found.as_slice();
            found = inside;
            if is_same {
                break;
            }
        }
        Ok(found)
    }

    /// What was found since so many were found; all of some parts where nothing was.
    fn found_since(&self, before: usize, all: &[Item]) -> Result<Vec<Item>, AllocError> {
        match self.found.as_slice().get(before..) {
            Some([]) | None => Vec::from_slice(self.alloc, all),
            Some(found) => Vec::from_slice(self.alloc, found),
        }
    }

    /// The causes among these parts.
    fn causes_among(&mut self, items: &[Item]) -> Result<Vec<Item>, AllocError> {
        self.found = Vec::new(self.alloc);
        self.seek(items, MOST_HALVES)?;
        let none = Vec::new(self.alloc);
        Ok(std::mem::replace(&mut self.found, none))
    }

    /// The parts inside those of some parts that are no causes.
    fn parts_beside(&self, items: &[Item], causes: &[Item]) -> Result<Vec<Item>, AllocError> {
        let mut all = Vec::new(self.alloc);
        for item in items {
            if !causes.contains(item) {
                all.append(&mut parts_of(self.alloc, self.draft.tokens(), *item)?)?;
            }
        }
        Ok(all)
    }

    /// The outermost causes among some parts and the parts inside them: all that are causes alone; where there are none,
    /// the first group that is one. Once there is one, little more is tried.
    fn outermost(&mut self, items: Vec<Item>) -> Result<Vec<Item>, AllocError> {
        let mut best = Alone::none(self.alloc);
        let mut group = Vec::new(self.alloc);
        let mut level = items;
        for _deep in 0..MOST_DEEP {
            let found = self.causes_among(level.as_slice())?;
            if !found.is_empty() {
                self.tries = self.tries.min(MOST_MORE);
            }
            let alone = self.alone(found.as_slice())?;
            level = self.parts_beside(level.as_slice(), alone.items.as_slice())?;
            best = best.or(alone)?;
            if group.is_empty() {
                group = found;
            }
            if level.is_empty() || best.is_enough() {
                break;
            }
        }
        if best.items.is_empty() {
            return self.needed(group);
        }
        Ok(best.items)
    }

    /// The causes inside a cause, or it itself where none of its parts is one. Where the fault stands without the
    /// other causes too, these are away meanwhile.
    fn inside(&mut self, cause: Item, others: &[Item]) -> Result<Vec<Item>, AllocError> {
        let parts = parts_of(self.alloc, self.draft.tokens(), cause)?;
        if parts.is_empty() {
            return Vec::from_slice(self.alloc, &[cause]);
        }
        self.draft.blank_all(others);
        let apart = !self.is_mended()?;
        if !apart {
            self.draft.restore_all(others);
        }
        let found = self.causes_among(parts.as_slice())?;
        let alone = self.alone(found.as_slice())?;
        if apart {
            self.draft.restore_all(others);
        }
        if found.is_empty() {
            return Vec::from_slice(self.alloc, &[cause]);
        }
        if alone.items.is_empty() {
            return Ok(found);
        }
        Ok(alone.items)
    }

    /// Those of some parts of which each alone is a cause, and without which the text gets furthest: where another one is
    /// left out, a fault stands that its absence has made.
    fn alone(&mut self, items: &[Item]) -> Result<Alone, AllocError> {
        let mut best = Alone::none(self.alloc);
        for item in items {
            if let Some(reached) = self.reached_without(*item)? {
                let one = Alone::one(self.alloc, reached, *item)?;
                best = best.or(one)?;
            }
        }
        Ok(best)
    }

    /// A group of parts that together are a cause, without what isn't needed in it.
    fn needed(&mut self, group: Vec<Item>) -> Result<Vec<Item>, AllocError> {
        let mut left = Vec::from_slice(self.alloc, group.as_slice())?;
        for item in group.as_slice() {
            let rest = without(self.alloc, left.as_slice(), *item)?;
            if !rest.is_empty() && self.is_mended_without(rest.as_slice())? {
                left = rest;
            }
        }
        Ok(left)
    }

    /// The causes inside causes.
    fn all_inside(&mut self, causes: &[Item]) -> Result<Vec<Item>, AllocError> {
        let mut all = Vec::new(self.alloc);
        for cause in causes {
            let others = without(self.alloc, causes, *cause)?;
            all.append(&mut self.inside(*cause, others.as_slice())?)?;
        }
        Ok(all)
    }
}

/// Parts of which each alone is a cause, and how far the text gets without it.
#[derive(Drop)]
struct Alone {
    reached: u32,
    items: Vec<Item>,
}

impl Alone {
    fn none(alloc: Global) -> Alone {
        Alone {
            reached: 0,
            items: Vec::new(alloc),
        }
    }

    fn one(alloc: Global, reached: u32, item: Item) -> Result<Alone, AllocError> {
        let items = Vec::from_slice(alloc, &[item])?;
        Ok(Alone { reached, items })
    }

    /// Whether the text has no fault without them, and there are as many as are told, so that those further inside
    /// aren't asked for.
    fn is_enough(&self) -> bool {
        self.reached == u32::MAX && self.items.len() >= MOST_CAUSES
    }

    /// Those of both without which the text gets furthest.
    fn or(self, other: Alone) -> Result<Alone, AllocError> {
        if other.reached > self.reached {
            return Ok(other);
        }
        let Alone { reached, mut items } = self;
        if other.reached == reached {
            items.extend_from_slice(other.items.as_slice())?;
        }
        Ok(Alone { reached, items })
    }
}

/// Some parts without one of them.
fn without(alloc: Global, items: &[Item], one: Item) -> Result<Vec<Item>, AllocError> {
    let mut others = Vec::new(alloc);
    for item in items {
        if *item != one {
            others.push(*item)?;
        }
    }
    Ok(others)
}

/// The class of this name among the parts of a model.
fn class_named(
    alloc: Global,
    tokens: &[Token],
    text: &[u8],
    items: &[Item],
    name: &[u8],
) -> Result<Vec<Item>, AllocError> {
    let mut found = Vec::new(alloc);
    for item in items {
        if declares_class(tokens, text, *item, name) {
            found.push(*item)?;
        }
    }
    Ok(found)
}

/// Whether a part is the actor class of this name.
fn declares_class(tokens: &[Token], text: &[u8], item: Item, name: &[u8]) -> bool {
    let mut is_class = false;
    for token in tokens_of(tokens, item) {
        if is_class {
            return text.get(token.start..token.end) == Some(name);
        }
        is_class = token.kind == TokenKind::Ident(Some(Word::ActorClass));
    }
    false
}

/// Whether a part says which actors the system begins with: without them most faults are gone, and so it is looked
/// into last.
fn begins_system(tokens: &[Token], item: Item) -> bool {
    match tokens_of(tokens, item) {
        [first, ..] => matches!(
            first.kind,
            TokenKind::Ident(Some(Word::LogicalSystem | Word::SubSystemClass))
        ),
        [] => false,
    }
}

/// Those of some parts that don't say which actors the system begins with.
fn without_system(
    alloc: Global,
    tokens: &[Token],
    items: &[Item],
) -> Result<Vec<Item>, AllocError> {
    let mut others = Vec::new(alloc);
    for item in items {
        if !begins_system(tokens, *item) {
            others.push(*item)?;
        }
    }
    Ok(others)
}

/// The parts among which the causes of a fault are looked for: those of a model, or the class of this name.
fn suspects(
    alloc: Global,
    text: &[u8],
    tokens: &[Token],
    class: Option<&[u8]>,
) -> Result<Vec<Item>, AllocError> {
    let whole = Item {
        first: 0,
        end: tokens.len(),
    };
    let classes = parts_of(alloc, tokens, whole)?;
    match class {
        Some(name) => class_named(alloc, tokens, text, classes.as_slice(), name),
        None => Ok(classes),
    }
}

/// The causes of a fault of a model whose text has these tokens, in the order in which they were found: parts whose
/// absence mends it, alone, or else together, and then no more of them than are needed. Where the absence of some has
/// another fault come, and that of others beside them hasn't, the others are told. Of a fault of an actor class, those
/// in the class of this name. None where no part was found to be one within the trials that a search has.
pub fn find_causes<J: Judge>(
    alloc: Global,
    text: &[u8],
    tokens: &[Token],
    class: Option<&[u8]>,
    judge: &J,
) -> Result<Vec<Item>, AllocError> {
    let tries = (MOST_READ / text.len().max(1)).clamp(LEAST_TRIES, MOST_TRIES);
    let list = suspects(alloc, text, tokens, class)?;
    let mut search = Search {
        alloc,
        judge,
        draft: Draft::of(alloc, text, tokens)?,
        tries,
        found: Vec::new(alloc),
    };
    let found = search.first(tokens, list)?;
    search.tries = tries;
    search.innermost(found)
}
