//! What parts of a text name, and where that is declared.
use indexmap::IndexSet;
use room_lexer::{Mark, Token, TokenKind, Word};
use std::alloc::{AllocError, Global};
use view_charts::{Item, parts_of, tokens_of};

/// The most declarations that are told.
const MOST_TOLD: usize = 8;

/// How deep declarations stand in others at most, where they are looked for.
const MOST_DEEP: usize = 40;

/// Whether a part that begins with a word declares the first name behind it.
fn declares_name(word: Word) -> bool {
    matches!(
        word,
        Word::Port
            | Word::Sap
            | Word::Spp
            | Word::Attribute
            | Word::ActorRef
            | Word::Message
            | Word::ActorClass
            | Word::ProtocolClass
            | Word::DataClass
            | Word::SubSystemClass
            | Word::LogicalThread
            | Word::State
            | Word::ChoicePoint
            | Word::TransitionPoint
            | Word::EntryPoint
            | Word::ExitPoint
    )
}

/// The name that a part declares, if it declares one. `external Port` repeats one.
fn declared_by<'a>(text: &'a [u8], tokens: &[Token], item: Item) -> Option<&'a [u8]> {
    let mut declares = false;
    for token in tokens_of(tokens, item) {
        match token.kind {
            TokenKind::Ident(Some(Word::External)) => return None,
            TokenKind::Ident(Some(word)) => declares = declares_name(word),
            TokenKind::Ident(None) if declares => return text.get(token.start..token.end),
            _ => return None,
        }
    }
    None
}

/// The names in the head of a part: up to its first brace.
fn add_names<'a>(
    names: &mut IndexSet<&'a [u8]>,
    text: &'a [u8],
    inside: &[Token],
) -> Result<(), AllocError> {
    for token in inside {
        if token.kind == TokenKind::Mark(Mark::OpenBrace) {
            return Ok(());
        }
        if token.kind == TokenKind::Ident(None) {
            names.insert(text.get(token.start..token.end).unwrap_or(b""))?;
        }
    }
    Ok(())
}

/// What is looked for in a text: declarations of these names outside of these parts.
#[derive(Clone, Copy)]
struct Sought<'a, 't> {
    alloc: Global,
    text: &'t [u8],
    tokens: &'a [Token],
    items: &'a [Item],
    names: &'a IndexSet<&'t [u8]>,
}

impl Sought<'_, '_> {
    fn is_told(&self, item: Item) -> bool {
        match declared_by(self.text, self.tokens, item) {
            Some(name) => self.names.contains(name) && !self.items.contains(&item),
            None => false,
        }
    }

    /// Finds what is told among parts side by side, and gives the parts within these.
    fn pass(&self, level: &[Item], found: &mut Vec<Item>) -> Result<Vec<Item>, AllocError> {
        let mut below = Vec::new(self.alloc);
        for item in level {
            if found.len() < MOST_TOLD && self.is_told(*item) {
                found.push(*item)?;
            }
            below.append(&mut parts_of(self.alloc, self.tokens, *item)?)?;
        }
        Ok(below)
    }

    /// The first declarations, in the order of the text.
    fn declared(&self) -> Result<Vec<Item>, AllocError> {
        let whole = Item {
            first: 0,
            end: self.tokens.len(),
        };
        let mut level = parts_of(self.alloc, self.tokens, whole)?;
        let mut found = Vec::new(self.alloc);
        for _deep in 0..MOST_DEEP {
            level = self.pass(level.as_slice(), &mut found)?;
            if level.is_empty() {
                break;
            }
        }
        Ok(found)
    }
}

/// Where names that stand in the heads of parts are declared, outside of these parts: the first places, in the order
/// of the text.
pub fn named_by(
    alloc: Global,
    text: &[u8],
    tokens: &[Token],
    items: &[Item],
) -> Result<Vec<Item>, AllocError> {
    let mut names = IndexSet::new(alloc);
    for item in items {
        add_names(&mut names, text, tokens_of(tokens, *item))?;
    }
    let sought = Sought {
        alloc,
        text,
        tokens,
        items,
        names: &names,
    };
    sought.declared()
}
