//! Where the text declares actor classes, and which are their bases.
use crate::items::Item;
use crate::source::Source;
use indexmap::IndexMap;
use room_lexer::{TokenKind, Word};
use std::alloc::AllocError;

/// The actor and subsystem classes of a text, by name.
#[derive(Drop)]
pub struct ClassItems<'a> {
    items: IndexMap<&'a [u8], Item>,
}

/// The name of the base of a class.
fn base_of<'a>(source: Source<'a>, item: Item) -> Option<&'a [u8]> {
    let mut extends = false;
    for token in source.tokens_of(item) {
        match token.kind {
            TokenKind::Ident(Some(Word::Extends)) => extends = true,
            TokenKind::Ident(None) if extends => return Some(source.bytes(token)),
            TokenKind::Mark(_) => return None,
            _ => (),
        }
    }
    None
}

impl<'a> ClassItems<'a> {
    /// The classes of a text.
    pub fn of(source: Source<'a>) -> Result<ClassItems<'a>, AllocError> {
        let declarations = source.declarations()?;
        let mut classes = ClassItems {
            items: IndexMap::new(source.alloc),
        };
        classes.add_all(source, declarations.as_slice())?;
        Ok(classes)
    }

    /// Adds the classes among declarations.
    fn add_all(&mut self, source: Source<'a>, declarations: &[Item]) -> Result<(), AllocError> {
        for item in declarations {
            if let Some(Word::ActorClass | Word::SubSystemClass) = source.word(*item) {
                self.add(source, *item)?;
            }
        }
        Ok(())
    }

    fn add(&mut self, source: Source<'a>, item: Item) -> Result<(), AllocError> {
        if let Some(name) = source.name(item) {
            self.items.insert(name, item)?;
        }
        Ok(())
    }

    /// Where a class is declared.
    pub fn get(&self, name: &[u8]) -> Option<Item> {
        self.items.get(name).copied()
    }

    /// Where the base of a class is declared.
    fn base(&self, source: Source<'a>, class: Item) -> Option<Item> {
        self.get(base_of(source, class)?)
    }

    /// A class and its bases, the class first.
    pub fn chain(&self, source: Source<'a>, name: &[u8]) -> Result<Vec<Item>, AllocError> {
        let mut chain = Vec::new(source.alloc);
        let mut next = self.get(name);
        for _class in 0..self.items.len() {
            let Some(item) = next else {
                break;
            };
            chain.push(item)?;
            next = self.base(source, item);
        }
        Ok(chain)
    }
}
