//! What the text says of actor classes, each with all that it has from its bases.
use indexmap::IndexMap;
use room_lexer::Word;
use std::alloc::AllocError;
use view_charts::{Chart, ClassItems, Deeds, Item, Source};

/// Where the ports, service points and references of a class are declared, by name.
#[derive(Drop)]
pub(crate) struct Declared<'a> {
    items: IndexMap<&'a [u8], Item>,
}

/// What the text says of an actor class.
#[derive(Drop)]
pub(crate) struct ClassText<'a> {
    pub chart: Chart,
    pub deeds: Deeds,
    pub declared: Declared<'a>,
}

impl<'a> Declared<'a> {
    /// Where a port, a service point or a reference is declared.
    pub(crate) fn get(&self, name: &[u8]) -> Option<Item> {
        self.items.get(name).copied()
    }

    /// Adds a declaration, if it has a name.
    fn add(&mut self, source: Source<'a>, item: Item) -> Result<(), AllocError> {
        if let Some(name) = source.name(item) {
            self.items.insert(name, item)?;
        }
        Ok(())
    }

    /// Adds the declarations in the Interface or in the Structure of a class.
    fn add_section(&mut self, source: Source<'a>, section: Item) -> Result<(), AllocError> {
        let items = source.parts(section)?;
        for item in items.as_slice() {
            if let Some(Word::Port | Word::Sap | Word::Spp | Word::ActorRef) = source.word(*item) {
                self.add(source, *item)?;
            }
        }
        Ok(())
    }

    /// Adds what a class declares beyond its base.
    fn add_class(&mut self, source: Source<'a>, class: Item) -> Result<(), AllocError> {
        let parts = source.parts(class)?;
        for part in parts.as_slice() {
            if let Some(Word::Interface | Word::Structure) = source.word(*part) {
                self.add_section(source, *part)?;
            }
        }
        Ok(())
    }

    /// Adds what classes declare, the last of them first.
    fn add_classes(&mut self, source: Source<'a>, chain: &[Item]) -> Result<(), AllocError> {
        for class in chain.iter().rev() {
            self.add_class(source, *class)?;
        }
        Ok(())
    }

    /// What a class declares, which stands before its bases in a chain.
    fn of(source: Source<'a>, chain: &[Item]) -> Result<Declared<'a>, AllocError> {
        let mut declared = Declared {
            items: IndexMap::new(source.alloc),
        };
        declared.add_classes(source, chain)?;
        Ok(declared)
    }
}

impl<'a> ClassText<'a> {
    /// What the text says of an actor class.
    pub(crate) fn of(
        source: Source<'a>,
        classes: &ClassItems<'a>,
        name: &[u8],
    ) -> Result<ClassText<'a>, AllocError> {
        let chain = classes.chain(source, name)?;
        let declared = Declared::of(source, chain.as_slice())?;
        let chart = Chart::of(source, chain.as_slice())?;
        let deeds = Deeds::of(source, chart.codes())?;
        Ok(ClassText {
            chart,
            deeds,
            declared,
        })
    }
}
