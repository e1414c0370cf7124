//! A model that is looked at: its text, its wiring, and its classes by both.
use crate::classes::ClassText;
use crate::places::has_joined;
use indexmap::{IndexMap, IndexSet};
use room_kinds::{ReferenceKind, SlotId};
use room_lexer::Word;
use room_wiring::{ClassNames, Path, Wiring};
use std::alloc::{AllocError, Global};
use view_charts::{ClassItems, Item, Source};

/// A port of a class, by their numbers.
#[derive(Clone, Copy, Drop, PartialEq, Eq, Hash)]
pub(crate) struct PortOf {
    pub class: u16,
    pub port: usize,
}

/// An actor class that has slots, by its number in the wiring.
#[derive(Drop)]
pub(crate) struct Class<'a> {
    pub number: u16,
    pub names: &'a ClassNames,
    pub text: ClassText<'a>,
    /// The numbers of its ports, by name.
    ports: IndexMap<&'a [u8], usize>,
    /// Its fixed and optional slots.
    pub slots: Vec<SlotId>,
    /// Its imported slots, at which actors of other slots live.
    pub imported: Vec<SlotId>,
}

/// A model that is looked at.
#[derive(Drop)]
pub(crate) struct LintedModel<'a> {
    pub source: Source<'a>,
    pub wiring: &'a Wiring,
    pub items: ClassItems<'a>,
    classes: Vec<Class<'a>>,
    /// The place of a class among them, by its number.
    places: IndexMap<u16, usize>,
    /// The ports at which actors can be lent: an imported slot of the class has the port joined.
    lent: IndexSet<PortOf>,
}

impl<'a> Class<'a> {
    /// A class as yet without slots.
    fn of(
        source: Source<'a>,
        items: &ClassItems<'a>,
        number: u16,
        names: &'a ClassNames,
    ) -> Result<Class<'a>, AllocError> {
        let ports = numbers_of(source.alloc, names)?;
        let text = ClassText::of(source, items, names.name.as_bytes())?;
        Ok(Class {
            number,
            names,
            text,
            ports,
            slots: Vec::new(source.alloc),
            imported: Vec::new(source.alloc),
        })
    }

    /// Whether a transition names a message at a port.
    pub(crate) fn takes(&self, port: &[u8], message: &[u8]) -> bool {
        self.text.chart.taken().has(port, message)
    }

    /// The number of a port.
    pub(crate) fn port(&self, name: &[u8]) -> Option<usize> {
        self.ports.get(name).copied()
    }
}

/// The numbers of ports, by name.
fn numbers_of(alloc: Global, names: &ClassNames) -> Result<IndexMap<&[u8], usize>, AllocError> {
    let mut ports = IndexMap::new(alloc);
    for (number, port) in names.ports.as_slice().iter().enumerate() {
        ports.insert(port.name.as_bytes(), number)?;
    }
    Ok(ports)
}

/// The slot of a number, as the wiring numbers them.
pub(crate) fn slot_at(number: u32) -> SlotId {
    SlotId((number & 0xffff) as u16)
}

impl<'a> LintedModel<'a> {
    pub(crate) fn of(
        source: Source<'a>,
        wiring: &'a Wiring,
    ) -> Result<LintedModel<'a>, AllocError> {
        let items = ClassItems::of(source)?;
        let mut model = LintedModel {
            source,
            wiring,
            items,
            classes: Vec::new(source.alloc),
            places: IndexMap::new(source.alloc),
            lent: IndexSet::new(source.alloc),
        };
        model.add_slots()?;
        Ok(model)
    }

    fn add_slots(&mut self) -> Result<(), AllocError> {
        for number in 0..self.wiring.slot_count() {
            self.add_slot(slot_at(number))?;
        }
        Ok(())
    }

    /// The classes that have slots, in the order of their first ones.
    pub(crate) fn classes(&self) -> &[Class<'a>] {
        self.classes.as_slice()
    }

    pub(crate) fn class(&self, number: u16) -> Option<&Class<'a>> {
        self.classes
            .as_slice()
            .get(self.places.get(&number).copied()?)
    }

    /// The class of a slot.
    pub(crate) fn class_of(&self, slot: SlotId) -> Option<&Class<'a>> {
        self.class(self.wiring.get_slot(slot)?.class)
    }

    /// Whether an actor of a class can be lent to where a port of it is joined.
    pub(crate) fn is_lent(&self, class: u16, port: usize) -> bool {
        self.lent.contains(&PortOf { class, port })
    }

    /// Whether a place of a port that is joined to nothing can lead to somebody while the model runs: an action
    /// registers it under a name, or its actor can be lent there.
    pub(crate) fn may_meet_later(&self, class: &Class<'_>, port: usize, name: &[u8]) -> bool {
        class.text.deeds.registers(name) || self.is_lent(class.number, port)
    }

    /// The messages that actors of a class send at a port.
    pub(crate) fn sent_from(&self, port: PortOf) -> &[Vec<u8>] {
        let Some(class) = self.class(port.class) else {
            return &[];
        };
        match class.names.ports.as_slice().get(port.port) {
            Some(port) => class.text.deeds.sent().at(port.name.as_bytes()),
            None => &[],
        }
    }

    /// Adds the class of a number, if it isn't known.
    fn add_class(&mut self, number: u16) -> Result<(), AllocError> {
        if self.places.contains_key(&number) {
            return Ok(());
        }
        let Some(names) = self.wiring.get_class(number) else {
            return Ok(());
        };
        let place = self.classes.len();
        let class = Class::of(self.source, &self.items, number, names)?;
        self.classes.push(class)?;
        self.places.insert(number, place)?;
        Ok(())
    }

    /// Adds the ports that are joined at an imported slot.
    fn add_lent(&mut self, slot: SlotId, class: u16) -> Result<(), AllocError> {
        for port in 0..self.wiring.port_count(slot) {
            if has_joined(self.wiring, slot, port) {
                self.lent.insert(PortOf { class, port })?;
            }
        }
        Ok(())
    }

    /// Adds a slot to those of its class, which is known.
    fn add_to_class(
        &mut self,
        class: u16,
        slot: SlotId,
        is_imported: bool,
    ) -> Result<(), AllocError> {
        let place = self.places.get(&class).copied().unwrap_or(0);
        match self.classes.as_mut_slice().get_mut(place) {
            Some(class) if is_imported => Ok(class.imported.push(slot)?),
            Some(class) => Ok(class.slots.push(slot)?),
            None => Ok(()),
        }
    }

    fn add_slot(&mut self, id: SlotId) -> Result<(), AllocError> {
        let Some(slot) = self.wiring.get_slot(id) else {
            return Ok(());
        };
        self.add_class(slot.class)?;
        let is_imported = slot.kind == ReferenceKind::Imported;
        if is_imported {
            self.add_lent(id, slot.class)?;
        }
        self.add_to_class(slot.class, id, is_imported)
    }

    /// The path of a slot.
    pub(crate) fn path(&self, slot: SlotId) -> Option<&Path> {
        Some(&self.wiring.get_slot(slot)?.path)
    }

    /// Where the reference is declared that a slot stands for.
    pub(crate) fn reference_of(&self, slot: SlotId) -> Result<Option<Item>, AllocError> {
        let Some(here) = self.wiring.get_slot(slot) else {
            return Ok(None);
        };
        let path = here.path.to_vec(self.source.alloc)?;
        let name = name_in(path.as_slice());
        match here.parent {
            Some(parent) => Ok(self.inner_reference(parent, name)),
            None => self.top_reference(name),
        }
    }

    /// Where a reference of the class of a slot is declared.
    fn inner_reference(&self, slot: SlotId, name: &[u8]) -> Option<Item> {
        self.class_of(slot)?.text.declared.get(name)
    }

    /// Where a reference of a subsystem class is declared.
    fn top_reference(&self, name: &[u8]) -> Result<Option<Item>, AllocError> {
        let declarations = self.source.declarations()?;
        let Some(system) = self.system(declarations.as_slice()) else {
            return Ok(None);
        };
        let parts = self.source.parts(system)?;
        Ok(reference_among(self.source, parts.as_slice(), name))
    }

    /// The subsystem class that the system names, which stands among declarations.
    fn system(&self, declarations: &[Item]) -> Option<Item> {
        let system = declarations.iter().find(|item| self.source.word(**item)
            == Some(Word::LogicalSystem))?;
        // `}` stands last, and before it the name of the class
        match self.source.tokens_of(*system) {
            [.., class, _brace] => self.items.get(self.source.bytes(class)),
            _ => None,
        }
    }
}

/// The actor reference of a name among parts of a class.
fn reference_among(source: Source<'_>, parts: &[Item], name: &[u8]) -> Option<Item> {
    parts
        .iter()
        .find(|part| source.word(**part) == Some(Word::ActorRef)
            && source.name(**part) == Some(name))
        .copied()
}

/// The name of the reference at the end of a path.
fn name_in(path: &[u8]) -> &[u8] {
    let last = match path.iter().rposition(|byte| *byte == b'/') {
        Some(slash) => path.get(slash.saturating_add(1)..).unwrap_or(&[]),
        None => path,
    };
    match last.iter().position(|byte| *byte == b':') {
        Some(colon) => last.get(..colon).unwrap_or(last),
        None => last,
    }
}
