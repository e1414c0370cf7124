//! The links of a picture of actors: the bindings and the layer connections, in each container anew.
use crate::actors::Actors;
use indexmap::IndexMap;
use room_ast::{
    ActorClass, Binding, Class, LayerConnection, Model, Name, Side, StructureItem, Subsystem,
    SubsystemItem,
};
use room_wiring::{ClassNames, Wiring};
use std::alloc::{AllocError, Global};
use view_drawing::{Diagram, End, Label, Link, Sign, add_name, name_of};

/// The most layer connections that are drawn: a container may have any number of them.
const MOST_LAYERS: usize = 65_536;

/// The numbers of the ports and of the references of a class by their names.
#[derive(Drop)]
struct Numbers<'a> {
    ports: IndexMap<&'a [u8], usize>,
    references: IndexMap<&'a [u8], usize>,
}

impl<'a> Numbers<'a> {
    fn none(alloc: Global) -> Numbers<'a> {
        Numbers {
            ports: IndexMap::new(alloc),
            references: IndexMap::new(alloc),
        }
    }

    /// Adds the ports and references of a class.
    fn add_class(&mut self, class: &'a ClassNames) -> Result<(), AllocError> {
        for (number, port) in class.ports.as_slice().iter().enumerate() {
            self.ports.insert(port.name.as_bytes(), number)?;
        }
        for (number, reference) in class.references.as_slice().iter().enumerate() {
            self.references.insert(reference.name.as_bytes(), number)?;
        }
        Ok(())
    }

    /// Adds the references of a subsystem.
    fn add_tops(&mut self, items: &'a [SubsystemItem]) -> Result<(), AllocError> {
        for item in items {
            if let SubsystemItem::Reference(reference) = item {
                let number = self.references.len();
                self.references.insert(reference.name.as_bytes(), number)?;
            }
        }
        Ok(())
    }
}

/// The parts of a model whose bindings are shown.
#[derive(Drop)]
pub struct Containers<'a> {
    /// The actor classes by number.
    actors: Vec<&'a ActorClass>,
    subsystem: Option<&'a Subsystem>,
    subsystem_name: &'a [u8],
}

/// A binding or a layer connection.
#[derive(Clone, Copy)]
enum Joint<'a> {
    Binding(&'a Binding),
    Layer(&'a LayerConnection),
}

/// The bindings and layer connections of the subsystem and of each class.
#[derive(Drop)]
struct Joints<'a> {
    of_top: Vec<Joint<'a>>,
    of_classes: Vec<Vec<Joint<'a>>>,
}

impl<'a> Joints<'a> {
    /// Those of a class, if there is one of this number; of the subsystem where none is given.
    fn of(&self, class: Option<u16>) -> Option<&[Joint<'a>]> {
        let Some(class) = class else {
            return Some(self.of_top.as_slice());
        };
        let joints = self.of_classes.as_slice().get(usize::from(class))?;
        Some(joints.as_slice())
    }
}

/// What the ends of links are found by.
#[derive(Clone, Copy)]
struct Finder<'a, 'b, 'c> {
    actors: &'c Actors,
    classes: &'b [Numbers<'a>],
    top: &'b Numbers<'a>,
}

/// The name and the class of the subsystem that runs.
fn running_subsystem(model: &Model) -> Option<(&[u8], &[u8])> {
    for class in model.classes.as_slice() {
        if let Class::System(system) = class
            && let Some(reference) = system.references.as_slice().first()
        {
            return Some((reference.name.as_bytes(), reference.class.as_bytes()));
        }
    }
    None
}

/// The parts of a model whose bindings are shown: its actor classes in order, and the subsystem that runs.
pub fn containers_of(alloc: Global, model: &Model) -> Result<Containers<'_>, AllocError> {
    let (subsystem_name, subsystem_class) = running_subsystem(model).unwrap_or((b"", b""));
    let mut containers = Containers {
        actors: Vec::new(alloc),
        subsystem: None,
        subsystem_name,
    };
    for class in model.classes.as_slice() {
        containers.add(class, subsystem_class)?;
    }
    Ok(containers)
}

impl<'a> Containers<'a> {
    /// Adds an actor class, or the subsystem if its class has this name.
    fn add(&mut self, class: &'a Class, subsystem_class: &[u8]) -> Result<(), AllocError> {
        match class {
            Class::Actor(actor) => Ok(self.actors.push(actor)?),
            Class::Subsystem(subsystem) => {
                if subsystem.name.is(subsystem_class) {
                    self.subsystem = Some(subsystem);
                }
                Ok(())
            }
            Class::System(_) | Class::Protocol(_) | Class::Data(_) => Ok(()),
        }
    }

    /// The title of the subsystem.
    pub fn title(&self, alloc: Global) -> Result<Vec<u8>, AllocError> {
        let mut title = name_of(alloc, self.subsystem_name)?;
        if let Some(subsystem) = self.subsystem {
            title.extend_from_slice(b" : ")?;
            add_name(&mut title, subsystem.name.as_bytes())?;
        }
        Ok(title)
    }

    /// How many references the subsystem has.
    pub fn top_count(&self) -> usize {
        match self.subsystem {
            Some(subsystem) => subsystem
                .items
                .as_slice()
                .iter()
                .filter(|item| matches!(item, SubsystemItem::Reference(_)))
                .count(),
            None => 0,
        }
    }

    /// The numbers of the references of the subsystem.
    fn top_numbers(&self, alloc: Global) -> Result<Numbers<'a>, AllocError> {
        let mut numbers = Numbers::none(alloc);
        if let Some(subsystem) = self.subsystem {
            numbers.add_tops(subsystem.items.as_slice())?;
        }
        Ok(numbers)
    }

    /// The bindings and layer connections of the subsystem.
    fn top_joints(&self, alloc: Global) -> Result<Vec<Joint<'a>>, AllocError> {
        let mut joints = Vec::new(alloc);
        if let Some(subsystem) = self.subsystem {
            for item in subsystem.items.as_slice() {
                match item {
                    SubsystemItem::Binding(binding) => joints.push(Joint::Binding(binding))?,
                    SubsystemItem::Layer(layer) => joints.push(Joint::Layer(layer))?,
                    _ => {}
                }
            }
        }
        Ok(joints)
    }

    /// All bindings and layer connections.
    fn joints(&self, alloc: Global) -> Result<Joints<'a>, AllocError> {
        let of_top = self.top_joints(alloc)?;
        Ok(Joints {
            of_top,
            of_classes: self.all_joints(alloc)?,
        })
    }

    /// The bindings and layer connections of each actor class.
    fn all_joints(&self, alloc: Global) -> Result<Vec<Vec<Joint<'a>>>, AllocError> {
        let mut all = Vec::new(alloc);
        for actor in self.actors.as_slice() {
            all.push(joints_of(alloc, actor)?)?;
        }
        Ok(all)
    }
}

/// The bindings and layer connections of an actor class.
fn joints_of<'a>(alloc: Global, actor: &'a ActorClass) -> Result<Vec<Joint<'a>>, AllocError> {
    let mut joints = Vec::new(alloc);
    if let Some(items) = &actor.structure {
        for item in items.as_slice() {
            match item {
                StructureItem::Binding(binding) => joints.push(Joint::Binding(binding))?,
                StructureItem::Layer(layer) => joints.push(Joint::Layer(layer))?,
                _ => {}
            }
        }
    }
    Ok(joints)
}

/// The numbers of the ports and references of a class.
fn numbers_of(alloc: Global, class: &ClassNames) -> Result<Numbers<'_>, AllocError> {
    let mut numbers = Numbers::none(alloc);
    numbers.add_class(class)?;
    Ok(numbers)
}

/// The numbers of the ports and references of all classes.
fn all_numbers(alloc: Global, wiring: &Wiring) -> Result<Vec<Numbers<'_>>, AllocError> {
    let mut all = Vec::new(alloc);
    for number in 0..u16::MAX {
        let Some(class) = wiring.get_class(number) else {
            break;
        };
        all.push(numbers_of(alloc, class)?)?;
    }
    Ok(all)
}

impl<'a, 'b, 'c> Finder<'a, 'b, 'c> {
    fn numbers(&self, block: usize) -> &'b Numbers<'a> {
        match self.actors.class_of(block) {
            Some(class) => self.classes.get(usize::from(class)).unwrap_or(self.top),
            None => self.top,
        }
    }

    /// The block of a reference.
    fn block(&self, container: usize, reference: &Name) -> Option<usize> {
        let number = self
            .numbers(container)
            .references
            .get(reference.as_bytes())?;
        Some(self.actors.block_of(container, *number))
    }

    /// The place of a port of a block among all points.
    fn port(&self, diagram: &Diagram, block: usize, port: &Name) -> Option<End> {
        let number = self.numbers(block).ports.get(port.as_bytes())?;
        let first = diagram.blocks.as_slice().get(block)?.first_point;
        Some(End {
            block,
            point: Some(first.saturating_add(*number)),
        })
    }

    fn side(&self, diagram: &Diagram, container: usize, side: &Side) -> Option<End> {
        match side {
            Side::Own(port) => self.port(diagram, container, port),
            Side::Inner { reference, port } => {
                let block = self.block(container, reference)?;
                self.port(diagram, block, port)
            }
        }
    }

    /// The ends of a binding or a layer connection. That inside of the container comes first, where it has its name.
    fn ends(&self, diagram: &Diagram, container: usize, joint: Joint<'_>) -> Option<(End, End)> {
        match joint {
            Joint::Binding(binding) => {
                let left = self.side(diagram, container, &binding.left)?;
                let right = self.side(diagram, container, &binding.right)?;
                if left.block == container {
                    Some((right, left))
                } else {
                    Some((left, right))
                }
            }
            Joint::Layer(layer) => {
                let block = self.block(container, &layer.reference)?;
                let provider = self.block(container, &layer.provider)?;
                let service = self.port(diagram, provider, &layer.service)?;
                Some((End { block, point: None }, service))
            }
        }
    }
}

/// Puts a side of a binding as it is written.
fn add_side(text: &mut Vec<u8>, side: &Side) -> Result<(), AllocError> {
    match side {
        Side::Own(port) => add_name(text, port.as_bytes())?,
        Side::Inner { reference, port } => {
            add_name(text, reference.as_bytes())?;
            text.push(b'.')?;
            add_name(text, port.as_bytes())?;
        }
    }
    Ok(())
}

fn add_binding(text: &mut Vec<u8>, binding: &Binding) -> Result<(), AllocError> {
    add_side(text, &binding.left)?;
    text.extend_from_slice(b" and ")?;
    add_side(text, &binding.right)
}

fn add_layer(text: &mut Vec<u8>, layer: &LayerConnection) -> Result<(), AllocError> {
    text.extend_from_slice(b"ref ")?;
    add_name(text, layer.reference.as_bytes())?;
    text.extend_from_slice(b" satisfied_by ")?;
    add_name(text, layer.provider.as_bytes())?;
    text.push(b'.')?;
    add_name(text, layer.service.as_bytes())
}

/// A binding or a layer connection as it is written.
fn written(alloc: Global, joint: Joint<'_>) -> Result<Vec<u8>, AllocError> {
    let mut text = Vec::new(alloc);
    match joint {
        Joint::Binding(binding) => add_binding(&mut text, binding)?,
        Joint::Layer(layer) => add_layer(&mut text, layer)?,
    }
    Ok(text)
}

/// The name of the protocol of a point of a block.
fn protocol_of<'a>(
    diagram: &Diagram,
    actors: &Actors,
    wiring: &'a Wiring,
    end: End,
) -> Option<&'a [u8]> {
    let class = wiring.get_class(actors.class_of(end.block)?)?;
    let first = diagram.blocks.as_slice().get(end.block)?.first_point;
    let number = end.point?.saturating_sub(first);
    let port = class.ports.as_slice().get(number)?;
    Some(port.protocol_name.as_ref()?.as_bytes())
}

/// The label of a binding or a layer connection that leads to an end: its protocol, and as a whole also its text.
fn label_of(
    diagram: &Diagram,
    finder: Finder<'_, '_, '_>,
    wiring: &Wiring,
    joint: Joint<'_>,
    to: End,
) -> Result<Label, AllocError> {
    let protocol = protocol_of(diagram, finder.actors, wiring, to).unwrap_or(b"");
    let alloc = diagram.alloc;
    let text = written(alloc, joint)?;
    let shown = name_of(alloc, protocol)?;
    Label::named(alloc, text.as_slice(), shown.as_slice())
}

/// Adds the link of a binding or a layer connection in a container.
fn add_link(
    diagram: &mut Diagram,
    finder: Finder<'_, '_, '_>,
    wiring: &Wiring,
    inside: usize,
    joint: Joint<'_>,
) -> Result<(), AllocError> {
    let Some((from, to)) = finder.ends(diagram, inside, joint) else {
        return Ok(());
    };
    let label = label_of(diagram, finder, wiring, joint, to)?;
    let link = Link {
        inside,
        from,
        to,
        label,
        is_dashed: matches!(joint, Joint::Layer(_)),
    };
    Ok(diagram.links.push(link)?)
}

/// Adds the links of a container; of layer connections at most so many. Gives how many more there may be.
fn add_joints(
    diagram: &mut Diagram,
    finder: Finder<'_, '_, '_>,
    wiring: &Wiring,
    inside: usize,
    joints: &[Joint<'_>],
    layers: usize,
) -> Result<usize, AllocError> {
    let mut layers = layers;
    for joint in joints {
        if matches!(joint, Joint::Layer(_)) {
            if layers == 0 {
                continue;
            }
            layers -= 1;
        }
        add_link(diagram, finder, wiring, inside, *joint)?;
    }
    Ok(layers)
}

/// Adds the links of all containers; gives how many more layer connections there may be.
fn add_all_joints(
    diagram: &mut Diagram,
    finder: Finder<'_, '_, '_>,
    wiring: &Wiring,
    joints: &Joints<'_>,
) -> Result<usize, AllocError> {
    let mut layers = MOST_LAYERS;
    for block in 0..diagram.blocks.len() {
        if let Some(here) = joints.of(finder.actors.class_of(block)) {
            layers = add_joints(diagram, finder, wiring, block, here, layers)?;
        }
    }
    Ok(layers)
}

/// Adds a line to the legend if layer connections are drawn. So many more of them could be.
fn add_layer_key(diagram: &mut Diagram, layers: usize) -> Result<(), AllocError> {
    if layers == MOST_LAYERS {
        return Ok(());
    }
    let text: &[u8] = if layers == 0 {
        b"layer connection, of which no more than 65536 are drawn"
    } else {
        b"layer connection"
    };
    diagram.add_key(Sign::Dashes, text)
}

fn add_links(
    diagram: &mut Diagram,
    finder: Finder<'_, '_, '_>,
    wiring: &Wiring,
    containers: &Containers<'_>,
) -> Result<(), AllocError> {
    let joints = containers.joints(diagram.alloc)?;
    let layers = add_all_joints(diagram, finder, wiring, &joints)?;
    add_layer_key(diagram, layers)
}

/// Adds the bindings and layer connections of each container to a picture that has the blocks of a wiring.
pub fn add_bindings<'a>(
    diagram: &mut Diagram,
    actors: &Actors,
    wiring: &'a Wiring,
    containers: &Containers<'a>,
) -> Result<(), AllocError> {
    let classes = all_numbers(diagram.alloc, wiring)?;
    let top = containers.top_numbers(diagram.alloc)?;
    let finder = Finder {
        actors,
        classes: classes.as_slice(),
        top: &top,
    };
    add_links(diagram, finder, wiring, containers)
}
