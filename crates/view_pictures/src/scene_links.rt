//! The links of the picture of a scene: whom the places of ports lead to.
use crate::living::{Living, Scene};
use indexmap::IndexMap;
use room_kinds::{Endpoint, PortKind};
use room_show::{ActorView, PeerView};
use room_wiring::Wiring;
use std::alloc::{AllocError, Global};
use view_drawing::{Diagram, End, Label, Link, Sign, name_of};
use view_journals::{actor_at, place_count, put_end};
use view_pages::Page;

/// A place of a port of an actor, in the order of these.
#[derive(Clone, Copy, Drop, PartialEq, Eq, Hash)]
struct PlaceOf {
    slot: u16,
    generation: u32,
    port: u16,
    place: u32,
}

impl PlaceOf {
    fn of(end: Endpoint) -> PlaceOf {
        PlaceOf {
            slot: end.slot.0,
            generation: end.generation.0,
            port: end.port,
            place: end.place,
        }
    }

    fn rank(self) -> (u16, u32, u16, u32) {
        (self.slot, self.generation, self.port, self.place)
    }
}

/// The end at which an actor has a peer.
fn end_of(actor: &ActorView, peer: &PeerView) -> Endpoint {
    Endpoint {
        slot: actor.who.slot,
        generation: actor.who.generation,
        port: peer.port,
        place: peer.place,
    }
}

/// For each end of the actors of a scene the one that it leads to.
type Peers = IndexMap<PlaceOf, PlaceOf>;

/// Adds the ends of an actor.
fn add_peers_of(peers: &mut Peers, actor: &ActorView) -> Result<(), AllocError> {
    for peer in actor.peers.as_slice() {
        let from = PlaceOf::of(end_of(actor, peer));
        peers.insert(from, PlaceOf::of(peer.peer))?;
    }
    Ok(())
}

/// Adds the ends of all actors of a scene.
fn add_peers(peers: &mut Peers, scene: Scene<'_>) -> Result<(), AllocError> {
    for controller in scene.snapshot.controllers.as_slice() {
        for actor in controller.actors.as_slice() {
            add_peers_of(peers, actor)?;
        }
    }
    Ok(())
}

/// The point of an end of an actor that lives.
fn point_of(diagram: &Diagram, living: &Living<'_>, end: Endpoint) -> Option<End> {
    if !living.lives(actor_at(end)) {
        return None;
    }
    let block = living.block(end.slot)?;
    let shown = diagram.blocks.as_slice().get(block)?;
    let port = usize::from(end.port);
    if port >= shown.point_count {
        return None;
    }
    Some(End {
        block,
        point: Some(shown.first_point.saturating_add(port)),
    })
}

/// The block in which a block stands; itself where it stands in none.
fn container_of(diagram: &Diagram, block: usize) -> usize {
    match diagram.blocks.as_slice().get(block) {
        Some(shown) => shown.container.unwrap_or(block),
        None => block,
    }
}

/// The innermost block that holds two blocks, or is one of them and holds the other one.
fn holder_of(diagram: &Diagram, one: usize, other: usize) -> usize {
    let (mut one, mut other) = (one, other);
    for _deep in 0..diagram.blocks.len() {
        if one == other {
            return one;
        }
        // what stands in another block has the higher number
        if one > other {
            one = container_of(diagram, one);
        } else {
            other = container_of(diagram, other);
        }
    }
    0
}

/// The block inside of which a link runs. One of an actor to itself runs around it.
fn inside_of(diagram: &Diagram, from: End, to: End) -> usize {
    if from.block == to.block {
        return container_of(diagram, from.block);
    }
    holder_of(diagram, from.block, to.block)
}

/// Whether an end is one of a service that was linked by name.
fn is_named(wiring: &Wiring, end: Endpoint) -> bool {
    let is_provision = match wiring.port_of(end.slot, end.port) {
        Some(port) => port.kind == PortKind::Spp,
        None => false,
    };
    is_provision && end.place >= place_count(wiring, end.slot, usize::from(end.port))
}

/// The name of the protocol of an end.
fn protocol_of(wiring: &Wiring, end: Endpoint) -> &[u8] {
    match wiring.port_of(end.slot, end.port) {
        Some(port) => match &port.protocol_name {
            Some(name) => name.as_bytes(),
            None => b"",
        },
        None => b"",
    }
}

/// The label of a link: its protocol, and as a whole also both ends; and whether it is known at one of them alone.
fn label_of(
    alloc: Global,
    wiring: &Wiring,
    from: Endpoint,
    to: Endpoint,
    is_mutual: bool,
) -> Result<Label, AllocError> {
    let mut ends = Page::new(alloc);
    put_end(&mut ends, wiring, from);
    ends.put(if is_mutual { b" and " } else { b" to " });
    put_end(&mut ends, wiring, to);
    let mut shown = name_of(alloc, protocol_of(wiring, from))?;
    if !is_mutual {
        shown.extend_from_slice(b", one way")?;
    }
    Label::named(alloc, ends.bytes()?, shown.as_slice())
}

/// Adds the link of an end to the one that it leads to, if both live. That inside of a container comes first.
fn add_link(
    diagram: &mut Diagram,
    wiring: &Wiring,
    living: &Living<'_>,
    from: Endpoint,
    to: Endpoint,
    is_mutual: bool,
) -> Result<(), AllocError> {
    let (Some(first), Some(last)) = (
        point_of(diagram, living, from),
        point_of(diagram, living, to),
    ) else {
        return Ok(());
    };
    let inside = inside_of(diagram, first, last);
    let label = label_of(diagram.alloc, wiring, from, to, is_mutual)?;
    let is_outward = first.block == inside;
    let link = Link {
        inside,
        from: if is_outward { last } else { first },
        to: if is_outward { first } else { last },
        label,
        is_dashed: is_named(wiring, from) || is_named(wiring, to),
    };
    Ok(diagram.links.push(link)?)
}

/// Adds the links of an actor, but those that the other end's has.
fn add_links_of(
    diagram: &mut Diagram,
    wiring: &Wiring,
    living: &Living<'_>,
    peers: &Peers,
    actor: &ActorView,
) -> Result<(), AllocError> {
    for peer in actor.peers.as_slice() {
        let from = end_of(actor, peer);
        let (here, there) = (PlaceOf::of(from), PlaceOf::of(peer.peer));
        let is_mutual = peers.get(&there).copied() == Some(here);
        if !is_mutual || here.rank() < there.rank() {
            add_link(diagram, wiring, living, from, peer.peer, is_mutual)?;
        }
    }
    Ok(())
}

/// Adds a line to the legend, where links by name are drawn.
fn add_key(diagram: &mut Diagram) -> Result<(), AllocError> {
    let is_drawn = diagram.links.as_slice().iter().any(|link| link.is_dashed);
    if is_drawn {
        diagram.add_key(Sign::Dashes, b"linked by name")?;
    }
    Ok(())
}

/// Adds the links of all actors of a scene.
fn add_all_links(
    diagram: &mut Diagram,
    scene: Scene<'_>,
    living: &Living<'_>,
    peers: &Peers,
) -> Result<(), AllocError> {
    for controller in scene.snapshot.controllers.as_slice() {
        for actor in controller.actors.as_slice() {
            add_links_of(diagram, scene.wiring, living, peers, actor)?;
        }
    }
    Ok(())
}

/// Adds a link for each two ends that lead to each other, or of which one leads to the other one, to a picture that
/// has the blocks of a scene.
pub(crate) fn add_links(
    diagram: &mut Diagram,
    scene: Scene<'_>,
    living: &Living<'_>,
) -> Result<(), AllocError> {
    let mut peers = IndexMap::new(diagram.alloc);
    add_peers(&mut peers, scene)?;
    add_all_links(diagram, scene, living, &peers)?;
    add_key(diagram)
}
