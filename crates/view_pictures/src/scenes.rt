//! The picture of the actors that live at a stamp of a run.
use crate::actors::add_controllers;
use crate::bindings::containers_of;
use crate::living::{Living, Scene};
use crate::meetings::Meetings;
use crate::scene_blocks::add_blocks;
use crate::scene_links::add_links;
use crate::wirings::has_leads;
use room_ast::Model;
use std::alloc::AllocError;
use view_charts::Source;
use view_drawing::{Diagram, Leads, Mark, Sign};

/// What the legend of a scene tells, where it occurs.
fn add_keys(diagram: &mut Diagram) -> Result<(), AllocError> {
    let marks: [(Mark, &[u8]); 4] = [
        (Mark::Port, b"port"),
        (Mark::ConjugatedPort, b"conjugated port"),
        (Mark::Access, b"service access point"),
        (Mark::Provision, b"service provision point"),
    ];
    diagram.add_marks(&marks)?;
    let leads: [(Leads, &[u8]); 2] = [
        (Leads::Outside, b"leads outside: here messages are injected"),
        (
            Leads::Nobody,
            b"has places that lead to nobody at this stamp",
        ),
    ];
    for (leads, text) in leads {
        if has_leads(diagram, leads) {
            diagram.add_key(Sign::Leads(leads), text)?;
        }
    }
    Ok(())
}

/// Draws those who live in a scene in a block with this title, and whom their ports lead to.
fn draw(
    diagram: &mut Diagram,
    scene: Scene<'_>,
    living: &mut Living<'_>,
    meetings: &Meetings,
    title: Vec<u8>,
) -> Result<(), AllocError> {
    add_blocks(diagram, scene, living, meetings, title)?;
    add_controllers(diagram, scene.wiring)?;
    add_keys(diagram)?;
    add_links(diagram, scene, living)
}

fn add_picture(
    diagram: &mut Diagram,
    source: Source<'_>,
    model: &Model,
    scene: Scene<'_>,
) -> Result<(), AllocError> {
    let meetings = Meetings::of(source, scene.wiring)?;
    let title = containers_of(source.alloc, model)?.title(source.alloc)?;
    let mut living = Living::of(source.alloc, scene)?;
    draw(diagram, scene, &mut living, &meetings, title)
}

/// The picture of the actors of a model with this text that live in a scene: in which states they are, what is lent,
/// how many messages wait, and whom their ports lead to.
pub(crate) fn scene_picture(
    source: Source<'_>,
    model: &Model,
    scene: Scene<'_>,
) -> Result<Diagram, AllocError> {
    let mut diagram = Diagram::new(source.alloc, false);
    add_picture(&mut diagram, source, model, scene)?;
    Ok(diagram)
}
