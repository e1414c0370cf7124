//! The picture of the actors of a model.
use crate::actors::{Actors, add_actors};
use crate::bindings::{Containers, add_bindings, containers_of};
use crate::meetings::Meetings;
use room_ast::Model;
use room_wiring::Wiring;
use std::alloc::AllocError;
use view_charts::Source;
use view_drawing::{Diagram, Leads, Mark, Sign};

/// What the legend of a wiring tells, where it occurs.
fn add_keys(diagram: &mut Diagram) -> Result<(), AllocError> {
    let marks: [(Mark, &[u8]); 6] = [
        (Mark::Port, b"port"),
        (Mark::ConjugatedPort, b"conjugated port"),
        (Mark::Relay, b"relay port"),
        (Mark::ConjugatedRelay, b"conjugated relay port"),
        (Mark::Access, b"service access point"),
        (Mark::Provision, b"service provision point"),
    ];
    diagram.add_marks(&marks)?;
    let leads: [(Leads, &[u8]); 3] = [
        (Leads::Outside, b"leads outside: here messages are injected"),
        (
            Leads::Later,
            b"meets others later: by name, or where its actor is lent",
        ),
        (Leads::Within, b"has places that are joined to nothing"),
    ];
    for (leads, text) in leads {
        if has_leads(diagram, leads) {
            diagram.add_key(Sign::Leads(leads), text)?;
        }
    }
    Ok(())
}

/// Whether a point has places that aren't joined, and leads there.
pub(crate) fn has_leads(diagram: &Diagram, leads: Leads) -> bool {
    let points = diagram.points.as_slice();
    points
        .iter()
        .any(|point| point.unjoined > 0 && point.leads == leads)
}

/// Draws the actors of a wiring, and what of these containers joins their ports.
fn draw<'a>(
    diagram: &mut Diagram,
    actors: &mut Actors,
    wiring: &'a Wiring,
    meetings: &Meetings,
    containers: &Containers<'a>,
) -> Result<(), AllocError> {
    let title = containers.title(diagram.alloc)?;
    let tops = containers.top_count();
    add_actors(diagram, actors, wiring, meetings, title, tops)?;
    add_keys(diagram)?;
    add_bindings(diagram, actors, wiring, containers)
}

fn add_picture<'a>(
    diagram: &mut Diagram,
    source: Source<'_>,
    model: &'a Model,
    wiring: &'a Wiring,
) -> Result<(), AllocError> {
    let meetings = Meetings::of(source, wiring)?;
    let containers = containers_of(diagram.alloc, model)?;
    let mut actors = Actors::new(diagram.alloc);
    draw(diagram, &mut actors, wiring, &meetings, &containers)
}

/// The picture of the actors of a model with this text, and of what joins their ports.
pub(crate) fn wiring_picture<'a>(
    source: Source<'_>,
    model: &'a Model,
    wiring: &'a Wiring,
) -> Result<Diagram, AllocError> {
    let mut diagram = Diagram::new(source.alloc, false);
    add_picture(&mut diagram, source, model, wiring)?;
    Ok(diagram)
}
