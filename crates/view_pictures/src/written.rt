//! Pictures as texts.
use crate::charts::chart_picture;
use crate::living::Scene;
use crate::runs::run_picture;
use crate::scenes::scene_picture;
use crate::wirings::wiring_picture;
use journal::Journals;
use room_ast::{Model, StateMachine};
use room_wiring::Wiring;
use std::alloc::{AllocError, Global};
use view_charts::Source;
use view_drawing::{
    Diagram, Sequence, put_dot, put_mermaid, put_sequence_dot, put_sequence_mermaid,
    put_sequence_svg, put_svg,
};
use view_journals::{Redone, Wanted};
use view_pages::Page;

/// The form of a picture.
#[derive(Clone, Copy, PartialEq, Eq)]
pub enum Form {
    Svg,
    Dot,
    Mermaid,
}

/// The form that a word names.
pub fn form_of(word: &str) -> Option<Form> {
    match word {
        "--svg" => Some(Form::Svg),
        "--dot" => Some(Form::Dot),
        "--mermaid" => Some(Form::Mermaid),
        _ => None,
    }
}

/// What stands above a picture, and the form in which it is written.
#[derive(Drop)]
pub struct Titled {
    pub title: Vec<u8>,
    pub form: Form,
}

fn put_diagram(page: &mut Page, mut diagram: Diagram, titled: Titled) -> Result<(), AllocError> {
    diagram.title = titled.title;
    match titled.form {
        Form::Svg => put_svg(page, &diagram),
        Form::Dot => put_dot(page, &diagram),
        Form::Mermaid => put_mermaid(page, &diagram),
    }
}

fn put_sequence(page: &mut Page, mut sequence: Sequence, titled: Titled) -> Result<(), AllocError> {
    sequence.title = titled.title;
    match titled.form {
        Form::Svg => return put_sequence_svg(page, &sequence),
        Form::Dot => return put_sequence_dot(page, &sequence),
        Form::Mermaid => put_sequence_mermaid(page, &sequence),
    }
    Ok(())
}

/// Puts the picture of the actors of a model.
pub fn put_wiring(
    page: &mut Page,
    source: Source<'_>,
    model: &Model,
    wiring: &Wiring,
    titled: Titled,
) -> Result<(), AllocError> {
    let diagram = wiring_picture(source, model, wiring)?;
    put_diagram(page, diagram, titled)
}

/// Puts the picture of the chart of a class.
pub fn put_chart(
    alloc: Global,
    page: &mut Page,
    class: &[u8],
    machine: &StateMachine,
    titled: Titled,
) -> Result<(), AllocError> {
    let diagram = chart_picture(alloc, class, machine)?;
    put_diagram(page, diagram, titled)
}

/// Puts the picture of those who live at a stamp of journals.
pub fn put_scene(
    page: &mut Page,
    source: Source<'_>,
    model: &Model,
    scene: Scene<'_>,
    titled: Titled,
) -> Result<(), AllocError> {
    let diagram = scene_picture(source, model, scene)?;
    put_diagram(page, diagram, titled)
}

/// Puts the picture of what is wanted of a run.
pub fn put_run(
    alloc: Global,
    page: &mut Page,
    wiring: &Wiring,
    journals: &Journals,
    redone: &Redone,
    wanted: Wanted<'_>,
    titled: Titled,
) -> Result<(), AllocError> {
    let sequence = run_picture(alloc, wiring, journals, redone, wanted)?;
    put_sequence(page, sequence, titled)
}
