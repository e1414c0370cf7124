//! Pictures of a model and its runs: actors with their bindings, charts of classes, and who sent what to whom.
use crate::accepted::Accepted;
use crate::runs::{RunOf, knows, run_of, wanted_of};
use crate::verdicts::Asking;
use crate::words::Options;
use room_ast::Model;
use room_lexer::{LexFault, Token, lex};
use room_run::Status;
use std::alloc::{AllocError, Global};
use view_charts::Source;
use view_journals::Wanted;
use view_pages::Page;
use view_pictures::{
    Form, Scene, Titled, form_of, machine_of, put_chart, put_run, put_scene, put_wiring,
    tell_machines, title_of,
};
use view_verdicts::Moment;

/// What a picture shows.
#[derive(Clone, Copy)]
enum Shown<'a> {
    Wiring,
    /// The chart of the class of this name.
    Chart(&'a str),
}

/// A picture that is asked for.
#[derive(Clone, Copy)]
pub(crate) struct Picture<'a> {
    shown: Shown<'a>,
    form: Form,
}

/// The picture that a command asks for with the words behind the model: `wiring MODEL [FORM]` or `chart MODEL CLASS
/// [FORM]`.
pub(crate) fn picture_of<'a>(command: &str, rest: &'a [String]) -> Option<Picture<'a>> {
    let (shown, form) = match (command, rest) {
        ("wiring", []) => (Shown::Wiring, Form::Svg),
        ("wiring", [form]) => (Shown::Wiring, form_of(form.as_str())?),
        ("chart", [class]) => (Shown::Chart(class.as_str()), Form::Svg),
        ("chart", [class, form]) => (Shown::Chart(class.as_str()), form_of(form.as_str())?),
        _ => return None,
    };
    Some(Picture { shown, form })
}

/// Tells that a model has no chart of a class of this name.
fn tell_no_chart(page: &mut Page, model: &Model, class: &str) -> Status {
    page.put(b"room_view: words refused; the model has no chart of a class ");
    page.put(class.as_bytes());
    tell_machines(page, model);
    Status::WordsRefused
}

/// The tokens of the text of an accepted model, which has some.
fn tokens_of(alloc: Global, text: &[u8]) -> Result<Vec<Token>, AllocError> {
    match lex(alloc, text) {
        Ok(tokens) => Ok(tokens),
        Err(LexFault::Memory) => Err(AllocError),
        Err(_) => Ok(Vec::new(alloc)),
    }
}

/// Puts the picture of the actors of a model with this text.
fn put_wiring_of(
    alloc: Global,
    page: &mut Page,
    text: &[u8],
    model: &Accepted,
    titled: Titled,
) -> Result<(), AllocError> {
    let tokens = tokens_of(alloc, text)?;
    let source = Source {
        alloc,
        text,
        tokens: tokens.as_slice(),
    };
    put_wiring(page, source, &model.tree, model.wiring(), titled)
}

/// Puts the picture of the chart of a class.
fn put_chart_of(
    alloc: Global,
    page: &mut Page,
    model: &Model,
    class: &str,
    titled: Titled,
) -> Result<Status, AllocError> {
    match machine_of(model, class.as_bytes()) {
        Some(machine) => put_chart(alloc, page, class.as_bytes(), machine, titled)?,
        None => return Ok(tell_no_chart(page, model, class)),
    }
    Ok(Status::Done)
}

/// Puts a picture of a model with this text, for which these words ask.
pub(crate) fn tell_picture(
    alloc: Global,
    page: &mut Page,
    text: &[u8],
    model: &Accepted,
    words: &[String],
    picture: Picture<'_>,
) -> Result<Status, AllocError> {
    let tree = &model.tree;
    let titled = Titled {
        title: title_of(alloc, tree, words)?,
        form: picture.form,
    };
    match picture.shown {
        Shown::Wiring => put_wiring_of(alloc, page, text, model, titled)?,
        Shown::Chart(class) => return put_chart_of(alloc, page, tree, class, titled),
    }
    Ok(Status::Done)
}

/// Puts a picture of those who live at a stamp of journals.
pub(crate) fn tell_scene(
    page: &mut Page,
    asking: Asking<'_>,
    moment: &Moment,
    form: Form,
) -> Result<(), AllocError> {
    let tokens = tokens_of(asking.alloc, asking.text)?;
    let source = Source {
        alloc: asking.alloc,
        text: asking.text,
        tokens: tokens.as_slice(),
    };
    let scene = Scene {
        wiring: asking.model.wiring(),
        snapshot: &moment.snapshot,
        waiting: moment.waiting.as_slice(),
    };
    let tree = &asking.model.tree;
    let titled = Titled {
        title: title_of(asking.alloc, tree, asking.words)?,
        form,
    };
    put_scene(page, source, tree, scene, titled)
}

/// Puts a picture of what is wanted of a run.
fn put_run_of(
    alloc: Global,
    page: &mut Page,
    model: &Accepted,
    run: &RunOf,
    wanted: Wanted<'_>,
    titled: Titled,
) -> Result<Status, AllocError> {
    let wiring = model.wiring();
    put_run(
        alloc,
        page,
        wiring,
        &run.journals,
        &run.redone,
        wanted,
        titled,
    )?;
    Ok(Status::Done)
}

/// Puts a picture of what options ask for of the run of the journals of a file, for which these words ask.
pub(crate) fn tell_run_picture(
    rt: HostRuntime,
    page: &mut Page,
    model: &Accepted,
    words: &[String],
    name: &str,
    form: Form,
    options: Options<'_>,
) -> Result<Status, AllocError> {
    let wiring = model.wiring();
    if !knows(page, wiring, options) {
        return Ok(Status::WordsRefused);
    }
    let titled = Titled {
        title: title_of(rt.alloc(), &model.tree, words)?,
        form,
    };
    let wanted = wanted_of(wiring, options);
    match run_of(rt, page, model, name)? {
        Ok(run) => put_run_of(rt.alloc(), page, model, &run, wanted, titled),
        Err(status) => Ok(status),
    }
}
