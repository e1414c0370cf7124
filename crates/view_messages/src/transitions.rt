//! Transitions: which events trigger them, and how a page names them.
use room_ast::{
    Code, CodeText, Event, EventMessage, Name, Source, Target, Transition, Trigger, Triggers,
};
use view_pages::Page;

/// A message that comes in at a port, both by name.
#[derive(Clone, Copy)]
pub struct Incoming<'a> {
    pub signal: &'a [u8],
    pub port: &'a [u8],
}

/// Whether a message that comes in can take a transition.
#[derive(Clone, Copy, PartialEq, Eq)]
pub enum Fit {
    /// No trigger of it has the message.
    Never,
    /// Where the guard of one of its triggers holds.
    Guarded,
    Always,
}

impl Fit {
    /// What is so of two triggers.
    fn or(self, other: Fit) -> Fit {
        match (self, other) {
            (Fit::Always, _) | (_, Fit::Always) => Fit::Always,
            (Fit::Guarded, _) | (_, Fit::Guarded) => Fit::Guarded,
            (Fit::Never, Fit::Never) => Fit::Never,
        }
    }
}

fn is_event(event: &Event, incoming: Incoming<'_>) -> bool {
    let imported: &[u8] = b"imported";
    let is_signal = match &event.message {
        EventMessage::Named(name) => name.is(incoming.signal),
        EventMessage::Imported => incoming.signal == imported,
    };
    is_signal && event.port.is(incoming.port)
}

/// Whether a trigger has a message.
fn has(trigger: &Trigger, incoming: Incoming<'_>) -> bool {
    is_event(&trigger.first, incoming)
        || trigger
            .others
            .as_slice()
            .iter()
            .any(|other| is_event(other, incoming))
}

fn fit_of_trigger(trigger: &Trigger, incoming: Incoming<'_>) -> Fit {
    if !has(trigger, incoming) {
        return Fit::Never;
    }
    match &trigger.guard {
        Some(_) => Fit::Guarded,
        None => Fit::Always,
    }
}

fn fit_of_triggers(triggers: &Triggers, incoming: Incoming<'_>) -> Fit {
    let mut fit = fit_of_trigger(&triggers.first, incoming);
    for trigger in triggers.others.as_slice() {
        fit = fit.or(fit_of_trigger(trigger, incoming));
    }
    fit
}

/// Whether a message can take a transition.
pub fn fit_of(transition: &Transition, incoming: Incoming<'_>) -> Fit {
    match &transition.body {
        Some(body) => match &body.triggers {
            Some(triggers) => fit_of_triggers(triggers, incoming),
            None => Fit::Never,
        },
        None => Fit::Never,
    }
}

/// Whether a transition begins at a state of its graph.
pub fn is_from_state(transition: &Transition, state: &[u8]) -> bool {
    match &transition.source {
        Source::At(Target::Bare(name)) => name.is(state),
        _ => false,
    }
}

/// Whether a transition begins at a point of its graph.
pub fn is_from_point(transition: &Transition) -> bool {
    match &transition.source {
        Source::At(Target::My(_)) => true,
        _ => false,
    }
}

fn put_words(page: &mut Page, lead: &[u8], name: &Name) {
    page.put(lead);
    page.put(name.as_bytes());
}

fn put_target(page: &mut Page, target: &Target) {
    match target {
        Target::Bare(name) => page.put(name.as_bytes()),
        Target::Choice(name) => put_words(page, b"cp ", name),
        Target::My(name) => put_words(page, b"my ", name),
        Target::Of { point, state } => {
            page.put(point.as_bytes());
            put_words(page, b" of ", state);
        }
    }
}

fn put_source(page: &mut Page, source: &Source) {
    match source {
        Source::Initial => page.put(b"initial"),
        Source::At(target) => put_target(page, target),
    }
}

/// A text of a code on one line: a blank for each byte that is no letter, and one for all between two lines.
fn put_text(page: &mut Page, text: &CodeText) {
    let bytes = match text {
        CodeText::Str(text) => text.as_bytes(),
        CodeText::Block(text) => text.as_bytes(),
    };
    let mut has_some = false;
    let mut is_between = false;
    for byte in bytes {
        if *byte == b'\n' || *byte == b'\r' {
            is_between = true;
        } else if *byte > b' ' || !is_between {
            if is_between && has_some {
                page.put(b" ");
            }
            page.put(&[if *byte < b' ' { b' ' } else { *byte }]);
            is_between = false;
            has_some = true;
        }
    }
}

/// A code, on one line.
pub(crate) fn put_code(page: &mut Page, code: &Code) {
    page.put(b"\"");
    match code {
        Code::Single(text) => put_text(page, text),
        Code::Texts(texts) => {
            let mut before: &[u8] = b"";
            for text in texts.as_slice() {
                page.put(before);
                put_text(page, text);
                before = b" ";
            }
        }
    }
    page.put(b"\"");
}

/// The guard of a trigger that has a message.
fn put_guard(page: &mut Page, trigger: &Trigger, incoming: Incoming<'_>) {
    if let Some(code) = &trigger.guard
        && has(trigger, incoming)
    {
        page.put(b" guard ");
        put_code(page, code);
    }
}

fn put_guards(page: &mut Page, triggers: &Triggers, incoming: Incoming<'_>) {
    put_guard(page, &triggers.first, incoming);
    for trigger in triggers.others.as_slice() {
        put_guard(page, trigger, incoming);
    }
}

/// A transition: its name, from where to where, and the guards of its triggers that have a message.
pub fn put_transition(page: &mut Page, transition: &Transition, incoming: Incoming<'_>) {
    if let Some(name) = &transition.name {
        page.put(name.as_bytes());
        page.put(b": ");
    }
    put_source(page, &transition.source);
    page.put(b" -> ");
    put_target(page, &transition.target);
    if let Some(body) = &transition.body
        && let Some(triggers) = &body.triggers
    {
        put_guards(page, triggers, incoming);
    }
}

/// A message as a trigger names it.
pub fn put_incoming(page: &mut Page, incoming: Incoming<'_>) {
    page.put(b"<");
    page.put(incoming.signal);
    page.put(b": ");
    page.put(incoming.port);
    page.put(b">");
}
