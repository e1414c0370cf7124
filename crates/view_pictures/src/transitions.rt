//! The labels of transitions: `name: <event: port> [guard] / action`.
use crate::orders::message_of;
use itoa::Buffer;
use room_ast::{
    Code, CodeText, Event, Source, Target, Transition, TransitionBody, Trigger, Triggers,
};
use std::alloc::{AllocError, Global};
use view_drawing::{Label, add_plain};

fn add_code_text(text: &mut Vec<u8>, part: &CodeText) -> Result<(), AllocError> {
    if let Some(last) = text.as_slice().last()
        && *last != b' '
        && *last != b'['
    {
        text.push(b' ')?;
    }
    match part {
        CodeText::Str(part) | CodeText::Block(part) => add_plain(text, part.as_bytes()),
    }
}

/// Adds a code as it is written, in one line.
pub fn add_code(text: &mut Vec<u8>, code: &Code) -> Result<(), AllocError> {
    match code {
        Code::Texts(parts) => {
            for part in parts.as_slice() {
                add_code_text(text, part)?;
            }
        }
        Code::Single(part) => add_code_text(text, part)?,
    }
    Ok(())
}

fn add_event(text: &mut Vec<u8>, event: &Event) -> Result<(), AllocError> {
    add_plain(text, message_of(event))?;
    text.extend_from_slice(b": ")?;
    text.extend_from_slice(event.port.as_bytes())
}

fn add_trigger(text: &mut Vec<u8>, trigger: &Trigger) -> Result<(), AllocError> {
    text.push(b'<')?;
    add_event(text, &trigger.first)?;
    for event in trigger.others.as_slice() {
        text.extend_from_slice(b" | ")?;
        add_event(text, event)?;
    }
    text.push(b'>')?;
    if let Some(guard) = &trigger.guard {
        text.extend_from_slice(b" [")?;
        add_code(text, guard)?;
        text.extend_from_slice(b"]")?;
    }
    Ok(())
}

fn add_triggers(text: &mut Vec<u8>, triggers: &Triggers) -> Result<(), AllocError> {
    add_trigger(text, &triggers.first)?;
    for trigger in triggers.others.as_slice() {
        text.extend_from_slice(b" or ")?;
        add_trigger(text, trigger)?;
    }
    Ok(())
}

/// Whether a transition may be the branch of a choice point that is taken where no condition holds.
fn may_be_else(transition: &Transition) -> bool {
    match &transition.source {
        Source::At(Target::Bare(_) | Target::Choice(_)) => match &transition.body {
            Some(body) => body.triggers.is_none() && body.condition.is_none(),
            None => true,
        },
        _ => false,
    }
}

fn add_body(text: &mut Vec<u8>, body: &TransitionBody) -> Result<(), AllocError> {
    if let Some(triggers) = &body.triggers {
        add_triggers(text, triggers)?;
    }
    if let Some(condition) = &body.condition {
        text.extend_from_slice(b"[")?;
        add_code(text, condition)?;
        text.extend_from_slice(b"]")?;
    }
    Ok(())
}

fn add_action(text: &mut Vec<u8>, body: &TransitionBody) -> Result<(), AllocError> {
    if let Some(action) = &body.action {
        add_gap(text)?;
        text.extend_from_slice(b"/ ")?;
        add_code(text, action)?;
    }
    Ok(())
}

/// Adds a blank, if something stands before it and no blank does.
fn add_gap(text: &mut Vec<u8>) -> Result<(), AllocError> {
    if let Some(last) = text.as_slice().last()
        && *last != b' '
    {
        text.push(b' ')?;
    }
    Ok(())
}

fn add_order(text: &mut Vec<u8>, order: Option<usize>) -> Result<(), AllocError> {
    if let Some(order) = order {
        let mut buffer = Buffer::new();
        text.extend_from_slice(buffer.format(order as u64).as_bytes())?;
        text.extend_from_slice(b". ")?;
    }
    Ok(())
}

/// Adds what a transition waits for, and what it does.
fn add_shown(text: &mut Vec<u8>, transition: &Transition) -> Result<(), AllocError> {
    if may_be_else(transition) {
        text.extend_from_slice(b"[else]")?;
    }
    if let Some(body) = &transition.body {
        add_body(text, body)?;
        add_action(text, body)?;
    }
    Ok(())
}

/// Whether something is to be said of a transition beside its name.
fn says_more(transition: &Transition) -> bool {
    may_be_else(transition)
        || match &transition.body {
            Some(body) => {
                body.triggers.is_some() || body.condition.is_some() || body.action.is_some()
            }
            None => false,
        }
}

/// Adds the name of a transition, if it has one.
fn add_name(text: &mut Vec<u8>, transition: &Transition) -> Result<(), AllocError> {
    if let Some(name) = &transition.name {
        text.extend_from_slice(name.as_bytes())?;
        if says_more(transition) {
            text.extend_from_slice(b": ")?;
        }
    }
    Ok(())
}

/// The label of a transition. It begins with its number, where it has one, and its name.
pub fn label_of(
    alloc: Global,
    transition: &Transition,
    order: Option<usize>,
) -> Result<Label, AllocError> {
    let mut text = Vec::new(alloc);
    add_order(&mut text, order)?;
    add_name(&mut text, transition)?;
    add_shown(&mut text, transition)?;
    Label::long(alloc, text)
}
