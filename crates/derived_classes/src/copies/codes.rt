//! Copies of code, and of what a transition has beside it.
ghost use Rattle.std.specs.Prelude.{◌≡◌, IfOk};

use room_ast::{Code, CodeText, Event, EventMessage, Source, Target, Text, Trigger, Triggers};
use room_kinds::Sequence;
use std::alloc::{AllocError, Global};

fn copy_bytes(alloc: Global, text: &Text) -> Result<Text, AllocError>
    ensures { IfOk result (λ copy. copy ≡ text.now) }
{
    let bytes = Vec::from_slice(alloc, text.as_bytes())?;
    Ok(Text::from(bytes))
}

pub(crate) fn copy_text(alloc: Global, text: &CodeText) -> Result<CodeText, AllocError>
    ensures { IfOk result (λ copy. copy ≡ text.now) }
{
    match text {
        CodeText::Str(text) => Ok(CodeText::Str(copy_bytes(alloc, text)?)),
        CodeText::Block(text) => Ok(CodeText::Block(copy_bytes(alloc, text)?)),
    }
}

fn copy_texts(alloc: Global, texts: &Sequence<CodeText>) -> Result<Sequence<CodeText>, AllocError>
    ensures { IfOk result (λ copy. copy ≡ texts.now) }
{
    let mut copies = Vec::new(alloc);
    for text in texts.as_slice() {
        copies.push(copy_text(alloc, text)?)?;
    }
    Ok(Sequence::from(copies))
}

pub(crate) fn copy_code(alloc: Global, code: &Code) -> Result<Code, AllocError>
    ensures { IfOk result (λ copy. copy ≡ code.now) }
{
    match code {
        Code::Texts(texts) => Ok(Code::Texts(copy_texts(alloc, texts)?)),
        Code::Single(text) => Ok(Code::Single(copy_text(alloc, text)?)),
    }
}

pub(crate) fn copy_code_if(alloc: Global, code: &Option<Code>) -> Result<Option<Code>, AllocError>
    ensures { IfOk result (λ copy. copy ≡ code.now) }
{
    match code {
        Some(code) => Ok(Some(copy_code(alloc, code)?)),
        None => Ok(None),
    }
}

fn copy_message(alloc: Global, message: &EventMessage) -> Result<EventMessage, AllocError>
    ensures { IfOk result (λ copy. copy ≡ message.now) }
{
    match message {
        EventMessage::Named(name) => Ok(EventMessage::Named(name.copy(alloc)?)),
        EventMessage::Imported => Ok(EventMessage::Imported),
    }
}

fn copy_event(alloc: Global, event: &Event) -> Result<Event, AllocError>
    ensures { IfOk result (λ copy. copy ≡ event.now) }
{
    let message = copy_message(alloc, &event.message)?;
    let port = event.port.copy(alloc)?;
    Ok(Event { message, port })
}

fn copy_events(alloc: Global, events: &Sequence<Event>) -> Result<Sequence<Event>, AllocError>
    ensures { IfOk result (λ copy. copy ≡ events.now) }
{
    let mut copies = Vec::new(alloc);
    for event in events.as_slice() {
        copies.push(copy_event(alloc, event)?)?;
    }
    Ok(Sequence::from(copies))
}

fn copy_trigger(alloc: Global, trigger: &Trigger) -> Result<Trigger, AllocError>
    ensures { IfOk result (λ copy. copy ≡ trigger.now) }
{
    let first = copy_event(alloc, &trigger.first)?;
    let others = copy_events(alloc, &trigger.others)?;
    let guard = copy_code_if(alloc, &trigger.guard)?;
    Ok(Trigger {
        first,
        others,
        guard,
    })
}

fn copy_other_triggers(
    alloc: Global,
    triggers: &Sequence<Trigger>,
) -> Result<Sequence<Trigger>, AllocError>
    ensures { IfOk result (λ copy. copy ≡ triggers.now) }
{
    let mut copies = Vec::new(alloc);
    for trigger in triggers.as_slice() {
        copies.push(copy_trigger(alloc, trigger)?)?;
    }
    Ok(Sequence::from(copies))
}

fn copy_triggers(alloc: Global, triggers: &Triggers) -> Result<Triggers, AllocError>
    ensures { IfOk result (λ copy. copy ≡ triggers.now) }
{
    let first = copy_trigger(alloc, &triggers.first)?;
    let others = copy_other_triggers(alloc, &triggers.others)?;
    Ok(Triggers { first, others })
}

pub(super) fn copy_triggers_if(
    alloc: Global,
    triggers: &Option<Triggers>,
) -> Result<Option<Triggers>, AllocError>
    ensures { IfOk result (λ copy. copy ≡ triggers.now) }
{
    match triggers {
        Some(triggers) => Ok(Some(copy_triggers(alloc, triggers)?)),
        None => Ok(None),
    }
}

pub(super) fn copy_target(alloc: Global, target: &Target) -> Result<Target, AllocError>
    ensures { IfOk result (λ copy. copy ≡ target.now) }
{
    match target {
        Target::Bare(name) => Ok(Target::Bare(name.copy(alloc)?)),
        Target::Choice(name) => Ok(Target::Choice(name.copy(alloc)?)),
        Target::My(name) => Ok(Target::My(name.copy(alloc)?)),
        Target::Of { point, state } => {
            let point = point.copy(alloc)?;
            let state = state.copy(alloc)?;
            Ok(Target::Of { point, state })
        }
    }
}

pub(super) fn copy_source(alloc: Global, source: &Source) -> Result<Source, AllocError>
    ensures { IfOk result (λ copy. copy ≡ source.now) }
{
    match source {
        Source::Initial => Ok(Source::Initial),
        Source::At(target) => Ok(Source::At(copy_target(alloc, target)?)),
    }
}
