//! The tokens of code and of transitions.
ghost use Rattle.std.specs.Prelude.{◌≡◌, ◌-◌, ◌*◌, ℕ, List, length};
ghost use Rattle.room_ast.specs.Tokens.{word_if, word_code, code_tokens, maybe, each, code_text, event, bar_event, trigger, or_trigger, triggers, target, source, transition_body, transition, name};
ghost use Rattle.room_lexer.specs.declared.word.Word.{Word};

use room_ast::{
    Code, CodeText, Event, EventMessage, Name, Source, Target, Transition, TransitionBody, Trigger,
    Triggers,
};
use room_kinds::Sequence;

/// What is left once so many times so many are taken away.
pub(super) fn less_times(left: usize, each: usize, count: usize) -> usize
    ensures { result ≡ left - each * count }
{
    left.saturating_sub(each.saturating_mul(count))
}

/// A word that may be missing.
pub(super) fn less_flag(left: usize, is_there: bool) -> usize
    ensures { (w : Word) → result ≡ left - length (word_if w is_there) }
{
    if is_there {
        left.saturating_sub(1)
    } else {
        left
    }
}

fn less_name_if(left: usize, n: &Option<Name>) -> usize
    ensures { result ≡ left - length (maybe name n.now) }
{
    match n {
        Some(_) => left.saturating_sub(1),
        None => left,
    }
}

#[tactic(auto, using(crate::proofs::Counts::count_texts))]
fn less_texts(left: usize, texts: &Sequence<CodeText>) -> usize
    ensures { result ≡ left - length (each code_text texts.now) }
{
    left.saturating_sub(texts.len())
}

pub(super) fn less_code(left: usize, code: &Code) -> usize
    ensures { result ≡ left - length (code_tokens code.now) }
{
    match code {
        Code::Texts(texts) => less_texts(left.saturating_sub(2), texts),
        Code::Single(_) => left.saturating_sub(1),
    }
}

/// A word and then code, where there is any.
pub(super) fn less_code_if(left: usize, code: &Option<Code>) -> usize
    ensures { (w : Word) → result ≡ left - length (maybe (word_code w) code.now) }
{
    match code {
        Some(code) => less_code(left.saturating_sub(1), code),
        None => left,
    }
}

fn less_event(left: usize, e: &Event) -> usize
    ensures { result ≡ left - length (event e.now) }
{
    match &e.message {
        EventMessage::Named(_) => left.saturating_sub(3),
        EventMessage::Imported => left.saturating_sub(3),
    }
}

#[tactic(auto, using(crate::proofs::Counts::count_events))]
fn less_other_events(left: usize, others: &Sequence<Event>) -> usize
    ensures { result ≡ left - length (each bar_event others.now) }
{
    less_times(left, 4, others.len())
}

fn less_trigger(left: usize, t: &Trigger) -> usize
    ensures { result ≡ left - length (trigger t.now) }
{
    let left = less_event(left.saturating_sub(2), &t.first);
    let left = less_other_events(left, &t.others);
    less_code_if(left, &t.guard)
}

fn less_other_triggers(left: usize, others: &[Trigger]) -> usize
    ensures { result ≡ left - length (each or_trigger others.now) }
{
    let mut left = left;
    for trigger in others {
        left = less_trigger(left.saturating_sub(1), trigger);
    }
    left
}

fn less_triggers_if(left: usize, t: &Option<Triggers>) -> usize
    ensures { result ≡ left - length (maybe triggers t.now) }
{
    match t {
        Some(t) => {
            let left = less_trigger(left.saturating_sub(3), &t.first);
            less_other_triggers(left, t.others.as_slice())
        }
        None => left,
    }
}

fn less_target(left: usize, t: &Target) -> usize
    ensures { result ≡ left - length (target t.now) }
{
    match t {
        Target::Bare(_) => left.saturating_sub(1),
        Target::Choice(_) => left.saturating_sub(2),
        Target::My(_) => left.saturating_sub(2),
        Target::Of { .. } => left.saturating_sub(3),
    }
}

fn less_source(left: usize, s: &Source) -> usize
    ensures { result ≡ left - length (source s.now) }
{
    match s {
        Source::Initial => left.saturating_sub(1),
        Source::At(target) => less_target(left, target),
    }
}

fn less_transition_body_if(left: usize, b: &Option<TransitionBody>) -> usize
    ensures { result ≡ left - length (maybe transition_body b.now) }
{
    match b {
        Some(b) => {
            let left = less_triggers_if(left.saturating_sub(2), &b.triggers);
            let left = less_code_if(left, &b.condition);
            less_code_if(left, &b.action)
        }
        None => left,
    }
}

pub(super) fn less_transition(left: usize, t: &Transition) -> usize
    ensures { result ≡ left - length (transition t.now) }
{
    let left = less_name_if(left.saturating_sub(3), &t.name);
    let left = less_source(left, &t.source);
    let left = less_target(left, &t.target);
    less_transition_body_if(left, &t.body)
}
