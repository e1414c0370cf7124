//! Triggers and their events.
ghost use Rattle.std.specs.Prelude.{◌≡◌};
ghost use Rattle.room_lexer.specs.declared.token.Mark.TheVariants as marks;
ghost use Rattle.room_lexer.specs.declared.word.Word.TheVariants as words;
ghost use Rattle.room_tokens.specs.Reader.{Gives, optional};
ghost use Rattle.room_tokens.specs.Single.{left, comes as comes_at, comes_word as comes_word_at};
ghost use Rattle.room_parser.specs.chart_parser.Codes.{event_message_at, event_at, bar_event_at, trigger_at, or_trigger_at, triggers_at};

use crate::chart_parser::codes::code_if;
use room_ast::{Event, EventMessage, Name, Trigger, Triggers};
use room_lexer::{Mark, TokenKind, Word};
use room_tokens::{
    Part, ReadFault, Rest, comes, comes_word, each, name, next, place, take_mark, take_word, text,
};
use std::alloc::Global;

/// A message's name, or `imported`
#[tactic(auto, unfolding(crate::specs::chart_parser::Codes::event_message_at))]
fn event_message<'a>(alloc: Global, rest: Rest<'a>) -> Result<(EventMessage, Rest<'a>), ReadFault>
    ensures { Gives (λ x. (x.0, left x.1)) result (event_message_at (left rest.entry)) }
{
    let Some((token, others)) = next(rest) else {
        return Err(ReadFault::Syntax(place(rest)));
    };
    match token.kind {
        TokenKind::Ident(None) => {
            let message = Name::from_slice(alloc, text(rest.bytes, token))?;
            Ok((EventMessage::Named(message), others))
        }
        TokenKind::Ident(Some(Word::Imported)) => Ok((EventMessage::Imported, others)),
        _ => Err(ReadFault::Syntax(place(rest))),
    }
}

/// A message, or `imported`, `:` port
#[tactic(auto, unfolding(crate::specs::chart_parser::Codes::event_at))]
fn event<'a>(alloc: Global, rest: Rest<'a>) -> Result<(Event, Rest<'a>), ReadFault>
    ensures { Gives (λ x. (x.0, left x.1)) result (event_at (left rest.entry)) }
{
    let (message, rest) = event_message(alloc, rest)?;
    let rest = take_mark(rest, Mark::Colon)?;
    let (port, rest) = name(alloc, rest)?;
    Ok((Event { message, port }, rest))
}

/// An event behind a bar.
struct BarEvent;

impl Part for BarEvent {
    type Item = Event;

    ghost goes_on = { comes_at marks.Bar };

    ghost reads = { bar_event_at };

    fn comes(rest: Rest) -> bool {
        comes(rest, Mark::Bar)
    }

    #[tactic(auto, unfolding(crate::specs::chart_parser::Codes::bar_event_at))]
    fn read<'a>(alloc: Global, rest: Rest<'a>) -> Result<(Event, Rest<'a>), ReadFault> {
        let rest = take_mark(rest, Mark::Bar)?;
        event(alloc, rest)
    }
}

/// `<` events joined by `|`, and `guard` code `>`
#[tactic(auto, unfolding(crate::specs::chart_parser::Codes::trigger_at))]
fn trigger<'a>(alloc: Global, rest: Rest<'a>) -> Result<(Trigger, Rest<'a>), ReadFault>
    ensures { Gives (λ x. (x.0, left x.1)) result (trigger_at (left rest.entry)) }
{
    let rest = take_mark(rest, Mark::Less)?;
    let (first, rest) = event(alloc, rest)?;
    let (others, rest) = each::<BarEvent>(alloc, rest)?;
    let (guard, rest) = code_if(alloc, rest, Word::Guard)?;
    let rest = take_mark(rest, Mark::Greater)?;
    Ok((
        Trigger {
            first,
            others,
            guard,
        },
        rest,
    ))
}

/// A trigger behind `or`.
struct OrTrigger;

impl Part for OrTrigger {
    type Item = Trigger;

    ghost goes_on = { comes_word_at words.Or };

    ghost reads = { or_trigger_at };

    fn comes(rest: Rest) -> bool {
        comes_word(rest, Word::Or)
    }

    #[tactic(auto, unfolding(crate::specs::chart_parser::Codes::or_trigger_at))]
    fn read<'a>(alloc: Global, rest: Rest<'a>) -> Result<(Trigger, Rest<'a>), ReadFault> {
        let rest = take_word(rest, Word::Or)?;
        trigger(alloc, rest)
    }
}

/// `triggers` and triggers joined by `or`, in braces
#[tactic(auto, unfolding(crate::specs::chart_parser::Codes::triggers_at))]
fn triggers<'a>(alloc: Global, rest: Rest<'a>) -> Result<(Triggers, Rest<'a>), ReadFault>
    ensures { Gives (λ x. (x.0, left x.1)) result (triggers_at (left rest.entry)) }
{
    let rest = take_word(rest, Word::Triggers)?;
    let rest = take_mark(rest, Mark::OpenBrace)?;
    let (first, rest) = trigger(alloc, rest)?;
    let (others, rest) = each::<OrTrigger>(alloc, rest)?;
    let rest = take_mark(rest, Mark::CloseBrace)?;
    Ok((Triggers { first, others }, rest))
}

/// The triggers of a transition, if they come.
#[tactic(auto, unfolding(room_tokens::specs::Reader::optional))]
pub fn triggers_if<'a>(
    alloc: Global,
    rest: Rest<'a>,
) -> Result<(Option<Triggers>, Rest<'a>), ReadFault>
    ensures { Gives (λ x. (x.0, left x.1)) result
        (optional (comes_word_at words.Triggers) triggers_at (left rest.entry)) }
{
    if !comes_word(rest, Word::Triggers) {
        return Ok((None, rest));
    }
    let (found, rest) = triggers(alloc, rest)?;
    Ok((Some(found), rest))
}
