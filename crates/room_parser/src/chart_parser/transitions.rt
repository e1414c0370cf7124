//! Transitions, choice points and points.
ghost use Rattle.std.specs.Prelude.{◌≡◌};
ghost use Rattle.room_lexer.specs.declared.token.Mark.TheVariants as marks;
ghost use Rattle.room_lexer.specs.declared.word.Word.TheVariants as words;
ghost use Rattle.room_tokens.specs.Reader.{Gives, ◌▹◌, optional};
ghost use Rattle.room_tokens.specs.Single.{left, comes as comes_at, comes_word as comes_word_at, comes_name as comes_name_at, word, name_at};
ghost use Rattle.room_parser.specs.chart_parser.Codes.{named_at, target_at, source_at, transition_body_at, transition_at, choice_point_at, point_kind_of, point_at};

use crate::chart_parser::codes::code_if;
use crate::chart_parser::trigger_lists::triggers_if;
use room_ast::{ChoicePoint, Name, Point, PointKind, Source, Target, Transition, TransitionBody};
use room_lexer::{Mark, Word};
use room_tokens::{
    ReadFault, Rest, comes, comes_name, comes_word, name, place, skip, take_mark, take_word,
    word_here,
};
use std::alloc::Global;

/// `of` state, if it comes
#[tactic(auto, unfolding(room_tokens::specs::Reader::optional))]
fn state_if<'a>(alloc: Global, rest: Rest<'a>) -> Result<(Option<Name>, Rest<'a>), ReadFault>
    ensures { Gives (λ x. (x.0, left x.1)) result
        (optional (comes_word_at words.Of) (word words.Of ▹ name_at) (left rest.entry)) }
{
    if !comes_word(rest, Word::Of) {
        return Ok((None, rest));
    }
    let rest = take_word(rest, Word::Of)?;
    let (state, rest) = name(alloc, rest)?;
    Ok((Some(state), rest))
}

/// A name, or a point `of` a state
#[tactic(auto, unfolding(crate::specs::chart_parser::Codes::named_at))]
fn named<'a>(alloc: Global, rest: Rest<'a>) -> Result<(Target, Rest<'a>), ReadFault>
    ensures { Gives (λ x. (x.0, left x.1)) result (named_at (left rest.entry)) }
{
    let (first, rest) = name(alloc, rest)?;
    let (state, rest) = state_if(alloc, rest)?;
    match state {
        Some(state) => Ok((
            Target::Of {
                point: first,
                state,
            },
            rest,
        )),
        None => Ok((Target::Bare(first), rest)),
    }
}

/// Where a transition leads.
#[tactic(auto, unfolding(crate::specs::chart_parser::Codes::target_at))]
fn target<'a>(alloc: Global, rest: Rest<'a>) -> Result<(Target, Rest<'a>), ReadFault>
    ensures { Gives (λ x. (x.0, left x.1)) result (target_at (left rest.entry)) }
{
    if comes_word(rest, Word::Cp) {
        let rest = take_word(rest, Word::Cp)?;
        let (choice, rest) = name(alloc, rest)?;
        return Ok((Target::Choice(choice), rest));
    }
    if comes_word(rest, Word::My) {
        let rest = take_word(rest, Word::My)?;
        let (point, rest) = name(alloc, rest)?;
        return Ok((Target::My(point), rest));
    }
    named(alloc, rest)
}

/// Where a transition begins.
#[tactic(auto, unfolding(crate::specs::chart_parser::Codes::source_at))]
fn source<'a>(alloc: Global, rest: Rest<'a>) -> Result<(Source, Rest<'a>), ReadFault>
    ensures { Gives (λ x. (x.0, left x.1)) result (source_at (left rest.entry)) }
{
    if comes_word(rest, Word::Initial) {
        let rest = take_word(rest, Word::Initial)?;
        return Ok((Source::Initial, rest));
    }
    let (target, rest) = target(alloc, rest)?;
    Ok((Source::At(target), rest))
}

/// Triggers, condition and action in braces.
#[tactic(auto, unfolding(crate::specs::chart_parser::Codes::transition_body_at))]
fn transition_body<'a>(
    alloc: Global,
    rest: Rest<'a>,
) -> Result<(TransitionBody, Rest<'a>), ReadFault>
    ensures { Gives (λ x. (x.0, left x.1)) result (transition_body_at (left rest.entry)) }
{
    let rest = take_mark(rest, Mark::OpenBrace)?;
    let (triggers, rest) = triggers_if(alloc, rest)?;
    let (condition, rest) = code_if(alloc, rest, Word::Cond)?;
    let (action, rest) = code_if(alloc, rest, Word::Action)?;
    let rest = take_mark(rest, Mark::CloseBrace)?;
    Ok((
        TransitionBody {
            triggers,
            condition,
            action,
        },
        rest,
    ))
}

/// The body of a transition, if it comes.
#[tactic(auto, unfolding(room_tokens::specs::Reader::optional))]
fn transition_body_if<'a>(
    alloc: Global,
    rest: Rest<'a>,
) -> Result<(Option<TransitionBody>, Rest<'a>), ReadFault>
    ensures { Gives (λ x. (x.0, left x.1)) result
        (optional (comes_at marks.OpenBrace) transition_body_at (left rest.entry)) }
{
    if !comes(rest, Mark::OpenBrace) {
        return Ok((None, rest));
    }
    let (found, rest) = transition_body(alloc, rest)?;
    Ok((Some(found), rest))
}

/// A name, if one comes.
#[tactic(auto, unfolding(room_tokens::specs::Reader::optional))]
fn name_if<'a>(alloc: Global, rest: Rest<'a>) -> Result<(Option<Name>, Rest<'a>), ReadFault>
    ensures { Gives (λ x. (x.0, left x.1)) result
        (optional comes_name_at name_at (left rest.entry)) }
{
    if !comes_name(rest) {
        return Ok((None, rest));
    }
    let (found, rest) = name(alloc, rest)?;
    Ok((Some(found), rest))
}

/// `Transition`, a name, which may be missing, `:` source `->` target, and a body in braces
#[tactic(auto, unfolding(crate::specs::chart_parser::Codes::transition_at))]
pub fn transition<'a>(alloc: Global, rest: Rest<'a>) -> Result<(Transition, Rest<'a>), ReadFault>
    ensures { Gives (λ x. (x.0, left x.1)) result (transition_at (left rest.entry)) }
{
    let rest = take_word(rest, Word::Transition)?;
    let (name, rest) = name_if(alloc, rest)?;
    let rest = take_mark(rest, Mark::Colon)?;
    let (source, rest) = self::source(alloc, rest)?;
    let rest = take_mark(rest, Mark::Arrow)?;
    let (target, rest) = self::target(alloc, rest)?;
    let (body, rest) = transition_body_if(alloc, rest)?;
    Ok((
        Transition {
            name,
            source,
            target,
            body,
        },
        rest,
    ))
}

/// `ChoicePoint` name
#[tactic(auto, unfolding(crate::specs::chart_parser::Codes::choice_point_at))]
pub fn choice_point<'a>(alloc: Global, rest: Rest<'a>) -> Result<(ChoicePoint, Rest<'a>), ReadFault>
    ensures { Gives (λ x. (x.0, left x.1)) result (choice_point_at (left rest.entry)) }
{
    let rest = take_word(rest, Word::ChoicePoint)?;
    let (name, rest) = room_tokens::name(alloc, rest)?;
    Ok((ChoicePoint { name }, rest))
}

/// The kind of point that a word tells.
fn point_kind_of(word: Option<Word>) -> Option<PointKind>
    ensures { result ≡ point_kind_of word }
{
    match word {
        Some(Word::TransitionPoint) => Some(PointKind::Transition),
        Some(Word::EntryPoint) => Some(PointKind::Entry),
        Some(Word::ExitPoint) => Some(PointKind::Exit),
        _ => None,
    }
}

/// A word for its kind, and a name
#[tactic(auto, unfolding(crate::specs::chart_parser::Codes::point_at, room_tokens::specs::Single::word_as))]
pub fn point<'a>(alloc: Global, rest: Rest<'a>) -> Result<(Point, Rest<'a>), ReadFault>
    ensures { Gives (λ x. (x.0, left x.1)) result (point_at (left rest.entry)) }
{
    let Some(kind) = point_kind_of(word_here(rest)) else {
        return Err(ReadFault::Syntax(place(rest)));
    };
    let (name, rest) = room_tokens::name(alloc, skip(rest))?;
    Ok((Point { kind, name }, rest))
}
