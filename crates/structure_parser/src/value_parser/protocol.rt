//! Protocol classes.
ghost use Rattle.std.specs.Prelude.{◌≡◌};
ghost use Rattle.room_lexer.specs.declared.token.Mark.TheVariants as marks;
ghost use Rattle.room_tokens.specs.Reader.{Gives, ◌▹◌, optional};
ghost use Rattle.room_tokens.specs.Single.{left, comes as comes_at, comes_word as comes_word_at, before_close as before_close_at, mark, name_at};
ghost use Rattle.structure_parser.specs.value_parser.Values.{usercode_comes as usercode_comes_at, usercode_at};
ghost use Rattle.structure_parser.specs.value_parser.Protocols.{parameter_at, message_at, messages_at, directions_at, protocol_at};

use crate::named::mark_name;
use crate::value_parser::value::{usercode, usercode_comes};
use room_ast::{Message, Name, Parameter, ProtocolClass, Usercode};
use room_kinds::Sequence;
use room_lexer::{Mark, Word};
use room_tokens::{
    Part, ReadFault, Rest, before_close, braces, comes, comes_name, comes_word, each, name,
    take_mark, take_word, word_if,
};
use std::alloc::Global;

/// `:` name, if it comes
#[tactic(auto, unfolding(room_tokens::specs::Reader::optional))]
fn type_if<'a>(alloc: Global, rest: Rest<'a>) -> Result<(Option<Name>, Rest<'a>), ReadFault>
    ensures { Gives (λ x. (x.0, left x.1)) result
        (optional (comes_at marks.Colon) (mark marks.Colon ▹ name_at) (left rest.entry)) }
{
    if !comes(rest, Mark::Colon) {
        return Ok((None, rest));
    }
    let (found, rest) = mark_name(alloc, rest, Mark::Colon)?;
    Ok((Some(found), rest))
}

/// What a message carries, in parentheses, which may be missing.
#[tactic(auto, unfolding(crate::specs::value_parser::Protocols::parameter_at, crate::specs::value_parser::Protocols::typed_at, room_tokens::specs::Reader::optional))]
fn parameter<'a>(alloc: Global, rest: Rest<'a>) -> Result<(Parameter, Rest<'a>), ReadFault>
    ensures { Gives (λ x. (x.0, left x.1)) result (parameter_at (left rest.entry)) }
{
    if !comes(rest, Mark::OpenParen) {
        return Ok((Parameter::Absent, rest));
    }
    let rest = take_mark(rest, Mark::OpenParen)?;
    if !comes_name(rest) {
        let rest = take_mark(rest, Mark::CloseParen)?;
        return Ok((Parameter::Empty, rest));
    }
    let (first, rest) = name(alloc, rest)?;
    let (second, rest) = type_if(alloc, rest)?;
    let rest = take_mark(rest, Mark::CloseParen)?;
    match second {
        Some(type_name) => Ok((
            Parameter::Labelled {
                label: first,
                type_name,
            },
            rest,
        )),
        None => Ok((Parameter::Typed(first), rest)),
    }
}

#[tactic(auto, unfolding(crate::specs::value_parser::Protocols::message_at))]
fn message<'a>(alloc: Global, rest: Rest<'a>) -> Result<(Message, Rest<'a>), ReadFault>
    ensures { Gives (λ x. (x.0, left x.1)) result (message_at (left rest.entry)) }
{
    let rest = take_word(rest, Word::Message)?;
    let (name, rest) = room_tokens::name(alloc, rest)?;
    let (parameter, rest) = self::parameter(alloc, rest)?;
    Ok((Message { name, parameter }, rest))
}

/// A message of one direction.
struct MessagePart;

impl Part for MessagePart {
    type Item = Message;

    ghost goes_on = { before_close_at };

    ghost reads = { message_at };

    fn comes(rest: Rest) -> bool {
        before_close(rest)
    }

    fn read<'a>(alloc: Global, rest: Rest<'a>) -> Result<(Message, Rest<'a>), ReadFault> {
        message(alloc, rest)
    }
}

/// A word and messages in braces, if the word comes.
#[tactic(auto, unfolding(crate::specs::value_parser::Protocols::messages_at, room_tokens::specs::Reader::optional))]
fn messages_if<'a>(
    alloc: Global,
    rest: Rest<'a>,
    word: Word,
) -> Result<(Option<Sequence<Message>>, Rest<'a>), ReadFault>
    ensures { Gives (λ x. (x.0, left x.1)) result
        (optional (comes_word_at word) (messages_at word) (left rest.entry)) }
{
    if !comes_word(rest, word) {
        return Ok((None, rest));
    }
    let rest = take_word(rest, word)?;
    let (found, rest) = braces::<MessagePart>(alloc, rest)?;
    Ok((Some(found), rest))
}

/// Usercode at the head of a protocol class.
struct UsercodePart;

impl Part for UsercodePart {
    type Item = Usercode;

    ghost goes_on = { usercode_comes_at };

    ghost reads = { usercode_at };

    fn comes(rest: Rest) -> bool {
        usercode_comes(rest)
    }

    fn read<'a>(alloc: Global, rest: Rest<'a>) -> Result<(Usercode, Rest<'a>), ReadFault> {
        usercode(alloc, rest)
    }
}

/// Incoming messages and outgoing ones, where either may be missing, `}`
fn directions<'a>(
    alloc: Global,
    rest: Rest<'a>,
) -> Result<
    (
        (Option<Sequence<Message>>, Option<Sequence<Message>>),
        Rest<'a>,
    ),
    ReadFault,
>
    ensures { Gives (λ x. (x.0, left x.1)) result (directions_at (left rest.entry)) }
{
    let (incoming, rest) = messages_if(alloc, rest, Word::Incoming)?;
    let (outgoing, rest) = messages_if(alloc, rest, Word::Outgoing)?;
    let rest = take_mark(rest, Mark::CloseBrace)?;
    Ok(((incoming, outgoing), rest))
}

/// `eventdriven`, which may be missing, `ProtocolClass` name `{` usercode, messages `}`
#[tactic(auto, unfolding(crate::specs::value_parser::Protocols::protocol_at))]
pub fn protocol_class<'a>(
    alloc: Global,
    rest: Rest<'a>,
) -> Result<(ProtocolClass, Rest<'a>), ReadFault>
    ensures { Gives (λ x. (x.0, left x.1)) result (protocol_at (left rest.entry)) }
{
    let (event_driven, rest) = word_if(rest, Word::EventDriven)?;
    let rest = take_word(rest, Word::ProtocolClass)?;
    let (name, rest) = room_tokens::name(alloc, rest)?;
    let rest = take_mark(rest, Mark::OpenBrace)?;
    let (usercodes, rest) = each::<UsercodePart>(alloc, rest)?;
    let ((incoming, outgoing), rest) = directions(alloc, rest)?;
    Ok((
        ProtocolClass {
            event_driven,
            name,
            usercodes,
            incoming,
            outgoing,
        },
        rest,
    ))
}
