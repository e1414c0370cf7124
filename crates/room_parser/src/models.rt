//! Classes and the whole model.
ghost use Rattle.std.specs.Prelude.{◌≡◌};
ghost use Rattle.room_ast.specs.Trees.{ClassTree, class_view, model_view};
ghost use Rattle.room_tokens.specs.Reader.{Gives};
ghost use Rattle.room_tokens.specs.Single.{left, values, before_close as before_close_at};
ghost use Rattle.room_parser.specs.Classes.{event_driven_at, class_at, model_at, model};

use crate::actors::actor_class;
use room_ast::{Class, Model};
use room_kinds::Sequence;
use room_lexer::{Mark, Token, Word};
use room_tokens::{
    ReadFault, Rest, TreePart, before_close, each, each_tree, place, skip, take_mark, take_word,
    word_here,
};
use std::alloc::Global;
use structure_parser::{ImportPart, data_class, dotted, protocol_class, subsystem, system};

/// A class whose first word is `eventdriven`, which an actor class or a protocol class may have.
fn event_driven<'a>(alloc: Global, rest: Rest<'a>) -> Result<(Class, Rest<'a>), ReadFault>
    ensures { Gives (λ x. (class_view x.0, left x.1)) result (event_driven_at (left rest.entry)) }
{
    let behind = skip(rest);
    match word_here(behind) {
        Some(Word::ActorClass) => {
            let (found, rest) = actor_class(alloc, rest)?;
            Ok((Class::Actor(found), rest))
        }
        Some(Word::ProtocolClass) => {
            let (found, rest) = protocol_class(alloc, rest)?;
            Ok((Class::Protocol(found), rest))
        }
        _ => Err(ReadFault::Syntax(place(behind))),
    }
}

#[tactic(auto, unfolding(crate::specs::Classes::class_at))]
fn class<'a>(alloc: Global, rest: Rest<'a>) -> Result<(Class, Rest<'a>), ReadFault>
    ensures { Gives (λ x. (class_view x.0, left x.1)) result (class_at (left rest.entry)) }
{
    match word_here(rest) {
        Some(Word::LogicalSystem) => {
            let (found, rest) = system(alloc, rest)?;
            Ok((Class::System(found), rest))
        }
        Some(Word::SubSystemClass) => {
            let (found, rest) = subsystem(alloc, rest)?;
            Ok((Class::Subsystem(found), rest))
        }
        Some(Word::ActorClass) => {
            let (found, rest) = actor_class(alloc, rest)?;
            Ok((Class::Actor(found), rest))
        }
        Some(Word::ProtocolClass) => {
            let (found, rest) = protocol_class(alloc, rest)?;
            Ok((Class::Protocol(found), rest))
        }
        Some(Word::DataClass) => {
            let (found, rest) = data_class(alloc, rest)?;
            Ok((Class::Data(found), rest))
        }
        Some(Word::EventDriven) => event_driven(alloc, rest),
        _ => Err(ReadFault::Syntax(place(rest))),
    }
}

/// A class of a model.
struct Classes;

impl TreePart for Classes {
    type Item = Class;

    ghost Tree = { ClassTree };

    ghost tree = { class_view };

    ghost goes_on = { before_close_at };

    ghost reads = { class_at };

    fn comes(rest: Rest) -> bool {
        before_close(rest)
    }

    fn read<'a>(alloc: Global, rest: Rest<'a>) -> Result<(Class, Rest<'a>), ReadFault> {
        class(alloc, rest)
    }
}

/// The same classes in a list that takes no more room than they do: it stays as long as the model.
fn fitted(classes: Sequence<Class>) -> Sequence<Class>
    ensures { result ≡ classes }
{
    let mut classes = classes.into_vec();
    classes.shrink_to_fit();
    Sequence::from(classes)
}

/// `RoomModel` name `{` imports, classes `}`
#[tactic(auto, unfolding(crate::specs::Classes::model_at))]
fn model<'a>(alloc: Global, rest: Rest<'a>) -> Result<(Model, Rest<'a>), ReadFault>
    ensures { Gives (λ x. (model_view x.0, left x.1)) result (model_at (left rest.entry)) }
{
    let rest = take_word(rest, Word::RoomModel)?;
    let (name, rest) = dotted(alloc, rest)?;
    let rest = take_mark(rest, Mark::OpenBrace)?;
    let (imports, rest) = each::<ImportPart>(alloc, rest)?;
    let (classes, rest) = each_tree::<Classes>(alloc, rest)?;
    let rest = take_mark(rest, Mark::CloseBrace)?;
    Ok((
        Model {
            name,
            imports,
            classes: fitted(classes),
        },
        rest,
    ))
}

/// The model that the tokens are. What is left behind it is at fault.
#[tactic(auto, unfolding(crate::specs::Classes::model))]
pub fn whole(alloc: Global, bytes: &[u8], tokens: &[Token]) -> Result<Model, ReadFault>
    ensures { Gives model_view result (model (values bytes.now tokens.now)) }
{
    let (found, rest) = model(alloc, Rest { bytes, tokens })?;
    match rest.tokens {
        [] => Ok(found),
        [token, ..] => Err(ReadFault::Syntax(token.start)),
    }
}
