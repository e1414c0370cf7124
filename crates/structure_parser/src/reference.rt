//! Actor references, bindings, layer connections and threads.
ghost use Rattle.std.specs.Prelude.{◌≡◌};
ghost use Rattle.room_lexer.specs.declared.token.Mark.TheVariants as marks;
ghost use Rattle.room_tokens.specs.Reader.{Gives, ◌▹◌, optional};
ghost use Rattle.room_tokens.specs.Single.{left, comes as comes_at, mark, name_at};
ghost use Rattle.structure_parser.specs.References.{kind_of, kind_at, count_at, actor_ref_at, side_at, binding_at, layer_at, thread_at};

use crate::named::mark_name;
use room_ast::{ActorRef, Binding, LayerConnection, LogicalThread, Name, Side};
use room_kinds::ReferenceKind;
use room_lexer::{Mark, Word};
use room_tokens::{ReadFault, Rest, comes, name, number, skip, take_mark, take_word, word_here};
use std::alloc::Global;

/// The kind of reference that a word tells.
fn kind_of(word: Option<Word>) -> Option<ReferenceKind>
    ensures { result ≡ kind_of word }
{
    match word {
        Some(Word::Fixed) => Some(ReferenceKind::Fixed),
        Some(Word::Optional) => Some(ReferenceKind::Optional),
        Some(Word::Imported) => Some(ReferenceKind::Imported),
        _ => None,
    }
}

/// `fixed`, `optional` or `imported`, if one comes
#[tactic(auto, unfolding(crate::specs::References::kind_at, room_tokens::specs::Reader::optional, room_tokens::specs::Single::word_as, room_tokens::specs::Single::comes_as))]
fn kind_if<'a>(rest: Rest<'a>) -> Result<(Option<ReferenceKind>, Rest<'a>), ReadFault>
    ensures { Gives (λ x. (x.0, left x.1)) result (kind_at (left rest.entry)) }
{
    match kind_of(word_here(rest)) {
        Some(kind) => Ok((Some(kind), skip(rest))),
        None => Ok((None, rest)),
    }
}

/// `[` number `]`, if it comes
#[tactic(auto, unfolding(crate::specs::References::count_at, room_tokens::specs::Reader::optional))]
fn count_if<'a>(rest: Rest<'a>) -> Result<(Option<u64>, Rest<'a>), ReadFault>
    ensures { Gives (λ x. (x.0, left x.1)) result
        (optional (comes_at marks.OpenBracket) count_at (left rest.entry)) }
{
    if !comes(rest, Mark::OpenBracket) {
        return Ok((None, rest));
    }
    let rest = take_mark(rest, Mark::OpenBracket)?;
    let (count, rest) = number(rest)?;
    let rest = take_mark(rest, Mark::CloseBracket)?;
    Ok((Some(count), rest))
}

/// A word for its kind, which may be missing, `ActorRef` name, `[` count `]`, `:` class
#[tactic(auto, unfolding(crate::specs::References::actor_ref_at))]
pub fn actor_ref<'a>(alloc: Global, rest: Rest<'a>) -> Result<(ActorRef, Rest<'a>), ReadFault>
    ensures { Gives (λ x. (x.0, left x.1)) result (actor_ref_at (left rest.entry)) }
{
    let (kind, rest) = kind_if(rest)?;
    let rest = take_word(rest, Word::ActorRef)?;
    let (name, rest) = room_tokens::name(alloc, rest)?;
    let (count, rest) = count_if(rest)?;
    let (class, rest) = mark_name(alloc, rest, Mark::Colon)?;
    Ok((
        ActorRef {
            kind,
            name,
            count,
            class,
        },
        rest,
    ))
}

/// `.` name, if it comes
#[tactic(auto, unfolding(room_tokens::specs::Reader::optional))]
fn inner_if<'a>(alloc: Global, rest: Rest<'a>) -> Result<(Option<Name>, Rest<'a>), ReadFault>
    ensures { Gives (λ x. (x.0, left x.1)) result
        (optional (comes_at marks.Dot) (mark marks.Dot ▹ name_at) (left rest.entry)) }
{
    if !comes(rest, Mark::Dot) {
        return Ok((None, rest));
    }
    let (port, rest) = mark_name(alloc, rest, Mark::Dot)?;
    Ok((Some(port), rest))
}

/// A port of the class itself, or a port of one of its references.
#[tactic(auto, unfolding(crate::specs::References::side_at))]
fn side<'a>(alloc: Global, rest: Rest<'a>) -> Result<(Side, Rest<'a>), ReadFault>
    ensures { Gives (λ x. (x.0, left x.1)) result (side_at (left rest.entry)) }
{
    let (first, rest) = name(alloc, rest)?;
    let (inner, rest) = inner_if(alloc, rest)?;
    match inner {
        Some(port) => Ok((
            Side::Inner {
                reference: first,
                port,
            },
            rest,
        )),
        None => Ok((Side::Own(first), rest)),
    }
}

/// `Binding` side `and` side
#[tactic(auto, unfolding(crate::specs::References::binding_at))]
pub fn binding<'a>(alloc: Global, rest: Rest<'a>) -> Result<(Binding, Rest<'a>), ReadFault>
    ensures { Gives (λ x. (x.0, left x.1)) result (binding_at (left rest.entry)) }
{
    let rest = take_word(rest, Word::Binding)?;
    let (left, rest) = side(alloc, rest)?;
    let rest = take_word(rest, Word::And)?;
    let (right, rest) = side(alloc, rest)?;
    Ok((Binding { left, right }, rest))
}

/// `LayerConnection` `ref` reference `satisfied_by` provider `.` service
#[tactic(auto, unfolding(crate::specs::References::layer_at))]
pub fn layer<'a>(alloc: Global, rest: Rest<'a>) -> Result<(LayerConnection, Rest<'a>), ReadFault>
    ensures { Gives (λ x. (x.0, left x.1)) result (layer_at (left rest.entry)) }
{
    let rest = take_word(rest, Word::LayerConnection)?;
    let rest = take_word(rest, Word::Ref)?;
    let (reference, rest) = name(alloc, rest)?;
    let rest = take_word(rest, Word::SatisfiedBy)?;
    let (provider, rest) = name(alloc, rest)?;
    let (service, rest) = mark_name(alloc, rest, Mark::Dot)?;
    Ok((
        LayerConnection {
            reference,
            provider,
            service,
        },
        rest,
    ))
}

/// `LogicalThread` name
#[tactic(auto, unfolding(crate::specs::References::thread_at))]
pub fn thread<'a>(alloc: Global, rest: Rest<'a>) -> Result<(LogicalThread, Rest<'a>), ReadFault>
    ensures { Gives (λ x. (x.0, left x.1)) result (thread_at (left rest.entry)) }
{
    let rest = take_word(rest, Word::LogicalThread)?;
    let (name, rest) = room_tokens::name(alloc, rest)?;
    Ok((LogicalThread { name }, rest))
}
