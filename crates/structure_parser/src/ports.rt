//! Ports and services.
ghost use Rattle.std.specs.Prelude.{◌≡◌};
ghost use Rattle.room_lexer.specs.declared.token.Mark.TheVariants as marks;
ghost use Rattle.room_tokens.specs.Reader.{Gives, optional};
ghost use Rattle.room_tokens.specs.Single.{left, comes as comes_at};
ghost use Rattle.structure_parser.specs.Ports.{place_count_at, places_at, port_at, external_port_at, provision_at, access_at, implementation_at};

use crate::named::mark_name;
use room_ast::{
    ExternalPort, Places, Port, ServiceAccess, ServiceImplementation, ServiceProvision,
};
use room_lexer::{Mark, TokenKind, Word};
use room_tokens::{ReadFault, Rest, comes, next, place, take_mark, take_word, word_if};
use std::alloc::Global;

/// A number, or `*`
#[tactic(auto, unfolding(crate::specs::Ports::place_count_at))]
fn place_count<'a>(rest: Rest<'a>) -> Result<(Places, Rest<'a>), ReadFault>
    ensures { Gives (λ x. (x.0, left x.1)) result (place_count_at (left rest.entry)) }
{
    let Some((token, others)) = next(rest) else {
        return Err(ReadFault::Syntax(place(rest)));
    };
    match token.kind {
        TokenKind::Number(n) => Ok((Places::Number(n), others)),
        TokenKind::Mark(Mark::Star) => Ok((Places::Any, others)),
        _ => Err(ReadFault::Syntax(place(rest))),
    }
}

/// How many places a port has, in brackets, if they come.
#[tactic(auto, unfolding(crate::specs::Ports::places_at, room_tokens::specs::Reader::optional))]
fn places_if<'a>(rest: Rest<'a>) -> Result<(Option<Places>, Rest<'a>), ReadFault>
    ensures { Gives (λ x. (x.0, left x.1)) result
        (optional (comes_at marks.OpenBracket) places_at (left rest.entry)) }
{
    if !comes(rest, Mark::OpenBracket) {
        return Ok((None, rest));
    }
    let rest = take_mark(rest, Mark::OpenBracket)?;
    let (places, rest) = place_count(rest)?;
    let rest = take_mark(rest, Mark::CloseBracket)?;
    Ok((Some(places), rest))
}

/// `conjugated`, which may be missing, `Port` name, `[` places `]`, `:` protocol
#[tactic(auto, unfolding(crate::specs::Ports::port_at))]
pub fn port<'a>(alloc: Global, rest: Rest<'a>) -> Result<(Port, Rest<'a>), ReadFault>
    ensures { Gives (λ x. (x.0, left x.1)) result (port_at (left rest.entry)) }
{
    let (conjugated, rest) = word_if(rest, Word::Conjugated)?;
    let rest = take_word(rest, Word::Port)?;
    let (name, rest) = room_tokens::name(alloc, rest)?;
    let (places, rest) = places_if(rest)?;
    let (protocol, rest) = mark_name(alloc, rest, Mark::Colon)?;
    Ok((
        Port {
            conjugated,
            name,
            places,
            protocol,
        },
        rest,
    ))
}

/// `external` `Port` name
#[tactic(auto, unfolding(crate::specs::Ports::external_port_at))]
pub fn external_port<'a>(
    alloc: Global,
    rest: Rest<'a>,
) -> Result<(ExternalPort, Rest<'a>), ReadFault>
    ensures { Gives (λ x. (x.0, left x.1)) result (external_port_at (left rest.entry)) }
{
    let rest = take_word(rest, Word::External)?;
    let rest = take_word(rest, Word::Port)?;
    let (name, rest) = room_tokens::name(alloc, rest)?;
    Ok((ExternalPort { name }, rest))
}

/// `SPP` name `:` protocol
#[tactic(auto, unfolding(crate::specs::Ports::provision_at))]
pub fn provision<'a>(
    alloc: Global,
    rest: Rest<'a>,
) -> Result<(ServiceProvision, Rest<'a>), ReadFault>
    ensures { Gives (λ x. (x.0, left x.1)) result (provision_at (left rest.entry)) }
{
    let rest = take_word(rest, Word::Spp)?;
    let (name, rest) = room_tokens::name(alloc, rest)?;
    let (protocol, rest) = mark_name(alloc, rest, Mark::Colon)?;
    Ok((ServiceProvision { name, protocol }, rest))
}

/// `SAP` name `:` protocol
#[tactic(auto, unfolding(crate::specs::Ports::access_at))]
pub fn access<'a>(alloc: Global, rest: Rest<'a>) -> Result<(ServiceAccess, Rest<'a>), ReadFault>
    ensures { Gives (λ x. (x.0, left x.1)) result (access_at (left rest.entry)) }
{
    let rest = take_word(rest, Word::Sap)?;
    let (name, rest) = room_tokens::name(alloc, rest)?;
    let (protocol, rest) = mark_name(alloc, rest, Mark::Colon)?;
    Ok((ServiceAccess { name, protocol }, rest))
}

/// `ServiceImplementation` `of` name
#[tactic(auto, unfolding(crate::specs::Ports::implementation_at))]
pub fn implementation<'a>(
    alloc: Global,
    rest: Rest<'a>,
) -> Result<(ServiceImplementation, Rest<'a>), ReadFault>
    ensures { Gives (λ x. (x.0, left x.1)) result (implementation_at (left rest.entry)) }
{
    let rest = take_word(rest, Word::ServiceImplementation)?;
    let rest = take_word(rest, Word::Of)?;
    let (name, rest) = room_tokens::name(alloc, rest)?;
    Ok((ServiceImplementation { name }, rest))
}
