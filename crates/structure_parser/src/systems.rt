//! The logical system.
ghost use Rattle.std.specs.Prelude.{◌≡◌};
ghost use Rattle.room_tokens.specs.Reader.{Gives};
ghost use Rattle.room_tokens.specs.Single.{left, before_close as before_close_at};
ghost use Rattle.structure_parser.specs.Mappings.{subsystem_ref_at, system_at};

use crate::named::mark_name;
use room_ast::{SubsystemRef, System};
use room_lexer::{Mark, Word};
use room_tokens::{Part, ReadFault, Rest, before_close, braces, take_word};
use std::alloc::Global;

/// `SubSystemRef` name `:` class
#[tactic(auto, unfolding(crate::specs::Mappings::subsystem_ref_at))]
fn subsystem_ref<'a>(alloc: Global, rest: Rest<'a>) -> Result<(SubsystemRef, Rest<'a>), ReadFault>
    ensures { Gives (λ x. (x.0, left x.1)) result (subsystem_ref_at (left rest.entry)) }
{
    let rest = take_word(rest, Word::SubSystemRef)?;
    let (name, rest) = room_tokens::name(alloc, rest)?;
    let (class, rest) = mark_name(alloc, rest, Mark::Colon)?;
    Ok((SubsystemRef { name, class }, rest))
}

/// A reference of the logical system.
struct SubsystemRefs;

impl Part for SubsystemRefs {
    type Item = SubsystemRef;

    ghost goes_on = { before_close_at };

    ghost reads = { subsystem_ref_at };

    fn comes(rest: Rest) -> bool {
        before_close(rest)
    }

    fn read<'a>(alloc: Global, rest: Rest<'a>) -> Result<(SubsystemRef, Rest<'a>), ReadFault> {
        subsystem_ref(alloc, rest)
    }
}

/// `LogicalSystem` name `{` references `}`
#[tactic(auto, unfolding(crate::specs::Mappings::system_at))]
pub fn system<'a>(alloc: Global, rest: Rest<'a>) -> Result<(System, Rest<'a>), ReadFault>
    ensures { Gives (λ x. (x.0, left x.1)) result (system_at (left rest.entry)) }
{
    let rest = take_word(rest, Word::LogicalSystem)?;
    let (name, rest) = room_tokens::name(alloc, rest)?;
    let (references, rest) = braces::<SubsystemRefs>(alloc, rest)?;
    Ok((System { name, references }, rest))
}
