//! Subsystem classes.
ghost use Rattle.std.specs.Prelude.{◌≡◌};
ghost use Rattle.room_ast.specs.Trees.{SubsystemItemTree, subsystem_item_view, subsystem_view};
ghost use Rattle.room_tokens.specs.Reader.{Gives};
ghost use Rattle.room_tokens.specs.Single.{left, before_close as before_close_at};
ghost use Rattle.structure_parser.specs.Mappings.{subsystem_item_at, subsystem_at};

use crate::mapping::mapping;
use crate::reference::{actor_ref, binding, layer, thread};
use room_ast::{Subsystem, SubsystemItem};
use room_lexer::{Mark, Word};
use room_tokens::{
    ReadFault, Rest, TreePart, before_close, each_tree, place, take_mark, take_word, word_here,
};
use std::alloc::Global;

#[tactic(auto, unfolding(crate::specs::Mappings::subsystem_item_at))]
fn subsystem_item<'a>(alloc: Global, rest: Rest<'a>) -> Result<(SubsystemItem, Rest<'a>), ReadFault>
    ensures { Gives (λ x. (subsystem_item_view x.0, left x.1)) result
        (subsystem_item_at (left rest.entry)) }
{
    match word_here(rest) {
        Some(Word::ActorRef | Word::Fixed | Word::Optional | Word::Imported) => {
            let (found, rest) = actor_ref(alloc, rest)?;
            Ok((SubsystemItem::Reference(found), rest))
        }
        Some(Word::Binding) => {
            let (found, rest) = binding(alloc, rest)?;
            Ok((SubsystemItem::Binding(found), rest))
        }
        Some(Word::LayerConnection) => {
            let (found, rest) = layer(alloc, rest)?;
            Ok((SubsystemItem::Layer(found), rest))
        }
        Some(Word::LogicalThread) => {
            let (found, rest) = thread(alloc, rest)?;
            Ok((SubsystemItem::Thread(found), rest))
        }
        Some(Word::ActorInstanceMapping) => {
            let (found, rest) = mapping(alloc, rest)?;
            Ok((SubsystemItem::Mapping(found), rest))
        }
        _ => Err(ReadFault::Syntax(place(rest))),
    }
}

/// An item of a subsystem class.
struct SubsystemItems;

impl TreePart for SubsystemItems {
    type Item = SubsystemItem;

    ghost Tree = { SubsystemItemTree };

    ghost tree = { subsystem_item_view };

    ghost goes_on = { before_close_at };

    ghost reads = { subsystem_item_at };

    fn comes(rest: Rest) -> bool {
        before_close(rest)
    }

    fn read<'a>(alloc: Global, rest: Rest<'a>) -> Result<(SubsystemItem, Rest<'a>), ReadFault> {
        subsystem_item(alloc, rest)
    }
}

/// `SubSystemClass` name `{` items `}`
#[tactic(auto, unfolding(crate::specs::Mappings::subsystem_at))]
pub fn subsystem<'a>(alloc: Global, rest: Rest<'a>) -> Result<(Subsystem, Rest<'a>), ReadFault>
    ensures { Gives (λ x. (subsystem_view x.0, left x.1)) result (subsystem_at (left rest.entry)) }
{
    let rest = take_word(rest, Word::SubSystemClass)?;
    let (name, rest) = room_tokens::name(alloc, rest)?;
    let rest = take_mark(rest, Mark::OpenBrace)?;
    let (items, rest) = each_tree::<SubsystemItems>(alloc, rest)?;
    let rest = take_mark(rest, Mark::CloseBrace)?;
    Ok((Subsystem { name, items }, rest))
}
