//! Data classes.
ghost use Rattle.std.specs.Prelude.{◌≡◌};
ghost use Rattle.room_tokens.specs.Reader.{Gives};
ghost use Rattle.room_tokens.specs.Single.{left, before_close as before_close_at};
ghost use Rattle.structure_parser.specs.value_parser.Protocols.{data_item_at, data_class_at};

use crate::value_parser::value::{attribute, usercode};
use room_ast::{DataClass, DataItem};
use room_lexer::Word;
use room_tokens::{Part, ReadFault, Rest, before_close, braces, place, take_word, word_here};
use std::alloc::Global;

#[tactic(auto, unfolding(crate::specs::value_parser::Protocols::data_item_at))]
fn data_item<'a>(alloc: Global, rest: Rest<'a>) -> Result<(DataItem, Rest<'a>), ReadFault>
    ensures { Gives (λ x. (x.0, left x.1)) result (data_item_at (left rest.entry)) }
{
    match word_here(rest) {
        Some(Word::Attribute) => {
            let (found, rest) = attribute(alloc, rest)?;
            Ok((DataItem::Attribute(found), rest))
        }
        Some(Word::Usercode | Word::Usercode1 | Word::Usercode2 | Word::Usercode3) => {
            let (found, rest) = usercode(alloc, rest)?;
            Ok((DataItem::Usercode(found), rest))
        }
        _ => Err(ReadFault::Syntax(place(rest))),
    }
}

/// An item of a data class.
struct DataItems;

impl Part for DataItems {
    type Item = DataItem;

    ghost goes_on = { before_close_at };

    ghost reads = { data_item_at };

    fn comes(rest: Rest) -> bool {
        before_close(rest)
    }

    fn read<'a>(alloc: Global, rest: Rest<'a>) -> Result<(DataItem, Rest<'a>), ReadFault> {
        data_item(alloc, rest)
    }
}

/// `DataClass` name `{` usercode, attributes `}`
#[tactic(auto, unfolding(crate::specs::value_parser::Protocols::data_class_at))]
pub fn data_class<'a>(alloc: Global, rest: Rest<'a>) -> Result<(DataClass, Rest<'a>), ReadFault>
    ensures { Gives (λ x. (x.0, left x.1)) result (data_class_at (left rest.entry)) }
{
    let rest = take_word(rest, Word::DataClass)?;
    let (name, rest) = room_tokens::name(alloc, rest)?;
    let (items, rest) = braces::<DataItems>(alloc, rest)?;
    Ok((DataClass { name, items }, rest))
}
