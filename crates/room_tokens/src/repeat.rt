//! What repeats.
ghost use Rattle.std.specs.Prelude.{◌≡◌, List, Bool, map};
ghost use Rattle.room_ast.specs.Values.{TokenValue};
ghost use Rattle.room_tokens.specs.Reader.{Gives, Reader, all_while};
ghost use Rattle.room_tokens.specs.Single.{left, braces_while};

use crate::fault::ReadFault;
use crate::rest::{Rest, place, take_mark};
use room_kinds::Sequence;
use room_lexer::Mark;
use std::alloc::Global;

/// What may come any number of times: whether one more comes, and how it is read.
pub trait Part {
    /// What is read each time.
    type Item: Drop;

    /// Whether one more comes.
    ghost goes_on: { List TokenValue → Bool };

    /// How one is read.
    ghost reads: { Reader TokenValue Self.Item };

    fn comes(rest: Rest) -> bool
        ensures { result ≡ goes_on (left rest.entry) };

    fn read<'a>(alloc: Global, rest: Rest<'a>) -> Result<(Self::Item, Rest<'a>), ReadFault>
        ensures { Gives (λ x. (x.0, left x.1)) result (reads (left rest.entry)) };
}

/// Reads parts as long as one more comes. Each takes a token at least, so there are no more
/// turns than tokens.
pub fn each<'a, P: Part>(
    alloc: Global,
    rest: Rest<'a>,
) -> Result<(Sequence<P::Item>, Rest<'a>), ReadFault>
    ensures { Gives (λ x. (x.0, left x.1)) result (all_while P.goes_on P.reads (left rest.entry)) }
{
    let mut found = Vec::new(alloc);
    let mut turns = rest.tokens.len();
    let mut rest = rest;
    while P::comes(rest) {
        if turns == 0 {
            return Err(ReadFault::Syntax(place(rest)));
        }
        let (one, after) = P::read(alloc, rest)?;
        found.push(one)?;
        rest = after;
        turns -= 1;
    }
    Ok((Sequence::from(found), rest))
}

/// Reads parts in braces, as long as one more comes.
pub fn braces<'a, P: Part>(
    alloc: Global,
    rest: Rest<'a>,
) -> Result<(Sequence<P::Item>, Rest<'a>), ReadFault>
    ensures { Gives (λ x. (x.0, left x.1)) result (braces_while P.goes_on P.reads (left rest.entry)) }
{
    let rest = take_mark(rest, Mark::OpenBrace)?;
    let (found, rest) = each::<P>(alloc, rest)?;
    let rest = take_mark(rest, Mark::CloseBrace)?;
    Ok((found, rest))
}

/// What may come any number of times and is seen as a tree of another type.
pub trait TreePart {
    /// What is read each time.
    type Item: Drop;

    /// What it is seen as.
    ghost Tree: { Type 0 };

    ghost tree: { Self.Item → Tree };

    /// Whether one more comes.
    ghost goes_on: { List TokenValue → Bool };

    /// How one is read.
    ghost reads: { Reader TokenValue Tree };

    fn comes(rest: Rest) -> bool
        ensures { result ≡ goes_on (left rest.entry) };

    fn read<'a>(alloc: Global, rest: Rest<'a>) -> Result<(Self::Item, Rest<'a>), ReadFault>
        ensures { Gives (λ x. (tree x.0, left x.1)) result (reads (left rest.entry)) };
}

/// Reads parts that are seen as trees, as long as one more comes.
pub fn each_tree<'a, P: TreePart>(
    alloc: Global,
    rest: Rest<'a>,
) -> Result<(Sequence<P::Item>, Rest<'a>), ReadFault>
    ensures { Gives (λ x. (map P.tree x.0, left x.1)) result (all_while P.goes_on P.reads (left rest.entry)) }
{
    let mut found = Vec::new(alloc);
    let mut turns = rest.tokens.len();
    let mut rest = rest;
    while P::comes(rest) {
        if turns == 0 {
            return Err(ReadFault::Syntax(place(rest)));
        }
        let (one, after) = P::read(alloc, rest)?;
        found.push(one)?;
        rest = after;
        turns -= 1;
    }
    Ok((Sequence::from(found), rest))
}
