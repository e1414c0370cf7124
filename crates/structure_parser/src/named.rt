//! A name behind a mark.
ghost use Rattle.std.specs.Prelude.{◌≡◌};
ghost use Rattle.room_tokens.specs.Reader.{Gives, ◌▹◌};
ghost use Rattle.room_tokens.specs.Single.{left, mark as mark_at, name_at};

use room_ast::Name;
use room_lexer::Mark;
use room_tokens::{ReadFault, Rest, name, take_mark};
use std::alloc::Global;

/// A name behind a mark.
pub(crate) fn mark_name<'a>(
    alloc: Global,
    rest: Rest<'a>,
    mark: Mark,
) -> Result<(Name, Rest<'a>), ReadFault>
    ensures { Gives (λ x. (x.0, left x.1)) result ((mark_at mark ▹ name_at) (left rest.entry)) }
{
    let rest = take_mark(rest, mark)?;
    name(alloc, rest)
}
