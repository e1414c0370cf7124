//! Names joined by dots, and imports.
ghost use Rattle.std.specs.Prelude.{◌≡◌};
ghost use Rattle.room_lexer.specs.declared.token.Mark.TheVariants as marks;
ghost use Rattle.room_lexer.specs.declared.word.Word.TheVariants as words;
ghost use Rattle.room_tokens.specs.Reader.{Gives, optional};
ghost use Rattle.room_tokens.specs.Single.{left, comes as comes_at, comes_word as comes_word_at};
ghost use Rattle.structure_parser.specs.value_parser.Names.{dot_name_at, dotted_at, goes_on_in_path, path_at, all_at, source_comes, source_at, import_at};

use crate::named::mark_name;
use room_ast::{Dotted, Import, ImportSource, Name};
use room_lexer::{Mark, Word};
use room_tokens::{
    Part, ReadFault, Rest, comes, comes_string, comes_word, each, name, skip, string, take_mark,
    take_word, word_if,
};
use std::alloc::Global;

/// `.` name
#[tactic(auto, unfolding(crate::specs::value_parser::Names::dot_name_at))]
fn dot_name<'a>(alloc: Global, rest: Rest<'a>) -> Result<(Name, Rest<'a>), ReadFault>
    ensures { Gives (λ x. (x.0, left x.1)) result (dot_name_at (left rest.entry)) }
{
    mark_name(alloc, rest, Mark::Dot)
}

/// A name behind a dot.
struct DotName;

impl Part for DotName {
    type Item = Name;

    ghost goes_on = { comes_at marks.Dot };

    ghost reads = { dot_name_at };

    fn comes(rest: Rest) -> bool {
        comes(rest, Mark::Dot)
    }

    fn read<'a>(alloc: Global, rest: Rest<'a>) -> Result<(Name, Rest<'a>), ReadFault> {
        dot_name(alloc, rest)
    }
}

/// Names joined by dots.
#[tactic(auto, unfolding(crate::specs::value_parser::Names::dotted_at))]
pub fn dotted<'a>(alloc: Global, rest: Rest<'a>) -> Result<(Dotted, Rest<'a>), ReadFault>
    ensures { Gives (λ x. (x.0, left x.1)) result (dotted_at (left rest.entry)) }
{
    let (first, rest) = name(alloc, rest)?;
    let (others, rest) = each::<DotName>(alloc, rest)?;
    Ok((Dotted { first, others }, rest))
}

/// A name behind a dot in the path of an import, where a star may stand in the name's place.
struct PathName;

impl Part for PathName {
    type Item = Name;

    ghost goes_on = { goes_on_in_path };

    ghost reads = { dot_name_at };

    #[tactic(auto, unfolding(crate::specs::value_parser::Names::goes_on_in_path))]
    fn comes(rest: Rest) -> bool {
        comes(rest, Mark::Dot) && !comes(skip(rest), Mark::Star)
    }

    fn read<'a>(alloc: Global, rest: Rest<'a>) -> Result<(Name, Rest<'a>), ReadFault> {
        dot_name(alloc, rest)
    }
}

/// The path of an import, up to a dot and a star if they come.
#[tactic(auto, unfolding(crate::specs::value_parser::Names::path_at))]
fn path<'a>(alloc: Global, rest: Rest<'a>) -> Result<(Dotted, Rest<'a>), ReadFault>
    ensures { Gives (λ x. (x.0, left x.1)) result (path_at (left rest.entry)) }
{
    let (first, rest) = name(alloc, rest)?;
    let (others, rest) = each::<PathName>(alloc, rest)?;
    Ok((Dotted { first, others }, rest))
}

/// `.` `*`, if they come
#[tactic(auto, unfolding(crate::specs::value_parser::Names::all_at, room_tokens::specs::Reader::flag))]
fn all<'a>(rest: Rest<'a>) -> Result<(bool, Rest<'a>), ReadFault>
    ensures { Gives (λ x. (x.0, left x.1)) result (all_at (left rest.entry)) }
{
    if !comes(rest, Mark::Dot) {
        return Ok((false, rest));
    }
    let rest = take_mark(rest, Mark::Dot)?;
    let rest = take_mark(rest, Mark::Star)?;
    Ok((true, rest))
}

/// `from`, which may be missing, and a STRING
#[tactic(auto, unfolding(crate::specs::value_parser::Names::source_at))]
fn source<'a>(alloc: Global, rest: Rest<'a>) -> Result<(ImportSource, Rest<'a>), ReadFault>
    ensures { Gives (λ x. (x.0, left x.1)) result (source_at (left rest.entry)) }
{
    let (has_word, rest) = word_if(rest, Word::From)?;
    let (text, rest) = string(alloc, rest)?;
    Ok((ImportSource { has_word, text }, rest))
}

/// Whether where an import comes from is told.
#[tactic(auto, unfolding(crate::specs::value_parser::Names::source_comes))]
fn source_comes(rest: Rest) -> bool
    ensures { result ≡ source_comes (left rest.entry) }
{
    comes_word(rest, Word::From) || comes_string(rest)
}

#[tactic(auto, unfolding(room_tokens::specs::Reader::optional))]
fn source_if<'a>(
    alloc: Global,
    rest: Rest<'a>,
) -> Result<(Option<ImportSource>, Rest<'a>), ReadFault>
    ensures { Gives (λ x. (x.0, left x.1)) result
        (optional source_comes source_at (left rest.entry)) }
{
    if !source_comes(rest) {
        return Ok((None, rest));
    }
    let (found, rest) = source(alloc, rest)?;
    Ok((Some(found), rest))
}

#[tactic(auto, unfolding(crate::specs::value_parser::Names::import_at))]
fn import<'a>(alloc: Global, rest: Rest<'a>) -> Result<(Import, Rest<'a>), ReadFault>
    ensures { Gives (λ x. (x.0, left x.1)) result (import_at (left rest.entry)) }
{
    let rest = take_word(rest, Word::Import)?;
    let (path, rest) = self::path(alloc, rest)?;
    let (all, rest) = self::all(rest)?;
    let (source, rest) = source_if(alloc, rest)?;
    Ok((Import { path, all, source }, rest))
}

/// An import of a model.
pub struct ImportPart;

impl Part for ImportPart {
    type Item = Import;

    ghost goes_on = { comes_word_at words.Import };

    ghost reads = { import_at };

    fn comes(rest: Rest) -> bool {
        comes_word(rest, Word::Import)
    }

    fn read<'a>(alloc: Global, rest: Rest<'a>) -> Result<(Import, Rest<'a>), ReadFault> {
        import(alloc, rest)
    }
}
