//! Mappings of references to threads.
ghost use Rattle.std.specs.Prelude.{◌≡◌, ◌++◌, ◌∷◌, [], IfOk};
ghost use Rattle.room_lexer.specs.declared.token.Mark.TheVariants as marks;
ghost use Rattle.room_ast.specs.MappingTree.{MappingOf, mapping_view, mapping_views};
ghost use Rattle.room_tokens.specs.Reader.{Gives, ◌▹◌, flag, optional};
ghost use Rattle.room_tokens.specs.Single.{left, comes as comes_at, mark, number_at};
ghost use Rattle.structure_parser.specs.Mappings.{segment_at, slash_segment_at, path_at, head_at, closed_at, nested_view, nested_at, mapping_at};

use crate::named::mark_name;
use room_ast::{Mapping, MappingPath, Name, Segment};
use room_lexer::{Mark, Word};
use room_tokens::{
    Part, ReadFault, Rest, before_close, comes, each, number, place, skip, take_mark, take_word,
};
use std::alloc::{AllocError, Global};

/// `:` number, if it comes
#[tactic(auto, unfolding(room_tokens::specs::Reader::optional))]
fn index_if<'a>(rest: Rest<'a>) -> Result<(Option<u64>, Rest<'a>), ReadFault>
    ensures { Gives (λ x. (x.0, left x.1)) result
        (optional (comes_at marks.Colon) (mark marks.Colon ▹ number_at) (left rest.entry)) }
{
    if !comes(rest, Mark::Colon) {
        return Ok((None, rest));
    }
    let rest = take_mark(rest, Mark::Colon)?;
    let (index, rest) = number(rest)?;
    Ok((Some(index), rest))
}

#[tactic(auto, unfolding(crate::specs::Mappings::segment_at))]
fn segment<'a>(alloc: Global, rest: Rest<'a>) -> Result<(Segment, Rest<'a>), ReadFault>
    ensures { Gives (λ x. (x.0, left x.1)) result (segment_at (left rest.entry)) }
{
    let (name, rest) = room_tokens::name(alloc, rest)?;
    let (index, rest) = index_if(rest)?;
    Ok((Segment { name, index }, rest))
}

/// A segment behind a slash.
struct SlashSegment;

impl Part for SlashSegment {
    type Item = Segment;

    ghost goes_on = { comes_at marks.Slash };

    ghost reads = { slash_segment_at };

    fn comes(rest: Rest) -> bool {
        comes(rest, Mark::Slash)
    }

    #[tactic(auto, unfolding(crate::specs::Mappings::slash_segment_at))]
    fn read<'a>(alloc: Global, rest: Rest<'a>) -> Result<(Segment, Rest<'a>), ReadFault> {
        let rest = take_mark(rest, Mark::Slash)?;
        segment(alloc, rest)
    }
}

/// Whether a slash comes, which is read then.
#[tactic(auto, unfolding(room_tokens::specs::Reader::flag))]
fn slash_if<'a>(rest: Rest<'a>) -> Result<(bool, Rest<'a>), ReadFault>
    ensures { Gives (λ x. (x.0, left x.1)) result
        (flag (comes_at marks.Slash) (mark marks.Slash) (left rest.entry)) }
{
    if !comes(rest, Mark::Slash) {
        return Ok((false, rest));
    }
    let rest = take_mark(rest, Mark::Slash)?;
    Ok((true, rest))
}

/// Segments joined by slashes, with or without a slash at the front.
#[tactic(auto, unfolding(crate::specs::Mappings::path_at))]
fn mapping_path<'a>(alloc: Global, rest: Rest<'a>) -> Result<(MappingPath, Rest<'a>), ReadFault>
    ensures { Gives (λ x. (x.0, left x.1)) result (path_at (left rest.entry)) }
{
    let (has_slash, rest) = slash_if(rest)?;
    let (first, rest) = segment(alloc, rest)?;
    let (others, rest) = each::<SlashSegment>(alloc, rest)?;
    Ok((
        MappingPath {
            has_slash,
            first,
            others,
        },
        rest,
    ))
}

/// `ActorInstanceMapping` path `->` thread
#[tactic(auto, unfolding(crate::specs::Mappings::head_at))]
fn head<'a>(alloc: Global, rest: Rest<'a>) -> Result<((MappingPath, Name), Rest<'a>), ReadFault>
    ensures { Gives (λ x. (x.0, left x.1)) result (head_at (left rest.entry)) }
{
    let rest = take_word(rest, Word::ActorInstanceMapping)?;
    let (path, rest) = mapping_path(alloc, rest)?;
    let (thread, rest) = mark_name(alloc, rest, Mark::Arrow)?;
    Ok(((path, thread), rest))
}

/// A mapping whose braces stand open, and the mappings before it in the braces that it stands in.
#[derive(Drop)]
pub struct OpenMapping {
    pub path: MappingPath,
    pub thread: Name,
    pub before: Vec<Mapping>,
}

/// Mappings up to a closing brace, which is read too. Those whose braces stand open are kept in a
/// vector, so nesting takes no stack. Each turn takes a token at least.
fn closed<'a>(alloc: Global, rest: Rest<'a>) -> Result<(Vec<Mapping>, Rest<'a>), ReadFault>
    ensures { Gives (λ x. (mapping_views x.0.items, left x.1)) result
        (closed_at (left rest.entry)) }
{
    let mut turns = rest.tokens.len();
    let mut frames = Vec::new(alloc);
    let mut found = Vec::new(alloc);
    let mut rest = rest;
    while turns > 0 {
        turns -= 1;
        if before_close(rest) {
            let ((path, thread), after) = head(alloc, rest)?;
            if comes(after, Mark::OpenBrace) {
                frames.push(OpenMapping {
                    path,
                    thread,
                    before: found,
                })?;
                found = Vec::new(alloc);
                rest = skip(after);
            } else {
                found = with_mapping(found, path, thread, None)?;
                rest = after;
            }
        } else {
            rest = skip(rest);
            let Some(outer) = frames.pop() else {
                return Ok((found, rest));
            };
            let OpenMapping {
                path,
                thread,
                before,
            } = outer;
            found = with_mapping(before, path, thread, Some(found))?;
        }
    }
    Err(ReadFault::Syntax(place(rest)))
}

/// Mappings and one more.
fn with_mapping(
    found: Vec<Mapping>,
    path: MappingPath,
    thread: Name,
    nested: Option<Vec<Mapping>>,
) -> Result<Vec<Mapping>, AllocError>
    ensures { IfOk result (λ v.
        mapping_views v.items
        ≡ mapping_views found.items ++ MappingOf path thread (nested_view nested) ∷ []) }
{
    let mut all = found;
    if all.is_empty() {
        // Most braces hold one mapping, and room for more would be most of what they take.
        all.reserve_exact(1)?;
    }
    all.push(Mapping {
        path,
        thread,
        nested,
    })?;
    Ok(all)
}

/// Nested mappings in braces, if they come.
#[tactic(auto, unfolding(crate::specs::Mappings::nested_at, room_tokens::specs::Reader::optional))]
fn nested_if<'a>(
    alloc: Global,
    rest: Rest<'a>,
) -> Result<(Option<Vec<Mapping>>, Rest<'a>), ReadFault>
    ensures { Gives (λ x. (nested_view x.0, left x.1)) result (nested_at (left rest.entry)) }
{
    if !comes(rest, Mark::OpenBrace) {
        return Ok((None, rest));
    }
    let rest = take_mark(rest, Mark::OpenBrace)?;
    let (found, rest) = closed(alloc, rest)?;
    Ok((Some(found), rest))
}

/// `ActorInstanceMapping` path `->` thread, and nested mappings in braces
#[tactic(auto, unfolding(crate::specs::Mappings::mapping_at))]
pub fn mapping<'a>(alloc: Global, rest: Rest<'a>) -> Result<(Mapping, Rest<'a>), ReadFault>
    ensures { Gives (λ x. (mapping_view x.0, left x.1)) result (mapping_at (left rest.entry)) }
{
    let ((path, thread), rest) = head(alloc, rest)?;
    let (nested, rest) = nested_if(alloc, rest)?;
    Ok((
        Mapping {
            path,
            thread,
            nested,
        },
        rest,
    ))
}
