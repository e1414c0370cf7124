//! Code as it is written.
ghost use Rattle.std.specs.Prelude.{◌≡◌};
ghost use Rattle.room_tokens.specs.Reader.{Gives, optional};
ghost use Rattle.room_tokens.specs.Single.{left, comes_word as comes_word_at, before_close as before_close_at};
ghost use Rattle.room_parser.specs.chart_parser.Codes.{code_text_at, code_at, word_code_at};

use room_ast::{Code, CodeText};
use room_lexer::{Mark, Word};
use room_tokens::{
    Part, ReadFault, Rest, before_close, block, braces, comes, comes_string, comes_word, string,
    take_word,
};
use std::alloc::Global;

/// A STRING or a BLOCK.
#[tactic(auto, unfolding(crate::specs::chart_parser::Codes::code_text_at))]
fn code_text<'a>(alloc: Global, rest: Rest<'a>) -> Result<(CodeText, Rest<'a>), ReadFault>
    ensures { Gives (λ x. (x.0, left x.1)) result (code_text_at (left rest.entry)) }
{
    if comes_string(rest) {
        let (text, rest) = string(alloc, rest)?;
        return Ok((CodeText::Str(text), rest));
    }
    let (text, rest) = block(alloc, rest)?;
    Ok((CodeText::Block(text), rest))
}

/// A text of code in braces.
struct CodeTexts;

impl Part for CodeTexts {
    type Item = CodeText;

    ghost goes_on = { before_close_at };

    ghost reads = { code_text_at };

    fn comes(rest: Rest) -> bool {
        before_close(rest)
    }

    fn read<'a>(alloc: Global, rest: Rest<'a>) -> Result<(CodeText, Rest<'a>), ReadFault> {
        code_text(alloc, rest)
    }
}

/// Texts in braces, or one text without braces.
#[tactic(auto, unfolding(crate::specs::chart_parser::Codes::code_at))]
fn code<'a>(alloc: Global, rest: Rest<'a>) -> Result<(Code, Rest<'a>), ReadFault>
    ensures { Gives (λ x. (x.0, left x.1)) result (code_at (left rest.entry)) }
{
    if comes(rest, Mark::OpenBrace) {
        let (texts, rest) = braces::<CodeTexts>(alloc, rest)?;
        return Ok((Code::Texts(texts), rest));
    }
    let (text, rest) = code_text(alloc, rest)?;
    Ok((Code::Single(text), rest))
}

/// A word and code
#[tactic(auto, unfolding(crate::specs::chart_parser::Codes::word_code_at))]
pub fn word_code<'a>(
    alloc: Global,
    rest: Rest<'a>,
    word: Word,
) -> Result<(Code, Rest<'a>), ReadFault>
    ensures { Gives (λ x. (x.0, left x.1)) result (word_code_at word (left rest.entry)) }
{
    let rest = take_word(rest, word)?;
    code(alloc, rest)
}

/// A word and code, if the word comes.
#[tactic(auto, unfolding(room_tokens::specs::Reader::optional))]
pub fn code_if<'a>(
    alloc: Global,
    rest: Rest<'a>,
    word: Word,
) -> Result<(Option<Code>, Rest<'a>), ReadFault>
    ensures { Gives (λ x. (x.0, left x.1)) result
        (optional (comes_word_at word) (word_code_at word) (left rest.entry)) }
{
    if !comes_word(rest, word) {
        return Ok((None, rest));
    }
    let (found, rest) = word_code(alloc, rest, word)?;
    Ok((Some(found), rest))
}
