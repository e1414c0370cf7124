//! Initial values, attributes and usercode.
ghost use Rattle.std.specs.Prelude.{◌≡◌};
ghost use Rattle.room_tokens.specs.Reader.{Gives, optional};
ghost use Rattle.room_tokens.specs.Single.{left, comes as comes_at, before_close as before_close_at, value_of};
ghost use Rattle.room_lexer.specs.declared.token.Mark.TheVariants as marks;
ghost use Rattle.structure_parser.specs.value_parser.Values.{value_of_string, value_at, equals_value_at, attribute_at, section_of, section_at, usercode_comes, empty_string_at, usercode_at};

use room_ast::{Attribute, EmptyString, PlainValue, Usercode, UsercodeSection, Value};
use room_lexer::{Mark, Token, TokenKind, Word};
use room_tokens::{
    Part, ReadFault, Rest, before_close, braces, comes, next, number, place, skip, spelled, string,
    string_contents, take_mark, take_word, text, word_here,
};
use std::alloc::Global;

/// The value that a STRING spells. The string is at fault where it spells none.
fn quoted(alloc: Global, bytes: &[u8], token: Token) -> Result<Value, ReadFault>
    requires { token.kind ≡ TokenKind.Str }
    ensures { Gives (λ v. v) result (value_of_string (value_of bytes.now token)) }
{
    let text = string_contents(alloc, text(bytes, token))?;
    match spelled(alloc, text.as_bytes())? {
        Some(value) => Ok(Value::Quoted { text, value }),
        None => Err(ReadFault::Syntax(token.start)),
    }
}

#[tactic(auto, unfolding(crate::specs::value_parser::Values::value_at))]
fn value<'a>(alloc: Global, rest: Rest<'a>) -> Result<(Value, Rest<'a>), ReadFault>
    ensures { Gives (λ x. (x.0, left x.1)) result (value_at (left rest.entry)) }
{
    let Some((token, others)) = next(rest) else {
        return Err(ReadFault::Syntax(place(rest)));
    };
    match token.kind {
        TokenKind::Number(n) => Ok((Value::Plain(PlainValue::Number(n)), others)),
        TokenKind::Mark(Mark::Minus) => {
            let (n, rest) = number(others)?;
            Ok((Value::Plain(PlainValue::Negative(n)), rest))
        }
        TokenKind::Ident(Some(Word::True)) => Ok((Value::Plain(PlainValue::True), others)),
        TokenKind::Ident(Some(Word::False)) => Ok((Value::Plain(PlainValue::False), others)),
        TokenKind::Str => Ok((quoted(alloc, rest.bytes, token)?, others)),
        _ => Err(ReadFault::Syntax(place(rest))),
    }
}

/// `=` value, if it comes
#[tactic(auto, unfolding(crate::specs::value_parser::Values::equals_value_at, room_tokens::specs::Reader::optional))]
fn value_if<'a>(alloc: Global, rest: Rest<'a>) -> Result<(Option<Value>, Rest<'a>), ReadFault>
    ensures { Gives (λ x. (x.0, left x.1)) result
        (optional (comes_at marks.Equals) equals_value_at (left rest.entry)) }
{
    if !comes(rest, Mark::Equals) {
        return Ok((None, rest));
    }
    let rest = take_mark(rest, Mark::Equals)?;
    let (found, rest) = value(alloc, rest)?;
    Ok((Some(found), rest))
}

/// `Attribute` name `:` type, and `=` value
#[tactic(auto, unfolding(crate::specs::value_parser::Values::attribute_at))]
pub fn attribute<'a>(alloc: Global, rest: Rest<'a>) -> Result<(Attribute, Rest<'a>), ReadFault>
    ensures { Gives (λ x. (x.0, left x.1)) result (attribute_at (left rest.entry)) }
{
    let rest = take_word(rest, Word::Attribute)?;
    let (name, rest) = room_tokens::name(alloc, rest)?;
    let rest = take_mark(rest, Mark::Colon)?;
    let (type_name, rest) = room_tokens::name(alloc, rest)?;
    let (value, rest) = value_if(alloc, rest)?;
    Ok((
        Attribute {
            name,
            type_name,
            value,
        },
        rest,
    ))
}

/// The section of usercode that a word begins.
fn section_of(word: Option<Word>) -> Option<UsercodeSection>
    ensures { result ≡ section_of word }
{
    match word {
        Some(Word::Usercode) => Some(UsercodeSection::Plain),
        Some(Word::Usercode1) => Some(UsercodeSection::First),
        Some(Word::Usercode2) => Some(UsercodeSection::Second),
        Some(Word::Usercode3) => Some(UsercodeSection::Third),
        _ => None,
    }
}

/// Whether usercode comes.
#[tactic(auto, unfolding(crate::specs::value_parser::Values::usercode_comes))]
pub fn usercode_comes(rest: Rest) -> bool
    ensures { result ≡ usercode_comes (left rest.entry) }
{
    section_of(word_here(rest)).is_some()
}

#[tactic(auto, unfolding(crate::specs::value_parser::Values::section_at))]
fn section<'a>(rest: Rest<'a>) -> Result<(UsercodeSection, Rest<'a>), ReadFault>
    ensures { Gives (λ x. (x.0, left x.1)) result (section_at (left rest.entry)) }
{
    match section_of(word_here(rest)) {
        Some(section) => Ok((section, skip(rest))),
        None => Err(ReadFault::Syntax(place(rest))),
    }
}

/// A STRING without contents. Another string is at fault.
#[tactic(auto, unfolding(crate::specs::value_parser::Values::empty_string_at))]
fn empty_string<'a>(alloc: Global, rest: Rest<'a>) -> Result<(EmptyString, Rest<'a>), ReadFault>
    ensures { Gives (λ x. (x.0, left x.1)) result (empty_string_at (left rest.entry)) }
{
    let (text, others) = string(alloc, rest)?;
    match text.as_bytes() {
        [] => Ok((EmptyString, others)),
        [_, ..] => Err(ReadFault::Syntax(place(rest))),
    }
}

/// A STRING of usercode.
struct EmptyStrings;

impl Part for EmptyStrings {
    type Item = EmptyString;

    ghost goes_on = { before_close_at };

    ghost reads = { empty_string_at };

    fn comes(rest: Rest) -> bool {
        before_close(rest)
    }

    fn read<'a>(alloc: Global, rest: Rest<'a>) -> Result<(EmptyString, Rest<'a>), ReadFault> {
        empty_string(alloc, rest)
    }
}

/// `usercode`, `usercode1`, `usercode2` or `usercode3`, and empty strings in braces
#[tactic(auto, unfolding(crate::specs::value_parser::Values::usercode_at))]
pub fn usercode<'a>(alloc: Global, rest: Rest<'a>) -> Result<(Usercode, Rest<'a>), ReadFault>
    ensures { Gives (λ x. (x.0, left x.1)) result (usercode_at (left rest.entry)) }
{
    let (section, rest) = self::section(rest)?;
    let (strings, rest) = braces::<EmptyStrings>(alloc, rest)?;
    Ok((Usercode { section, strings }, rest))
}
