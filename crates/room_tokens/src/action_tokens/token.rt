//! Tokens of the action language.
ghost use Rattle.std.specs.Prelude.{◌≡◌, ◌++◌, ◌∷◌, [], OnOk, Some, map, option_map};
ghost use Rattle.room_lexer.specs.Cutting.{tokens_of};
ghost use Rattle.room_tokens.specs.Reader.{Gives};
ghost use Rattle.room_tokens.specs.Single.{text_of};
ghost use Rattle.room_tokens.specs.action_tokens.Single.{span_of, comes as comes_at, comes_word as comes_word_at, name_at as name_of, number_at as number_of, no_mark as mark_at_end, no_word as word_at_end, no_name as name_at_end, no_number as number_at_end};
ghost use Rattle.room_tokens.specs.action_tokens.Values.{Value, value_of, values_of, action_values, token_value};

use crate::action_tokens::word::{ActionWord, same_word, word_of};
use crate::lexeme::Lexeme;
use crate::model_token::same_mark;
use crate::{ReadFault, text};
use room_lexer::{Kind, Mark, Token, TokenKind, next_piece};
use std::alloc::{AllocError, Global};

/// The last byte at which a token can begin or end.
const LAST_BYTE: usize = 0xffff_ffff;

/// For how many tokens more than a half of them there is room when a list grows.
const FEW_TOKENS: usize = 16;

/// A token, with the byte at which it begins.
#[derive(Clone, Copy, PartialEq, Eq)]
pub enum ActionToken {
    Word(u32, ActionWord),
    /// An identifier that is no word of the action language and isn't reserved: the bytes up to
    /// `end`.
    Name { start: u32, end: u32 },
    Number(u32, u64),
    Mark(u32, Mark),
}

/// An action has a token for each byte at most, so its tokens take room in proportion to its text.
const _: () = prove!(size_of::<ActionToken>() <= 16);

/// What is left to read of an action.
pub type Rest<'a> = crate::Rest<'a, ActionToken>;

impl Lexeme for ActionToken {
    type Word = ActionWord;

    ghost Value = { Value };

    ghost value = { token_value };

    ghost span = { span_of };

    ghost comes = { comes_at };

    ghost comes_word = { comes_word_at };

    ghost name_at = { name_of };

    ghost number_at = { number_of };

    fn span(self) -> (usize, usize) {
        match self {
            ActionToken::Name { start, end } => (start as usize, end as usize),
            ActionToken::Word(start, _)
            | ActionToken::Number(start, _)
            | ActionToken::Mark(start, _) => (start as usize, start as usize),
        }
    }

    #[tactic(auto, unfolding(crate::specs::action_tokens::Single::comes))]
    fn is_mark(self, mark: Mark) -> bool {
        match self {
            ActionToken::Mark(_, other) => same_mark(mark, other),
            _ => false,
        }
    }

    #[tactic(auto, unfolding(crate::specs::action_tokens::Single::comes_word))]
    fn is_word(self, word: ActionWord) -> bool {
        match self {
            ActionToken::Word(_, other) => same_word(word, other),
            _ => false,
        }
    }

    #[tactic(auto, unfolding(crate::specs::action_tokens::Single::name_at))]
    fn is_name(self) -> bool {
        match self {
            ActionToken::Name { .. } => true,
            _ => false,
        }
    }

    #[tactic(auto, unfolding(crate::specs::action_tokens::Single::number_at))]
    fn number(self) -> Option<u64> {
        match self {
            ActionToken::Number(_, n) => Some(n),
            _ => None,
        }
    }

    ghost no_mark = { mark_at_end };

    ghost no_word = { word_at_end };

    ghost no_name = { name_at_end };

    ghost no_number = { number_at_end };
}

/// A byte's number in 32 bits. One that has more is refused as want of memory.
fn byte_of(at: usize) -> Result<u32, ReadFault>
    ensures { Gives (λ n. n) result (Some at) }
{
    if at > LAST_BYTE {
        return Err(ReadFault::Memory);
    }
    Ok(at as u32)
}

/// The token of the action language that a token of the model language is, if it is one.
fn token(bytes: &[u8], token: Token) -> Result<ActionToken, ReadFault>
    ensures { Gives (token_value bytes.now) result (value_of bytes.now token) }
{
    let start = byte_of(token.start)?;
    match token.kind {
        TokenKind::Ident(reserved) => match (word_of(text(bytes, token)), reserved) {
            (Some(word), _) => Ok(ActionToken::Word(start, word)),
            (None, None) => {
                let end = byte_of(token.end)?;
                Ok(ActionToken::Name { start, end })
            }
            (None, Some(_)) => Err(ReadFault::Syntax(token.start)),
        },
        TokenKind::Number(n) => Ok(ActionToken::Number(start, n)),
        TokenKind::Mark(mark) => Ok(ActionToken::Mark(start, mark)),
        TokenKind::Str | TokenKind::Block => Err(ReadFault::Syntax(token.start)),
    }
}

/// Adds a token. Lists grow by a half, so that tokens take less room than twice that of those that
/// are there.
fn push(found: &mut Vec<ActionToken>, one: ActionToken) -> Result<(), AllocError>
    ensures { OnOk result (found.new.items ≡ found.old.items ++ one ∷ []) }
{
    if found.len() == found.capacity() {
        found.reserve_exact(found.len() / 2 + FEW_TOKENS)?;
    }
    found.push(one)?;
    Ok(())
}

/// Adds the token of a piece, if it is one.
fn add(
    bytes: &[u8],
    found: &mut Vec<ActionToken>,
    kind: Kind,
    start: usize,
    end: usize,
) -> Result<(), ReadFault>
    ensures { Gives (λ x. map (token_value bytes.now) found.new.items) result
        (option_map (λ vs. map (token_value bytes.now) found.old.items ++ vs)
        (values_of bytes.now (tokens_of kind start end))) }
{
    if let Kind::Token(kind) = kind {
        let one = token(bytes, Token { kind, start, end })?;
        push(found, one)?;
    }
    Ok(())
}

/// The tokens of a text. `Syntax` is a fault of the lexer, or a token that the action language
/// doesn't have.
pub fn action_tokens(alloc: Global, bytes: &[u8]) -> Result<Vec<ActionToken>, ReadFault>
    ensures { Gives (λ v. map (token_value bytes.now) v.items) result (action_values bytes.now) }
{
    let mut found = Vec::new(alloc);
    let mut at = 0;
    let mut rest = bytes;
    while !rest.is_empty() {
        let (kind, len) = match next_piece(rest) {
            Ok(found) => found,
            Err(_) => return Err(ReadFault::Syntax(at)),
        };
        add(bytes, &mut found, kind, at, at + len)?;
        let (_, after) = rest.split_at(len);
        rest = after;
        at += len;
    }
    found.shrink_to_fit();
    Ok(found)
}
