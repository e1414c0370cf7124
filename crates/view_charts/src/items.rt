//! The parts of a model's text that can be taken away: declarations, sections, the lines of a code.
use room_lexer::{Mark, Token, TokenKind, Word};
use std::alloc::{AllocError, Global};

/// A part of a text as its tokens: the number of the first, and the one behind the last.
#[derive(Clone, Copy, PartialEq, Eq)]
pub struct Item {
    pub first: usize,
    pub end: usize,
}

/// Whether a token is this mark.
pub fn is_mark(token: &Token, mark: Mark) -> bool {
    token.kind == TokenKind::Mark(mark)
}

/// Whether a word begins no part of its own: it stands inside a declaration.
fn stands_inside(word: Word) -> bool {
    matches!(
        word,
        Word::RoomModel
            | Word::From
            | Word::True
            | Word::False
            | Word::Of
            | Word::And
            | Word::Ref
            | Word::SatisfiedBy
            | Word::Or
            | Word::Guard
            | Word::Initial
            | Word::Cp
            | Word::My
            | Word::Extends
    )
}

/// Whether the word behind this one belongs to the same declaration, as `Port` behind `conjugated`.
fn qualifies(kind: Option<TokenKind>) -> bool {
    matches!(
        kind,
        Some(TokenKind::Ident(Some(
            Word::EventDriven
                | Word::Conjugated
                | Word::External
                | Word::Fixed
                | Word::Optional
                | Word::Imported
        )))
    )
}

fn is_text(kind: TokenKind) -> bool {
    matches!(kind, TokenKind::Str | TokenKind::Block)
}

/// Whether a part begins with a token that stands behind this one; `None` stands before the first of a body.
fn begins_item(before: Option<TokenKind>, kind: TokenKind) -> bool {
    match kind {
        TokenKind::Ident(Some(word)) => !stands_inside(word) && !qualifies(before),
        TokenKind::Str | TokenKind::Block => match before {
            Some(other) => is_text(other),
            None => true,
        },
        TokenKind::Ident(None) | TokenKind::Number(_) | TokenKind::Mark(_) => false,
    }
}

/// How many braces are open behind a token.
fn depth_behind(depth: usize, kind: TokenKind) -> usize {
    match kind {
        TokenKind::Mark(Mark::OpenBrace) => depth.saturating_add(1),
        TokenKind::Mark(Mark::CloseBrace) => depth.saturating_sub(1),
        _ => depth,
    }
}

/// The tokens of a part.
pub fn tokens_of(tokens: &[Token], item: Item) -> &[Token] {
    tokens.get(item.first..item.end).unwrap_or(&[])
}

/// The parts of a body, in order.
pub(crate) fn items_in(
    alloc: Global,
    tokens: &[Token],
    body: Item,
) -> Result<Vec<Item>, AllocError> {
    let mut items = Vec::new(alloc);
    let mut first: Option<usize> = None;
    let mut before: Option<TokenKind> = None;
    let mut depth = 0;
    let mut at = body.first;
    for token in tokens_of(tokens, body) {
        if depth == 0 && begins_item(before, token.kind) {
            if let Some(first) = first {
                items.push(Item { first, end: at })?;
            }
            first = Some(at);
        }
        depth = depth_behind(depth, token.kind);
        before = Some(token.kind);
        at = at.saturating_add(1);
    }
    if let Some(first) = first {
        items.push(Item { first, end: at })?;
    }
    Ok(items)
}

/// What stands in the braces of a part, if it ends with braces.
pub(crate) fn body_of(tokens: &[Token], item: Item) -> Option<Item> {
    let inside = tokens_of(tokens, item);
    let open = inside
        .iter()
        .position(|token| token.kind == TokenKind::Mark(Mark::OpenBrace))?;
    let last = inside.last()?;
    if last.kind != TokenKind::Mark(Mark::CloseBrace) {
        return None;
    }
    let first = item.first.saturating_add(open).saturating_add(1);
    let end = item.end.saturating_sub(1);
    Some(Item { first, end })
}

/// The parts inside a part.
pub fn parts_of(alloc: Global, tokens: &[Token], item: Item) -> Result<Vec<Item>, AllocError> {
    match body_of(tokens, item) {
        Some(body) => items_in(alloc, tokens, body),
        None => Ok(Vec::new(alloc)),
    }
}

/// The bytes of the head of a part: up to its first brace, or whole. The first, and the one behind the last.
pub fn head_of(tokens: &[Token], item: Item) -> (usize, usize) {
    let [first, rest @ ..] = tokens_of(tokens, item) else {
        return (0, 0);
    };
    let mut end = first.end;
    for token in rest {
        if token.kind == TokenKind::Mark(Mark::OpenBrace) {
            break;
        }
        end = token.end;
    }
    (first.start, end)
}
