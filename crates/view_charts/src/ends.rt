//! Where transitions begin and lead to.
use crate::chart::Part;
use crate::source::Source;
use room_lexer::{Mark, Token, TokenKind, Word};

/// The tokens between `:` and `->`, and those between `->` and the body, of a transition.
#[derive(Clone, Copy)]
pub struct Ends<'a> {
    pub source: &'a [Token],
    pub target: &'a [Token],
}

fn position_of(tokens: &[Token], mark: Mark) -> Option<usize> {
    tokens
        .iter()
        .position(|token| token.kind == TokenKind::Mark(mark))
}

/// The tokens in front of the body of a part.
fn before_body(tokens: &[Token]) -> &[Token] {
    match position_of(tokens, Mark::OpenBrace) {
        Some(brace) => tokens.get(..brace).unwrap_or(tokens),
        None => tokens,
    }
}

/// Where a transition begins and leads to, if it has an arrow.
pub fn ends_of<'a>(source: Source<'a>, arrow: Part) -> Option<Ends<'a>> {
    let head = before_body(source.tokens_of(arrow.item));
    let colon = position_of(head, Mark::Colon)?;
    let mark = position_of(head, Mark::Arrow)?;
    Some(Ends {
        source: head.get(colon.saturating_add(1)..mark)?,
        target: head.get(mark.saturating_add(1)..)?,
    })
}

/// Whether a token is a word of the language.
pub fn is_word(token: &Token, word: Word) -> bool {
    token.kind == TokenKind::Ident(Some(word))
}
