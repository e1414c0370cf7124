//! What could have stood where a text stops being a model.
use room_lexer::{LexFault, Token, TokenKind, lex, spelling, words_with};
use room_parser::{ParseFault, parse};
use std::alloc::{AllocError, Global};

/// Where a text stops being a model.
#[derive(Drop)]
pub struct Unread {
    /// The number of the first token with which no model goes on; that of the tokens where it lies at the end.
    pub token: usize,
    /// What could stand there, each as it is written.
    pub could_stand: Vec<&'static [u8]>,
}

/// All that a token may be but a reserved word: an example of each kind, and the marks.
static OTHERS: &[u8] = b"name 0 \"\" { } ( ) [ ] < > : , . * - = | / ->";

/// The letters of the longest reserved word.
const LONGEST: usize = 21;

/// Adds a token on a line of its own.
fn add_line(lines: &mut Vec<u8>, token: &[u8]) -> Result<(), AllocError> {
    lines.extend_from_slice(token)?;
    Ok(lines.push(b'\n')?)
}

/// What stands for a token where it stands alone on a line: a block may go over several.
fn on_a_line<'a>(text: &'a [u8], token: &Token) -> &'a [u8] {
    match token.kind {
        TokenKind::Block => b"''''''",
        _ => text.get(token.start..token.end).unwrap_or(b""),
    }
}

/// The first tokens of a text, a line each.
fn lines_of(alloc: Global, text: &[u8], tokens: &[Token]) -> Result<Vec<u8>, AllocError> {
    let mut lines = Vec::new(alloc);
    for token in tokens {
        add_line(&mut lines, on_a_line(text, token))?;
    }
    Ok(lines)
}

/// The line at which lines stop being a model, from 1, if they do.
fn stops_at(alloc: Global, lines: &[u8]) -> Result<Option<usize>, AllocError> {
    let tokens = match lex(alloc, lines) {
        Ok(tokens) => tokens,
        Err(LexFault::Memory) => return Err(AllocError),
        Err(_) => return Ok(Some(1)),
    };
    match parse(alloc, lines, tokens.as_slice()) {
        Ok(_) => Ok(None),
        Err(ParseFault::Syntax { line }) => Ok(Some(line as usize)),
        Err(ParseFault::Memory) => Err(AllocError),
    }
}

/// Whether a token can stand behind these lines.
fn can_stand(alloc: Global, before: &[u8], count: usize, token: &[u8]) -> Result<bool, AllocError> {
    let mut lines = Vec::with_capacity(alloc, before.len())?;
    lines.extend_from_slice(before)?;
    add_line(&mut lines, token)?;
    match stops_at(alloc, lines.as_slice())? {
        Some(line) => Ok(line > count.saturating_add(1)),
        None => Ok(true),
    }
}

/// What can stand behind the lines of so many tokens.
fn all_that_can(
    alloc: Global,
    before: &[u8],
    count: usize,
) -> Result<Vec<&'static [u8]>, AllocError> {
    let mut could_stand = Vec::new(alloc);
    for other in OTHERS.split(|b| *b == b' ') {
        if can_stand(alloc, before, count, other)? {
            could_stand.push(other)?;
        }
    }
    for len in 0..=LONGEST {
        for word in words_with(len) {
            if can_stand(alloc, before, count, spelling(*word))? {
                could_stand.push(spelling(*word))?;
            }
        }
    }
    Ok(could_stand)
}

/// The token at which the tokens of a text stop being a model; none where a model has them.
fn token_where_stops(
    alloc: Global,
    text: &[u8],
    tokens: &[Token],
) -> Result<Option<usize>, AllocError> {
    let lines = lines_of(alloc, text, tokens)?;
    match stops_at(alloc, lines.as_slice())? {
        Some(line) => Ok(Some(line.saturating_sub(1).min(tokens.len()))),
        None => Ok(None),
    }
}

/// Where the tokens of a text stop being a model, and what could have stood there; none where a model has them.
pub fn could_stand(
    alloc: Global,
    text: &[u8],
    tokens: &[Token],
) -> Result<Option<Unread>, AllocError> {
    let Some(token) = token_where_stops(alloc, text, tokens)? else {
        return Ok(None);
    };
    let before = lines_of(alloc, text, tokens.get(..token).unwrap_or(&[]))?;
    let could_stand = all_that_can(alloc, before.as_slice(), token)?;
    Ok(Some(Unread { token, could_stand }))
}
