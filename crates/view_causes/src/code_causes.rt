//! Which fault a code has that a class refuses, and where in it.
use crate::cause::{Cause, cause_with};
use crate::charts::{MOST_CAUSES, Suspect};
use crate::misread::word_meaning;
use crate::name_causes::name_cause;
use action_lang::{ActionFault, ServiceNames, check_action, check_cond, parse_action, parse_cond};
use room_ast::Scope;
use room_lexer::{Mark, Token, TokenKind, Word};
use std::alloc::{AllocError, Global};
use view_charts::{Code, Item, Part, Source};

/// What a fault of a code is.
fn meaning_of(fault: ActionFault, is_condition: bool) -> &'static str {
    match fault {
        ActionFault::Syntax if is_condition => {
            "this is no condition: one value, without a semicolon and without `=` alone"
        }
        ActionFault::Syntax => "this is no statement, or the semicolon at its end is missing",
        ActionFault::UnknownName => {
            "it names an attribute, port or reference that the class hasn't, or one of another kind"
        }
        ActionFault::WrongPort => {
            "the message doesn't go out at this port, or the actor doesn't work at it, or the port takes no name"
        }
        ActionFault::WrongArgs => "it sends another number of values than the message has numbers",
        ActionFault::NestTooDeep => "it nests or repeats beyond the limits",
        ActionFault::Memory => "there was no memory for it",
    }
}

/// Asks whether codes are those of a class.
#[derive(Clone, Copy)]
struct Judge<'a> {
    source: Source<'a>,
    scope: &'a Scope,
    suspect: &'a Suspect<'a>,
    is_condition: bool,
}

/// The most tokens of a statement at which something else is tried.
const MOST_TRIED: usize = 60;

/// How many bytes are read in these trials, but of two tokens at least.
const MOST_READ: usize = 2 << 20;

/// At how many tokens of a statement of so many bytes something else is tried.
fn tried(len: usize) -> usize {
    (MOST_READ / len.max(1)).clamp(2, MOST_TRIED)
}

impl<'a> Judge<'a> {
    fn action_fault(&self, text: &[u8]) -> Result<(), ActionFault> {
        let program = parse_action(self.source.alloc, text)?;
        let mut names = ServiceNames::new(self.source.alloc);
        check_action(self.source.alloc, &program, self.scope, &mut names)?;
        Ok(())
    }

    fn condition_fault(&self, text: &[u8]) -> Result<(), ActionFault> {
        let condition = parse_cond(self.source.alloc, text)?;
        check_cond(self.source.alloc, &condition, self.scope)?;
        Ok(())
    }

    /// The fault of a text, if it has one.
    fn fault(&self, text: &[u8]) -> Result<Option<ActionFault>, AllocError> {
        let judged = if self.is_condition {
            self.condition_fault(text)
        } else {
            self.action_fault(text)
        };
        match judged {
            Ok(()) => Ok(None),
            Err(ActionFault::Memory) => Err(AllocError),
            Err(fault) => Ok(Some(fault)),
        }
    }

    /// The fault of the first statements of a code, which end behind a byte.
    fn fault_up_to(&self, code: &Code, end: usize) -> Result<Option<ActionFault>, AllocError> {
        self.fault(code.text().get(..end).unwrap_or(&[]))
    }
}

/// How deep a token lies behind another one in braces and parentheses.
fn depth_behind(depth: usize, token: &Token) -> usize {
    match token.kind {
        TokenKind::Mark(Mark::OpenBrace | Mark::OpenParen) => depth.saturating_add(1),
        TokenKind::Mark(Mark::CloseBrace | Mark::CloseParen) => depth.saturating_sub(1),
        _ => depth,
    }
}

/// The word behind which a statement goes on that a block would end.
const GOES_ON: &[u8] = b"else";

/// Whether a statement ends with a token in front of these, which lies outside of all braces.
fn ends_statement(code: &Code, token: &Token, behind: &[Token]) -> bool {
    match token.kind {
        TokenKind::Mark(Mark::Semicolon) => true,
        TokenKind::Mark(Mark::CloseBrace) => match behind {
            [next, ..] => code.bytes(next) != GOES_ON,
            [] => true,
        },
        _ => false,
    }
}

/// The numbers of the tokens with which statements of a code end, and at last of its last token.
fn ends_of_statements(alloc: Global, code: &Code) -> Result<Vec<usize>, AllocError> {
    let tokens = code.tokens();
    let mut ends = Vec::new(alloc);
    let mut depth = 0usize;
    for (at, token) in tokens.iter().enumerate() {
        depth = depth_behind(depth, token);
        let behind = tokens.get(at.saturating_add(1)..).unwrap_or(&[]);
        let is_last = behind.is_empty();
        if is_last || (depth == 0 && ends_statement(code, token, behind)) {
            ends.push(at)?;
        }
    }
    Ok(ends)
}

/// The byte of a code behind a token of a number.
fn byte_behind(code: &Code, token: usize) -> usize {
    match code.tokens().get(token) {
        Some(token) => token.end,
        None => code.text().len(),
    }
}

/// The first end of statements up to which a code is faulty: the one before is the last up to which it isn't. A code
/// that is faulty up to an end is so up to each later one.
fn first_faulty(judge: &Judge<'_>, code: &Code, ends: &[usize]) -> Result<usize, AllocError> {
    let mut low = 0usize;
    let mut high = ends.len().saturating_sub(1);
    for _half in 0..64u32 {
        if low >= high {
            break;
        }
        let middle = low.saturating_add((high - low) / 2);
        let end = byte_behind(code, ends.get(middle).copied().unwrap_or(0));
        if judge.fault_up_to(code, end)?.is_some() {
            high = middle;
        } else {
            low = middle.saturating_add(1);
        }
    }
    Ok(low)
}

/// The tokens of the statement that ends with the end of a number among those of statements.
fn statement_at<'a>(code: &'a Code, ends: &[usize], number: usize) -> &'a [Token] {
    let first = match number.checked_sub(1) {
        Some(before) => ends.get(before).copied().unwrap_or(0).saturating_add(1),
        None => 0,
    };
    let last = ends.get(number).copied().unwrap_or(0);
    code.tokens()
        .get(first..last.saturating_add(1))
        .unwrap_or(&[])
}

/// The first statement up to which a faulty code is so; of a condition the whole.
fn faulty_statement<'a>(judge: &Judge<'_>, code: &'a Code) -> Result<&'a [Token], AllocError> {
    if judge.is_condition {
        return Ok(code.tokens());
    }
    let ends = ends_of_statements(judge.source.alloc, code)?;
    if ends.is_empty() {
        return Ok(code.tokens());
    }
    let number = first_faulty(judge, code, ends.as_slice())?;
    Ok(statement_at(code, ends.as_slice(), number))
}

/// The text of a statement, from the first of its tokens to the last.
fn text_of<'a>(code: &'a Code, statement: &[Token]) -> &'a [u8] {
    match (statement.first(), statement.last()) {
        (Some(first), Some(last)) => code.text().get(first.start..last.end).unwrap_or(&[]),
        _ => &[],
    }
}

/// Where a statement begins in its code.
fn start_of(statement: &[Token]) -> usize {
    match statement.first() {
        Some(first) => first.start,
        None => 0,
    }
}

/// The text of a statement with a name in place of each token that is this word.
fn renamed(
    alloc: Global,
    code: &Code,
    statement: &[Token],
    word: &[u8],
) -> Result<Vec<u8>, AllocError> {
    let mut text = Vec::from_slice(alloc, text_of(code, statement))?;
    let start = start_of(statement);
    for token in statement {
        if code.bytes(token) != word {
            continue;
        }
        let place = token.start.saturating_sub(start)..token.end.saturating_sub(start);
        if let Some(part) = text.as_mut_slice().get_mut(place) {
            for byte in part.iter_mut() {
                *byte = b'x';
            }
        }
    }
    Ok(text)
}

/// The word in a statement that stands where a name is wanted: with a name in its place it would be a statement.
fn word_cause(
    judge: &Judge<'_>,
    code: &Code,
    statement: &[Token],
) -> Result<Option<Cause>, AllocError> {
    let alloc = judge.source.alloc;
    let most = tried(text_of(code, statement).len());
    for token in statement.iter().take(most) {
        let word = code.bytes(token);
        let Some(what) = word_meaning(token, word) else {
            continue;
        };
        let text = renamed(alloc, code, statement, word)?;
        if judge.fault(text.as_slice())? != Some(ActionFault::Syntax) {
            let found = cause_with(alloc, code.span(token, token), &[b"`", word, b"` ", what])?;
            return Ok(Some(found));
        }
    }
    Ok(None)
}

/// The token of a statement behind which a semicolon is missing: with one there it would be one, or several.
fn open_end<'t>(
    judge: &Judge<'_>,
    code: &Code,
    statement: &'t [Token],
) -> Result<Option<&'t Token>, AllocError> {
    let text = text_of(code, statement);
    let start = start_of(statement);
    for token in statement.iter().take(tried(text.len())) {
        let end = token.end.saturating_sub(start);
        let mut closed = Vec::from_slice(judge.source.alloc, text.get(..end).unwrap_or(&[]))?;
        closed.push(b';')?;
        closed.extend_from_slice(text.get(end..).unwrap_or(&[]))?;
        if judge.fault(closed.as_slice())? != Some(ActionFault::Syntax) {
            return Ok(Some(token));
        }
    }
    Ok(None)
}

/// What is wrong with a statement that is none.
fn syntax_cause(
    judge: &Judge<'_>,
    code: &Code,
    statement: &[Token],
) -> Result<Option<Cause>, AllocError> {
    let found = word_cause(judge, code, statement)?;
    if found.is_some() {
        return Ok(found);
    }
    let Some(first) = statement.first() else {
        return Ok(None);
    };
    match open_end(judge, code, statement)? {
        Some(last) => Ok(Some(cause_with(
            judge.source.alloc,
            code.span(first, last),
            &[b"the semicolon at the end of this statement is missing"],
        )?)),
        None => Ok(None),
    }
}

/// What is wrong with a condition that is none.
fn condition_cause(judge: &Judge<'_>, code: &Code) -> Result<Option<Cause>, AllocError> {
    let found = word_cause(judge, code, code.tokens())?;
    if found.is_some() {
        return Ok(found);
    }
    for token in code.tokens() {
        let what: &[u8] = match token.kind {
            TokenKind::Mark(Mark::Equals) => b"a condition compares, by `==`, and assigns nothing",
            TokenKind::Mark(Mark::Semicolon) => b"a condition is one value, without a semicolon",
            _ => continue,
        };
        let found = cause_with(judge.source.alloc, code.span(token, token), &[what])?;
        return Ok(Some(found));
    }
    Ok(None)
}

/// What the tokens of a statement with a fault show of it.
fn seen_cause(
    judge: &Judge<'_>,
    code: &Code,
    fault: ActionFault,
    statement: &[Token],
) -> Result<Option<Cause>, AllocError> {
    match fault {
        ActionFault::Syntax if judge.is_condition => condition_cause(judge, code),
        ActionFault::Syntax => syntax_cause(judge, code, statement),
        ActionFault::UnknownName | ActionFault::WrongPort | ActionFault::WrongArgs => {
            name_cause(judge.suspect, code, statement)
        }
        ActionFault::NestTooDeep | ActionFault::Memory => Ok(None),
    }
}

/// What is wrong with a code that has a fault, at a statement of it.
fn cause_at(
    judge: &Judge<'_>,
    code: &Code,
    whole: ActionFault,
    statement: &[Token],
) -> Result<Option<Cause>, AllocError> {
    let (Some(first), Some(last)) = (statement.first(), statement.last()) else {
        return Ok(None);
    };
    let fault = judge.fault_up_to(code, last.end)?.unwrap_or(whole);
    let seen = seen_cause(judge, code, fault, statement)?;
    if seen.is_some() {
        return Ok(seen);
    }
    Ok(Some(cause_with(
        judge.source.alloc,
        code.span(first, last),
        &[meaning_of(fault, judge.is_condition).as_bytes()],
    )?))
}

/// Whether a byte says nothing between tokens.
fn is_blank(byte: u8) -> bool {
    matches!(byte, b' ' | b'\t' | b'\r' | b'\n')
}

/// What is wrong with a code that has no tokens.
fn empty_cause(judge: &Judge<'_>, code: &Code, part: Item) -> Result<Option<Cause>, AllocError> {
    let is_empty = code.text().iter().all(|byte| is_blank(*byte));
    let what: &[u8] = if is_empty {
        b"a condition is one value, and here is none"
    } else {
        b"its text isn't made of tokens: a byte begins none of them, or a number is too large"
    };
    let span = judge.source.head(part);
    Ok(Some(cause_with(judge.source.alloc, span, &[what])?))
}

/// What is wrong with a code in a part of the text, and at which of its statements.
fn cause_in(judge: &Judge<'_>, part: Item) -> Result<Option<Cause>, AllocError> {
    let code = Code::of(judge.source, part)?;
    let Some(whole) = judge.fault(code.text())? else {
        return Ok(None);
    };
    if code.tokens().is_empty() {
        return empty_cause(judge, &code, part);
    }
    let statement = faulty_statement(judge, &code)?;
    cause_at(judge, &code, whole, statement)
}

/// Adds the codes of the guards in the triggers of a transition.
fn add_guards(source: Source<'_>, triggers: Item, codes: &mut Vec<Item>) -> Result<(), AllocError> {
    let mut first: Option<usize> = None;
    for (at, token) in source.tokens_of(triggers).iter().enumerate() {
        let place = triggers.first.saturating_add(at);
        match token.kind {
            TokenKind::Ident(Some(Word::Guard)) => first = Some(place),
            TokenKind::Mark(Mark::Greater) => {
                if let Some(first) = first {
                    codes.push(Item { first, end: place })?;
                }
                first = None;
            }
            _ => (),
        }
    }
    Ok(())
}

/// Adds the conditions of a transition: that of a branch, and the guards of triggers.
fn add_conditions(
    source: Source<'_>,
    arrow: Item,
    codes: &mut Vec<Item>,
) -> Result<(), AllocError> {
    for part in source.parts(arrow)?.as_slice() {
        match source.word(*part) {
            Some(Word::Cond) => codes.push(*part)?,
            Some(Word::Triggers) => add_guards(source, *part, codes)?,
            _ => (),
        }
    }
    Ok(())
}

/// Adds what is wrong with some codes.
fn add_causes(
    judge: &Judge<'_>,
    codes: &[Item],
    causes: &mut Vec<Cause>,
) -> Result<(), AllocError> {
    for part in codes {
        if causes.len() >= MOST_CAUSES {
            break;
        }
        if let Some(found) = cause_in(judge, *part)? {
            causes.push(found)?;
        }
    }
    Ok(())
}

/// The conditions of transitions.
fn conditions_of(source: Source<'_>, arrows: &[Part]) -> Result<Vec<Item>, AllocError> {
    let mut codes = Vec::new(source.alloc);
    for arrow in arrows {
        add_conditions(source, arrow.item, &mut codes)?;
    }
    Ok(codes)
}

/// What is wrong with the codes of a chart.
pub(crate) fn code_causes(suspect: &Suspect<'_>) -> Result<Vec<Cause>, AllocError> {
    let source = suspect.source;
    let mut causes = Vec::new(source.alloc);
    let actions = Judge {
        source,
        scope: suspect.scope,
        suspect: &*suspect,
        is_condition: false,
    };
    add_causes(&actions, suspect.chart.codes(), &mut causes)?;
    let conditions = Judge {
        source,
        scope: suspect.scope,
        suspect: &*suspect,
        is_condition: true,
    };
    let codes = conditions_of(source, suspect.chart.arrows())?;
    add_causes(&conditions, codes.as_slice(), &mut causes)?;
    Ok(causes)
}
