//! What the actions of a class do: what they send and where, whether they defer and recall, which references they fill.
//!
//! The codes of an accepted model are programs (docs/ACTIONS.md), so the first tokens of a statement tell which it is.
use crate::by_port::ByPort;
use crate::code::Code;
use crate::items::{Item, is_mark};
use crate::source::Source;
use indexmap::IndexSet;
use room_lexer::{Mark, Token, TokenKind};
use std::alloc::{AllocError, Global};

/// Where at a port a message is sent.
#[derive(Clone, Copy, Drop, PartialEq, Eq, Hash)]
pub enum Index {
    /// At all places.
    All,
    /// At the place of this number.
    Place(u64),
    /// At a place that isn't written as a number.
    Computed,
}

/// Sends of one class at one port with one index: the bytes of the first of them in the text.
#[derive(Drop)]
pub struct Send {
    pub port: Vec<u8>,
    pub index: Index,
    pub start: usize,
    pub end: usize,
}

/// A port by its number among those at which a class sends, with an index.
#[derive(Clone, Copy, Drop, PartialEq, Eq, Hash)]
struct Target {
    port: usize,
    index: Index,
}

/// What the actions of a class do.
#[derive(Drop)]
pub struct Deeds {
    /// For each port and index at which something is sent, a send.
    targets: IndexSet<Target>,
    sends: Vec<Send>,
    sent: ByPort,
    /// The references that are filled, by `incarnate` or `import`.
    filled: IndexSet<Vec<u8>>,
    /// The ports that are registered under a name.
    registered: IndexSet<Vec<u8>>,
    first_defer: Option<(usize, usize)>,
    recalls: bool,
}

/// What a statement sends: a message at a port.
#[derive(Clone, Copy)]
pub struct Sent<'a> {
    pub port: &'a Token,
    pub message: &'a Token,
    pub index: Index,
}

fn is_name(token: &Token) -> bool {
    matches!(token.kind, TokenKind::Ident(_))
}

/// The message behind a port and its index: `.` name `(`.
fn message_in(tokens: &[Token]) -> Option<&Token> {
    let [dot, name, open, ..] = tokens else {
        return None;
    };
    let is_sent = is_mark(dot, Mark::Dot) && is_name(name) && is_mark(open, Mark::OpenParen);
    is_sent.then_some(name)
}

/// How many tokens stand before the bracket that closes an open one.
fn until_closed(tokens: &[Token]) -> Option<usize> {
    let mut open = 1usize;
    for (at, token) in tokens.iter().enumerate() {
        if is_mark(token, Mark::OpenBracket) {
            open = open.saturating_add(1);
        }
        if is_mark(token, Mark::CloseBracket) {
            open = open.saturating_sub(1);
        }
        if open == 0 {
            return Some(at);
        }
    }
    None
}

fn index_of(tokens: &[Token]) -> Index {
    match tokens {
        [only] => match only.kind {
            TokenKind::Number(number) => Index::Place(number),
            _ => Index::Computed,
        },
        _ => Index::Computed,
    }
}

/// What is sent where a statement begins with these tokens.
pub fn sent_in(tokens: &[Token]) -> Option<Sent<'_>> {
    let (port, rest) = tokens.split_first()?;
    if !is_name(port) {
        return None;
    }
    if let Some(message) = message_in(rest) {
        return Some(Sent {
            port,
            message,
            index: Index::All,
        });
    }
    let (open, inside) = rest.split_first()?;
    if !is_mark(open, Mark::OpenBracket) {
        return None;
    }
    let end = until_closed(inside)?;
    let message = message_in(inside.get(end.saturating_add(1)..)?)?;
    Some(Sent {
        port,
        message,
        index: index_of(inside.get(..end)?),
    })
}

/// The first of two places in a text.
fn first_of(one: Option<(usize, usize)>, other: (usize, usize)) -> (usize, usize) {
    match one {
        Some((start, end)) if start <= other.0 => (start, end),
        _ => other,
    }
}

fn add_name(names: &mut IndexSet<Vec<u8>>, alloc: Global, name: &[u8]) -> Result<(), AllocError> {
    names.insert(Vec::from_slice(alloc, name)?)?;
    Ok(())
}

impl Deeds {
    fn new(alloc: Global) -> Deeds {
        Deeds {
            targets: IndexSet::new(alloc),
            sends: Vec::new(alloc),
            sent: ByPort::new(alloc),
            filled: IndexSet::new(alloc),
            registered: IndexSet::new(alloc),
            first_defer: None,
            recalls: false,
        }
    }

    /// A send for each port and index at which something is sent: the first in the text.
    pub fn sends(&self) -> &[Send] {
        self.sends.as_slice()
    }

    /// What is sent, by ports.
    pub fn sent(&self) -> &ByPort {
        &self.sent
    }

    /// Whether a reference is filled.
    pub fn fills(&self, reference: &[u8]) -> bool {
        self.filled.contains(reference)
    }

    /// Whether a port is registered under a name.
    pub fn registers(&self, port: &[u8]) -> bool {
        self.registered.contains(port)
    }

    /// The first `defer` in the text, where nothing recalls.
    pub fn lost_deferral(&self) -> Option<(usize, usize)> {
        if self.recalls {
            return None;
        }
        self.first_defer
    }

    /// Adds a send, or moves the one of this port and index to an earlier place.
    fn add_target(&mut self, target: Target, send: Send) -> Result<(), AllocError> {
        let (number, is_new) = self.targets.insert_full(target)?;
        if is_new {
            return Ok(self.sends.push(send)?);
        }
        if let Some(known) = self.sends.as_mut_slice().get_mut(number) {
            if send.start < known.start {
                known.start = send.start;
                known.end = send.end;
            }
        }
        Ok(())
    }

    fn add_send(&mut self, alloc: Global, code: &Code, sent: Sent<'_>) -> Result<(), AllocError> {
        let port = code.bytes(sent.port);
        let number = self.sent.add(alloc, port, code.bytes(sent.message))?;
        let (start, end) = code.span(sent.port, sent.message);
        let target = Target {
            port: number,
            index: sent.index,
        };
        let send = Send {
            port: Vec::from_slice(alloc, port)?,
            index: sent.index,
            start,
            end,
        };
        self.add_target(target, send)
    }

    /// Adds what a statement does that begins with a word of the language and a name.
    fn add_named(&mut self, alloc: Global, word: &[u8], name: &[u8]) -> Result<(), AllocError> {
        match word {
            b"incarnate" | b"import" => add_name(&mut self.filled, alloc, name),
            b"register" => add_name(&mut self.registered, alloc, name),
            _ => Ok(()),
        }
    }

    /// Adds what a statement does that is one word.
    fn add_word(&mut self, code: &Code, token: &Token) {
        match code.bytes(token) {
            b"defer" => {
                self.first_defer = Some(first_of(self.first_defer, code.span(token, token)));
            }
            b"recall" | b"recallAll" => self.recalls = true,
            _ => (),
        }
    }

    /// Adds what a statement does whose first words these are.
    fn add_words(
        &mut self,
        alloc: Global,
        code: &Code,
        tokens: &[Token],
    ) -> Result<(), AllocError> {
        match tokens {
            [word, end, ..] if is_name(word) && is_mark(end, Mark::Semicolon) => {
                self.add_word(code, word);
                Ok(())
            }
            [word, name, ..] if is_name(word) && is_name(name) => {
                self.add_named(alloc, code.bytes(word), code.bytes(name))
            }
            _ => Ok(()),
        }
    }

    /// Adds what is done where a statement begins with these tokens.
    fn add_statement(
        &mut self,
        alloc: Global,
        code: &Code,
        tokens: &[Token],
    ) -> Result<(), AllocError> {
        self.add_words(alloc, code, tokens)?;
        match sent_in(tokens) {
            Some(sent) => self.add_send(alloc, code, sent),
            None => Ok(()),
        }
    }

    /// Adds what a code does.
    fn add_code(&mut self, alloc: Global, code: &Code) -> Result<(), AllocError> {
        let tokens = code.tokens();
        for at in 0..tokens.len() {
            self.add_statement(alloc, code, tokens.get(at..).unwrap_or(&[]))?;
        }
        Ok(())
    }

    /// Adds what the codes in parts of the text do.
    fn add_codes(&mut self, source: Source<'_>, codes: &[Item]) -> Result<(), AllocError> {
        for item in codes {
            let code = Code::of(source, *item)?;
            self.add_code(source.alloc, &code)?;
        }
        Ok(())
    }

    /// What the codes in parts of the text do.
    pub fn of(source: Source<'_>, codes: &[Item]) -> Result<Deeds, AllocError> {
        let mut deeds = Deeds::new(source.alloc);
        deeds.add_codes(source, codes)?;
        Ok(deeds)
    }
}
