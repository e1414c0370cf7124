//! What the names in a statement stand for, and which of them the class hasn't.
use crate::cause::{Cause, cause_with, listed, listed_all, listed_signals, signal_text};
use crate::charts::Suspect;
use crate::declared::{message_of, port_of};
use crate::misread::word_meaning;
use itoa::Buffer;
use room_ast::{ScopeAttribute, ScopePort, ScopeSignal};
use room_kinds::{PortKind, ReferenceKind};
use room_lexer::{Mark, Token, TokenKind};
use std::alloc::{AllocError, Global};
use view_charts::{Code, Sent, is_mark, joined, sent_in};

/// A statement that is looked at: its code and the class that it belongs to.
#[derive(Clone, Copy)]
struct Look<'a> {
    suspect: &'a Suspect<'a>,
    code: &'a Code,
}

fn is_name(token: &Token) -> bool {
    matches!(token.kind, TokenKind::Ident(_))
}

/// Whether messages can be sent at a port.
fn can_send(port: &ScopePort) -> bool {
    !matches!(port.kind, PortKind::Frame | PortKind::Relay)
}

/// Whether a port can meet others under a name.
fn takes_names(port: &ScopePort) -> bool {
    matches!(port.kind, PortKind::Sap | PortKind::Spp)
}

/// The messages that go out at a port.
fn outgoing(port: &ScopePort) -> &[ScopeSignal] {
    if port.conjugated {
        port.incoming.as_slice()
    } else {
        port.outgoing.as_slice()
    }
}

/// A number of things as a text.
fn counted(alloc: Global, count: usize) -> Result<Vec<u8>, AllocError> {
    match count {
        0 => Vec::from_slice(alloc, b"no number"),
        1 => Vec::from_slice(alloc, b"1 number"),
        _ => {
            let mut buffer = Buffer::new();
            let digits = buffer.format(count as u64);
            joined(alloc, &[digits.as_bytes(), b" numbers"])
        }
    }
}

/// How many arguments stand behind an open parenthesis, and the one that closes it.
fn arguments_in(tokens: &[Token]) -> Option<(usize, &Token)> {
    let mut depth = 0usize;
    let mut commas = 0usize;
    for (at, token) in tokens.iter().enumerate() {
        match token.kind {
            TokenKind::Mark(Mark::OpenParen) => depth = depth.saturating_add(1),
            TokenKind::Mark(Mark::CloseParen) if depth == 0 => {
                let count = if at == 0 { 0 } else { commas.saturating_add(1) };
                return Some((count, token));
            }
            TokenKind::Mark(Mark::CloseParen) => depth = depth.saturating_sub(1),
            TokenKind::Mark(Mark::Comma) if depth == 0 => commas = commas.saturating_add(1),
            _ => (),
        }
    }
    None
}

/// The tokens behind the parenthesis that opens the arguments of a message.
fn behind_message<'t>(tokens: &'t [Token], message: &Token) -> &'t [Token] {
    match tokens.iter().position(|token| token.start == message.start) {
        Some(at) => tokens.get(at.saturating_add(2)..).unwrap_or(&[]),
        None => &[],
    }
}

/// The names of a path of attributes that tokens begin with, and the dots between them.
fn path_in(tokens: &[Token]) -> &[Token] {
    let mut end = 0usize;
    for (at, token) in tokens.iter().enumerate() {
        let goes_on = if at % 2 == 0 {
            is_name(token)
        } else {
            is_mark(token, Mark::Dot)
        };
        if !goes_on {
            break;
        }
        end = at.saturating_add(1);
    }
    if end % 2 == 0 {
        end = end.saturating_sub(1);
    }
    tokens.get(..end).unwrap_or(&[])
}

impl<'a> Look<'a> {
    fn alloc(&self) -> Global {
        self.suspect.source.alloc
    }

    /// That something is wrong with tokens.
    fn at(&self, first: &Token, last: &Token, what: &[&[u8]]) -> Result<Option<Cause>, AllocError> {
        Ok(Some(cause_with(self.alloc(), self.code.span(first, last), what)?))
    }

    /// The ports at which messages can be sent.
    fn sending_ports(&self) -> Result<Vec<u8>, AllocError> {
        let mut names = Vec::new(self.alloc());
        for port in self.suspect.scope.ports.as_slice() {
            if can_send(port) {
                names.push(port.name.as_bytes())?;
            }
        }
        listed(self.alloc(), names.as_slice())
    }

    /// The ports that can meet others under a name.
    fn service_points(&self) -> Result<Vec<u8>, AllocError> {
        let mut names = Vec::new(self.alloc());
        for port in self.suspect.scope.ports.as_slice() {
            if takes_names(port) {
                names.push(port.name.as_bytes())?;
            }
        }
        listed(self.alloc(), names.as_slice())
    }

    /// The names of the references of a kind.
    fn references(&self, kind: ReferenceKind) -> Result<Vec<u8>, AllocError> {
        let mut names = Vec::new(self.alloc());
        for reference in self.suspect.scope.references.as_slice() {
            if reference.kind == kind {
                names.push(reference.name.as_bytes())?;
            }
        }
        listed(self.alloc(), names.as_slice())
    }

    /// A number of the class as actions write it.
    fn path_text(&self, attribute: &ScopeAttribute) -> Result<Vec<u8>, AllocError> {
        let mut text = Vec::new(self.alloc());
        for (number, name) in attribute.path.as_slice().iter().enumerate() {
            if number > 0 {
                text.push(b'.')?;
            }
            text.extend_from_slice(name.as_bytes())?;
        }
        Ok(text)
    }

    /// Whether the path of an attribute begins with names, between which stand dots.
    fn begins_with(&self, attribute: &ScopeAttribute, path: &[Token]) -> bool {
        let mut names = attribute.path.as_slice().iter();
        for token in path.iter().filter(|token| is_name(token)) {
            match names.next() {
                Some(name) if name.is(self.code.bytes(token)) => (),
                _ => return false,
            }
        }
        true
    }

    /// The numbers of the class whose paths begin with names; all for no names.
    fn attributes(&self, path: &[Token]) -> Result<Vec<Vec<u8>>, AllocError> {
        let mut texts = Vec::new(self.alloc());
        for attribute in self.suspect.scope.attributes.as_slice() {
            if self.begins_with(attribute, path) {
                texts.push(self.path_text(attribute)?)?;
            }
        }
        Ok(texts)
    }

    /// That no message can be sent at a port of this name, if it is so.
    fn port_cause(&self, token: &Token) -> Result<Option<Cause>, AllocError> {
        let name = self.code.bytes(token);
        let Some((_number, port)) = self.suspect.scope.port(name) else {
            let there = self.sending_ports()?;
            return self.at(
                token,
                token,
                &[
                    b"the class has no port `",
                    name,
                    b"`; it can send at: ",
                    there.as_slice(),
                ],
            );
        };
        match port.kind {
            PortKind::Frame => self.at(token, token, &[b"nothing can be sent at `frame`"]),
            PortKind::Relay => self.at(
                token,
                token,
                &[
                    b"`",
                    name,
                    b"` only passes on: `external Port ",
                    name,
                    b"` in the Structure lets the actor work at it",
                ],
            ),
            PortKind::End | PortKind::Internal | PortKind::Sap | PortKind::Spp => Ok(None),
        }
    }

    /// A cause, about the declaration of a message of a port.
    fn about_message(
        &self,
        found: Option<Cause>,
        sent: Sent<'_>,
    ) -> Result<Option<Cause>, AllocError> {
        let source = self.suspect.source;
        let Some(found) = found else {
            return Ok(None);
        };
        let Some(port) = port_of(source, self.suspect.chain, self.code.bytes(sent.port))? else {
            return Ok(Some(found));
        };
        let declared = message_of(source, port, self.code.bytes(sent.message))?;
        Ok(Some(found.about(declared)?))
    }

    /// That a message doesn't go out at a port.
    fn stays_in(&self, port: &ScopePort, sent: Sent<'_>) -> Result<Option<Cause>, AllocError> {
        let message = self.code.bytes(sent.message);
        let there = listed_signals(self.alloc(), outgoing(port))?;
        let comes_in = port.received(message).is_some();
        let turned: &[u8] = if comes_in {
            b"` comes in at `"
        } else {
            b"` doesn't go out at `"
        };
        let cure: &[u8] = if comes_in {
            b"`, and doesn't go out (`conjugated` turns a port round); there go out: "
        } else {
            b"`; there go out: "
        };
        self.at(
            sent.port,
            sent.message,
            &[
                b"`",
                message,
                turned,
                self.code.bytes(sent.port),
                cure,
                there.as_slice(),
            ],
        )
    }

    /// That a message is sent with so many numbers, up to a bracket, and has others.
    fn count_cause(
        &self,
        sent: Sent<'_>,
        signal: &ScopeSignal,
        count: usize,
        close: &Token,
    ) -> Result<Option<Cause>, AllocError> {
        let sends = counted(self.alloc(), count)?;
        let has = counted(self.alloc(), signal.numbers.len())?;
        let declared = signal_text(self.alloc(), signal)?;
        self.at(
            sent.port,
            close,
            &[
                b"it sends ",
                sends.as_slice(),
                b", and `",
                declared.as_slice(),
                b"` has ",
                has.as_slice(),
            ],
        )
    }

    /// What is wrong with what is sent where tokens begin, if something is.
    fn send_cause(&self, sent: Sent<'_>, tokens: &[Token]) -> Result<Option<Cause>, AllocError> {
        let found = self.port_cause(sent.port)?;
        if found.is_some() {
            return Ok(found);
        }
        let Some((_number, port)) = self.suspect.scope.port(self.code.bytes(sent.port)) else {
            return Ok(None);
        };
        let Some((_number, signal)) = port.sent(self.code.bytes(sent.message)) else {
            let found = self.stays_in(port, sent)?;
            return self.about_message(found, sent);
        };
        let Some((count, close)) = arguments_in(behind_message(tokens, sent.message)) else {
            return Ok(None);
        };
        if count == signal.numbers.len() {
            return Ok(None);
        }
        let found = self.count_cause(sent, signal, count, close)?;
        self.about_message(found, sent)
    }

    /// Whether a path of so many names is that of a number of the class.
    fn is_number(&self, path: &[Token], count: usize) -> bool {
        let mut attributes = self.suspect.scope.attributes.as_slice().iter();
        attributes.any(|known| known.path.len() == count && self.begins_with(known, path))
    }

    /// What a name is that stands where a number is wanted, if it is known and no attribute.
    fn other_kind<'n>(&self, name: &'n [u8]) -> Option<&'n [u8]> {
        let scope = self.suspect.scope;
        if scope.port(name).is_some() {
            return Some(b"` is a port, and no number; a send goes on with `.` and a message");
        }
        if scope.reference(name).is_some() {
            return Some(b"` is a reference, and no number");
        }
        None
    }

    /// That the class has no number under a path, and which it has.
    fn no_attribute(&self, path: &[Token]) -> Result<Vec<u8>, AllocError> {
        let mut name = Vec::new(self.alloc());
        for token in path {
            name.extend_from_slice(self.code.bytes(token))?;
        }
        let fields = self.attributes(path.get(..1).unwrap_or(&[]))?;
        let known = if fields.is_empty() {
            self.attributes(&[])?
        } else {
            fields
        };
        let there = listed_all(self.alloc(), known.as_slice())?;
        joined(
            self.alloc(),
            &[
                b"the class has no attribute `",
                name.as_slice(),
                b"`; it has: ",
                there.as_slice(),
                b"; the first number of a message is `data`",
            ],
        )
    }

    /// That a path names no number of the class, if it is so.
    fn attribute_cause(&self, path: &[Token]) -> Result<Option<Cause>, AllocError> {
        let (Some(first), Some(last)) = (path.first(), path.last()) else {
            return Ok(None);
        };
        let count = path.iter().filter(|token| is_name(token)).count();
        if self.is_number(path, count) {
            return Ok(None);
        }
        let inside = self.attributes(path)?;
        if !inside.is_empty() {
            let there = listed_all(self.alloc(), inside.as_slice())?;
            let what: &[u8] = b"it stands for several numbers: ";
            return self.at(first, last, &[what, there.as_slice()]);
        }
        let name = self.code.bytes(first);
        if let Some(other) = self.other_kind(name) {
            return self.at(first, last, &[b"`", name, other]);
        }
        let what = self.no_attribute(path)?;
        self.at(first, last, &[what.as_slice()])
    }

    /// That there is no reference of the kind that a statement needs, if it is so.
    fn reference_cause(
        &self,
        verb: &[u8],
        token: &Token,
        kind: ReferenceKind,
    ) -> Result<Option<Cause>, AllocError> {
        let name = self.code.bytes(token);
        let found = self.suspect.scope.reference(name);
        if found.is_some_and(|(_number, reference)| reference.kind == kind) {
            return Ok(None);
        }
        let there = self.references(kind)?;
        let called: &[u8] = match kind {
            ReferenceKind::Fixed => b"a fixed",
            ReferenceKind::Optional => b"an optional",
            ReferenceKind::Imported => b"an imported",
        };
        let what: &[u8] = if found.is_some() {
            b"` is another one; there are: "
        } else {
            b"` is no reference of the class; there are: "
        };
        self.at(
            token,
            token,
            &[
                b"`",
                verb,
                b"` takes ",
                called,
                b" reference, and `",
                name,
                what,
                there.as_slice(),
            ],
        )
    }

    /// That there is no service point of a name, if it is so.
    fn service_cause(&self, verb: &[u8], token: &Token) -> Result<Option<Cause>, AllocError> {
        let name = self.code.bytes(token);
        let found = self.suspect.scope.port(name);
        if found.is_some_and(|(_number, port)| takes_names(port)) {
            return Ok(None);
        }
        let there = self.service_points()?;
        self.at(
            token,
            token,
            &[
                b"`",
                verb,
                b"` takes a SAP or a SPP, and `",
                name,
                b"` is none; there are: ",
                there.as_slice(),
            ],
        )
    }

    /// What is wrong with the name behind a word that takes one.
    fn verb_cause(&self, verb: &Token, name: &Token) -> Result<Option<Cause>, AllocError> {
        let word = self.code.bytes(verb);
        match word {
            b"incarnate" | b"destroy" => {
                self.reference_cause(word, name, ReferenceKind::Optional)
            }
            b"import" | b"deport" => self.reference_cause(word, name, ReferenceKind::Imported),
            b"register" | b"withdraw" => self.service_cause(word, name),
            _ => Ok(None),
        }
    }

    /// What is wrong with the names with which tokens begin.
    fn cause_at(
        &self,
        before: Option<&Token>,
        tokens: &[Token],
    ) -> Result<Option<Cause>, AllocError> {
        let Some(first) = tokens.first() else {
            return Ok(None);
        };
        let goes_on = match before {
            Some(before) => is_name(before) || is_mark(before, Mark::Dot),
            None => false,
        };
        if !is_name(first) || goes_on {
            return Ok(None);
        }
        if let [verb, name, ..] = tokens {
            if is_name(name) {
                return self.verb_cause(verb, name);
            }
        }
        if word_meaning(first, self.code.bytes(first)).is_some() {
            return Ok(None);
        }
        match sent_in(tokens) {
            Some(sent) => self.send_cause(sent, tokens),
            None => self.attribute_cause(path_in(tokens)),
        }
    }
}

/// What is wrong with the names in a statement, at the first of them that the class hasn't, or that stands for another
/// thing.
pub(crate) fn name_cause(
    suspect: &Suspect<'_>,
    code: &Code,
    statement: &[Token],
) -> Result<Option<Cause>, AllocError> {
    let look = Look { suspect, code };
    let mut before: Option<&Token> = None;
    for at in 0..statement.len() {
        let tokens = statement.get(at..).unwrap_or(&[]);
        let found = look.cause_at(before, tokens)?;
        if found.is_some() {
            return Ok(found);
        }
        before = tokens.first();
    }
    Ok(None)
}
