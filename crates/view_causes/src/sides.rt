//! What is wrong with what joins ports and maps actors: which reference, port or thread isn't there.
use crate::cause::{Cause, cause_with, listed};
use crate::declared::{classes_by, declared_by, declared_in, last_name, named_among, names_of};
use room_lexer::{Mark, Token, TokenKind, Word};
use std::alloc::AllocError;
use view_charts::{ClassItems, Item, Source, is_word, joined};

/// A class, and what it has from its bases.
#[derive(Drop)]
struct Holder<'a> {
    source: Source<'a>,
    chain: Vec<Item>,
}

/// The actor or subsystem class in which a part stands.
fn holder_of<'a>(source: Source<'a>, item: Item) -> Result<Option<Holder<'a>>, AllocError> {
    let classes = classes_by(source, &[Word::ActorClass, Word::SubSystemClass])?;
    let found = classes
        .as_slice()
        .iter()
        .copied()
        .find(|class| class.first <= item.first && item.end <= class.end);
    match found {
        Some(class) => class_of(source, source.name(class).unwrap_or(&[])),
        None => Ok(None),
    }
}

/// The class of a name.
fn class_of<'a>(source: Source<'a>, name: &[u8]) -> Result<Option<Holder<'a>>, AllocError> {
    let chain = ClassItems::of(source)?.chain(source, name)?;
    if chain.is_empty() {
        return Ok(None);
    }
    Ok(Some(Holder { source, chain }))
}

/// That something isn't there that a token names, and what is.
fn missing(
    source: Source<'_>,
    token: &Token,
    called: &[&[u8]],
    there: &[Item],
) -> Result<Option<Cause>, AllocError> {
    let names = names_of(source, there)?;
    let list = listed(source.alloc, names.as_slice())?;
    let what = joined(source.alloc, called)?;
    let found = cause_with(
        source.alloc,
        (token.start, token.end),
        &[
            what.as_slice(),
            b" `",
            source.bytes(token),
            b"`; there are: ",
            list.as_slice(),
        ],
    )?;
    Ok(Some(found))
}

impl<'a> Holder<'a> {
    /// The references of the class.
    fn references(&self) -> Result<Vec<Item>, AllocError> {
        let mut found = declared_in(
            self.source,
            self.chain.as_slice(),
            &[Word::Structure],
            &[Word::ActorRef],
        )?;
        for class in self.chain.as_slice() {
            let parts = self.source.parts(*class)?;
            found.append(&mut declared_by(self.source, parts.as_slice(), &[Word::ActorRef])?)?;
        }
        Ok(found)
    }

    /// What the class declares in its Interface or its Structure by a word.
    fn parts_by(&self, section: Word, word: Word) -> Result<Vec<Item>, AllocError> {
        declared_in(self.source, self.chain.as_slice(), &[section], &[word])
    }

    /// The reference of a name, or that there is none.
    fn reference(&self, token: &Token) -> Result<Result<Item, Option<Cause>>, AllocError> {
        let references = self.references()?;
        match named_among(self.source, references.as_slice(), self.source.bytes(token)) {
            Some(item) => Ok(Ok(item)),
            None => Ok(Err(missing(
                self.source,
                token,
                &[b"the class has no reference"],
                references.as_slice(),
            )?)),
        }
    }

    /// The class of a reference.
    fn class_behind(&self, reference: Item) -> Result<Option<Holder<'a>>, AllocError> {
        match last_name(self.source, reference) {
            Some(token) => class_of(self.source, self.source.bytes(token)),
            None => Ok(None),
        }
    }

    fn name(&self) -> &'a [u8] {
        match self.chain.as_slice() {
            [class, ..] => self.source.name(*class).unwrap_or(&[]),
            [] => &[],
        }
    }

    /// That the Interface has nothing of a name that a word declares, if it is so.
    fn interface_cause(
        &self,
        token: &Token,
        word: Word,
        called: &[u8],
    ) -> Result<Option<Cause>, AllocError> {
        let there = self.parts_by(Word::Interface, word)?;
        let name = self.source.bytes(token);
        if named_among(self.source, there.as_slice(), name).is_some() {
            return Ok(None);
        }
        missing(
            self.source,
            token,
            &[b"the Interface of `", self.name(), b"` has no ", called],
            there.as_slice(),
        )
    }

    /// That the class itself can't bind a port, if it is so.
    fn own_cause(&self, token: &Token) -> Result<Option<Cause>, AllocError> {
        let source = self.source;
        let name = source.bytes(token);
        let ends = self.parts_by(Word::Structure, Word::External)?;
        if named_among(source, ends.as_slice(), name).is_some() {
            let found = cause_with(
                source.alloc,
                (token.start, token.end),
                &[
                    b"`",
                    name,
                    b"` is an end port of the class, which is bound outside, where the class stands in another one",
                ],
            )?;
            return Ok(Some(found));
        }
        let mut there = self.parts_by(Word::Interface, Word::Port)?;
        there.append(&mut self.parts_by(Word::Structure, Word::Port)?)?;
        if named_among(source, there.as_slice(), name).is_some() {
            return Ok(None);
        }
        missing(source, token, &[b"the class has no port"], there.as_slice())
    }

    /// What is wrong with a side of a binding.
    fn side_cause(&self, side: &[Token]) -> Result<Option<Cause>, AllocError> {
        match side {
            [own] => self.own_cause(own),
            [reference, _dot, port, ..] => match self.reference(reference)? {
                Ok(item) => match self.class_behind(item)? {
                    Some(class) => class.interface_cause(port, Word::Port, b"port"),
                    None => Ok(None),
                },
                Err(found) => Ok(found),
            },
            _ => Ok(None),
        }
    }
}

/// The tokens behind the first word, cut where a token is this word.
fn halves(tokens: &[Token], word: Word) -> (&[Token], &[Token]) {
    let inside = tokens.get(1..).unwrap_or(&[]);
    match inside.iter().position(|token| is_word(token, word)) {
        Some(at) => (
            inside.get(..at).unwrap_or(&[]),
            inside.get(at.saturating_add(1)..).unwrap_or(&[]),
        ),
        None => (inside, &[]),
    }
}

/// What is wrong with a line that repeats a port or a service point of the Interface.
fn repeat_cause(holder: &Holder<'_>, item: Item) -> Result<Option<Cause>, AllocError> {
    let Some(token) = last_name(holder.source, item) else {
        return Ok(None);
    };
    match holder.source.word(item) {
        Some(Word::External) => holder.interface_cause(token, Word::Port, b"port"),
        Some(Word::ServiceImplementation) => holder.interface_cause(token, Word::Spp, b"SPP"),
        _ => Ok(None),
    }
}

/// What is wrong with a binding, or with a line that repeats a port.
pub(crate) fn binding_cause(source: Source<'_>, item: Item) -> Result<Option<Cause>, AllocError> {
    let Some(holder) = holder_of(source, item)? else {
        return Ok(None);
    };
    if source.word(item) != Some(Word::Binding) {
        return repeat_cause(&holder, item);
    }
    let (left, right) = halves(source.tokens_of(item), Word::And);
    let found = holder.side_cause(left)?;
    if found.is_some() {
        return Ok(found);
    }
    holder.side_cause(right)
}

/// That a reference can't serve others, if it can't.
fn server_cause(
    source: Source<'_>,
    reference: Item,
    token: &Token,
) -> Result<Option<Cause>, AllocError> {
    let mut tokens = source.tokens_of(reference).iter();
    let mut is_imported = false;
    let is_replicated = tokens.any(|token| { token.kind == TokenKind::Mark(Mark::OpenBracket) });
    for token in source.tokens_of(reference) {
        is_imported = is_imported || is_word(token, Word::Imported);
    }
    let what: &[u8] = match (is_imported, is_replicated) {
        (true, _) => b"this reference is imported, and serves nobody",
        (_, true) =>
            b"this reference has a number in brackets, so it would not say which of its actors serves",
        _ => return Ok(None),
    };
    let found = cause_with(source.alloc, (token.start, token.end), &[what])?;
    Ok(Some(found.about(Some(reference))?))
}

/// What is wrong with who serves in a layer connection.
fn service_cause(holder: &Holder<'_>, tokens: &[Token]) -> Result<Option<Cause>, AllocError> {
    let [server, _dot, service, ..] = tokens else {
        return Ok(None);
    };
    let reference = match holder.reference(server)? {
        Ok(reference) => reference,
        Err(found) => return Ok(found),
    };
    let found = server_cause(holder.source, reference, server)?;
    if found.is_some() {
        return Ok(found);
    }
    match holder.class_behind(reference)? {
        Some(class) => class.interface_cause(service, Word::Spp, b"SPP"),
        None => Ok(None),
    }
}

/// What is wrong with a layer connection.
pub(crate) fn layer_cause(source: Source<'_>, item: Item) -> Result<Option<Cause>, AllocError> {
    let Some(holder) = holder_of(source, item)? else {
        return Ok(None);
    };
    let (left, right) = halves(source.tokens_of(item), Word::SatisfiedBy);
    if let [_ref, user, ..] = left {
        if let Err(found) = holder.reference(user)? {
            return Ok(found);
        }
    }
    service_cause(&holder, right)
}

/// What is wrong with the path of a mapping, from a class on.
fn path_cause(holder: Holder<'_>, path: &[Token]) -> Result<Option<Cause>, AllocError> {
    let mut inside = Some(holder);
    for token in path {
        if token.kind != TokenKind::Ident(None) {
            continue;
        }
        let Some(class) = inside else {
            break;
        };
        let reference = match class.reference(token)? {
            Ok(reference) => reference,
            Err(found) => return Ok(found),
        };
        inside = class.class_behind(reference)?;
    }
    Ok(None)
}

/// What is wrong with a mapping: with its thread, or with its path where it stands in no other mapping.
pub(crate) fn mapping_cause(source: Source<'_>, item: Item) -> Result<Option<Cause>, AllocError> {
    let tokens = source.tokens_of(item);
    let arrow = tokens
        .iter()
        .position(|token| token.kind == TokenKind::Mark(Mark::Arrow));
    let (Some(arrow), Some(holder)) = (arrow, holder_of(source, item)?) else {
        return Ok(None);
    };
    let outside = match holder.chain.as_slice() {
        [class, ..] => source.parts(*class)?,
        [] => return Ok(None),
    };
    if let Some(thread) = tokens.get(arrow.saturating_add(1)) {
        let threads = declared_by(source, outside.as_slice(), &[Word::LogicalThread])?;
        if named_among(source, threads.as_slice(), source.bytes(thread)).is_none() {
            return missing(source, thread, &[b"there is no thread"], threads.as_slice());
        }
    }
    if !outside.as_slice().contains(&item) {
        return Ok(None);
    }
    path_cause(holder, tokens.get(..arrow).unwrap_or(&[]))
}
