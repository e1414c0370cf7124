//! Where the text declares what codes and triggers name.
use room_lexer::{Token, TokenKind, Word};
use std::alloc::AllocError;
use view_charts::{Item, Source};

/// The last name in a part that is no reserved word: that of the class behind its colon.
pub(crate) fn last_name<'a>(source: Source<'a>, item: Item) -> Option<&'a Token> {
    let tokens = source.tokens_of(item);
    let at = tokens
        .iter()
        .rposition(|token| token.kind == TokenKind::Ident(None))?;
    tokens.get(at)
}

/// Those of some parts that are declared by one of these words.
pub(crate) fn declared_by(
    source: Source<'_>,
    items: &[Item],
    words: &[Word],
) -> Result<Vec<Item>, AllocError> {
    let mut found = Vec::new(source.alloc);
    for item in items {
        if source.word(*item).is_some_and(|word| words.contains(&word)) {
            found.push(*item)?;
        }
    }
    Ok(found)
}

/// The names that some parts declare.
pub(crate) fn names_of<'a>(
    source: Source<'a>,
    items: &[Item],
) -> Result<Vec<&'a [u8]>, AllocError> {
    let mut names = Vec::new(source.alloc);
    for item in items {
        if let Some(name) = source.name(*item) {
            names.push(name)?;
        }
    }
    Ok(names)
}

/// The first of some parts that declares a name.
pub(crate) fn named_among(source: Source<'_>, items: &[Item], name: &[u8]) -> Option<Item> {
    items
        .iter()
        .copied()
        .find(|item| source.name(*item) == Some(name))
}

/// The classes of the text that these words declare.
pub(crate) fn classes_by(source: Source<'_>, words: &[Word]) -> Result<Vec<Item>, AllocError> {
    let declarations = source.declarations()?;
    declared_by(source, declarations.as_slice(), words)
}

/// What classes declare by these words in sections that begin with these.
pub(crate) fn declared_in(
    source: Source<'_>,
    classes: &[Item],
    sections: &[Word],
    words: &[Word],
) -> Result<Vec<Item>, AllocError> {
    let mut found = Vec::new(source.alloc);
    for class in classes {
        let parts = source.parts(*class)?;
        let inside = declared_by(source, parts.as_slice(), sections)?;
        for section in inside.as_slice() {
            let items = source.parts(*section)?;
            found.append(&mut declared_by(source, items.as_slice(), words)?)?;
        }
    }
    Ok(found)
}

/// Where a class, or one of its bases, declares a port or a service point.
pub(crate) fn port_of(
    source: Source<'_>,
    chain: &[Item],
    name: &[u8],
) -> Result<Option<Item>, AllocError> {
    let ports = declared_in(
        source,
        chain,
        &[Word::Interface, Word::Structure],
        &[Word::Port, Word::Sap, Word::Spp],
    )?;
    Ok(named_among(source, ports.as_slice(), name))
}

/// Where the protocol of a port declares a message.
pub(crate) fn message_of(
    source: Source<'_>,
    port: Item,
    message: &[u8],
) -> Result<Option<Item>, AllocError> {
    let Some(protocol) = last_name(source, port) else {
        return Ok(None);
    };
    let protocols = classes_by(source, &[Word::ProtocolClass])?;
    let Some(class) = named_among(source, protocols.as_slice(), source.bytes(protocol)) else {
        return Ok(None);
    };
    let messages = declared_in(
        source,
        &[class],
        &[Word::Incoming, Word::Outgoing],
        &[Word::Message],
    )?;
    Ok(named_among(source, messages.as_slice(), message))
}
