//! What is wrong with a part that breaks a rule: which name in it isn't there, and which names are.
use crate::cause::{Cause, cause_with, listed};
use crate::declared::{classes_by, last_name, named_among, names_of};
use crate::misread::word_meaning;
use crate::sides::{binding_cause, layer_cause, mapping_cause};
use name_tables::is_type_name;
use room_inherit::BaseRule;
use room_lexer::{Token, TokenKind, Word};
use std::alloc::AllocError;
use structure_check::FlatRule;
use view_charts::{Item, Source, is_word, joined};

/// Which classes are wanted, and what they are called.
#[derive(Clone, Copy)]
struct Wanted {
    word: Word,
    called: &'static [u8],
}

const ACTOR: Wanted = Wanted {
    word: Word::ActorClass,
    called: b"ActorClass",
};

const PROTOCOL: Wanted = Wanted {
    word: Word::ProtocolClass,
    called: b"ProtocolClass",
};

const SUBSYSTEM: Wanted = Wanted {
    word: Word::SubSystemClass,
    called: b"SubSystemClass",
};

/// That no class of a kind has the name of a token, if none has.
fn class_cause(
    source: Source<'_>,
    token: Option<&Token>,
    wanted: Wanted,
) -> Result<Option<Cause>, AllocError> {
    let Some(token) = token else {
        return Ok(None);
    };
    let classes = classes_by(source, &[wanted.word])?;
    let name = source.bytes(token);
    if named_among(source, classes.as_slice(), name).is_some() {
        return Ok(None);
    }
    let names = names_of(source, classes.as_slice())?;
    let there = listed(source.alloc, names.as_slice())?;
    let what = joined(source.alloc, &[b"there is no ", wanted.called, b" `"])?;
    let found = cause_with(
        source.alloc,
        (token.start, token.end),
        &[what.as_slice(), name, b"`; there are: ", there.as_slice()],
    )?;
    Ok(Some(found))
}

/// That a type isn't known that an attribute or a message names, if it isn't.
fn type_cause(source: Source<'_>, item: Item) -> Result<Option<Cause>, AllocError> {
    let Some(token) = last_name(source, item) else {
        return Ok(None);
    };
    let name = source.bytes(token);
    let classes = classes_by(source, &[Word::DataClass])?;
    if is_type_name(name) || named_among(source, classes.as_slice(), name).is_some() {
        return Ok(None);
    }
    let names = names_of(source, classes.as_slice())?;
    let there = listed(source.alloc, names.as_slice())?;
    let found = cause_with(
        source.alloc,
        (token.start, token.end),
        &[
            b"there is no type `",
            name,
            b"`; there are: int8, int16, int32, uint8, uint16, uint32, boolean, and of data classes: ",
            there.as_slice(),
        ],
    )?;
    Ok(Some(found))
}

/// That a word of the action language stands for a name, or `frame`, if one does.
fn word_cause(source: Source<'_>, item: Item) -> Result<Option<Cause>, AllocError> {
    let mut tokens = source.tokens_of(item).iter();
    let Some(token) = tokens.find(|token| token.kind == TokenKind::Ident(None)) else {
        return Ok(None);
    };
    let name = source.bytes(token);
    let what = match word_meaning(token, name) {
        Some(what) => joined(source.alloc, &[b"`", name, b"` ", what])?,
        None if name == b"frame".as_slice() => {
            Vec::from_slice(source.alloc, b"each class has a port `frame` by itself")?
        }
        None => return Ok(None),
    };
    let span = (token.start, token.end);
    Ok(Some(cause_with(source.alloc, span, &[what.as_slice()])?))
}

/// The token behind `extends` in the head of a class.
fn base_token<'a>(source: Source<'a>, item: Item) -> Option<&'a Token> {
    let tokens = source.tokens_of(item);
    let at = tokens
        .iter()
        .position(|token| is_word(token, Word::Extends))?;
    tokens.get(at.saturating_add(1))
}

/// That a reference of the system names no subsystem class, if it names none.
fn subsystem_cause(source: Source<'_>, item: Item) -> Result<Option<Cause>, AllocError> {
    if source.word(item) != Some(Word::SubSystemRef) {
        return Ok(None);
    }
    class_cause(source, last_name(source, item), SUBSYSTEM)
}

/// What is wrong with the system of a model as far as its text shows it by itself: that it names no subsystem class.
pub fn system_causes(source: Source<'_>) -> Result<Vec<Cause>, AllocError> {
    let mut causes = Vec::new(source.alloc);
    for system in classes_by(source, &[Word::LogicalSystem])?.as_slice() {
        let parts = source.parts(*system)?;
        for part in parts.as_slice() {
            if let Some(found) = subsystem_cause(source, *part)? {
                causes.push(found)?;
            }
        }
    }
    Ok(causes)
}

/// What is wrong with a part of a text that is a cause of a broken rule of flat models, as far as it shows it: the name
/// in it that isn't there, or is none.
pub fn rule_cause(
    source: Source<'_>,
    rule: FlatRule,
    item: Item,
) -> Result<Option<Cause>, AllocError> {
    match rule {
        FlatRule::OneSystem => subsystem_cause(source, item),
        FlatRule::PartNames => word_cause(source, item),
        FlatRule::KnownTypes => type_cause(source, item),
        FlatRule::KnownProtocols => class_cause(source, last_name(source, item), PROTOCOL),
        FlatRule::KnownActors => class_cause(source, last_name(source, item), ACTOR),
        FlatRule::OwnPorts | FlatRule::BindingSides => binding_cause(source, item),
        FlatRule::KnownLayers => layer_cause(source, item),
        FlatRule::KnownMappings => mapping_cause(source, item),
        FlatRule::ClassNames
        | FlatRule::MessageNames
        | FlatRule::FieldNames
        | FlatRule::FiniteData
        | FlatRule::SmallClasses
        | FlatRule::FittingValues
        | FlatRule::FiniteActors
        | FlatRule::Replication
        | FlatRule::AnyPlacesAtEnds
        | FlatRule::PlainSubsystems
        | FlatRule::ImportedEnds
        | FlatRule::SidesAgree
        | FlatRule::AnyPlacesOnce
        | FlatRule::FewThreads
        | FlatRule::AllowedMappings
        | FlatRule::FewParts => Ok(None),
    }
}

/// What is wrong with a class that is a cause of a broken rule on bases, as far as it shows it: that what it extends is no
/// actor class.
pub fn base_cause(
    source: Source<'_>,
    rule: BaseRule,
    item: Item,
) -> Result<Option<Cause>, AllocError> {
    match rule {
        BaseRule::KnownBases => class_cause(source, base_token(source, item), ACTOR),
        BaseRule::NoCircle
        | BaseRule::RightPlaces
        | BaseRule::KnownRefinements
        | BaseRule::RefinedOnce
        | BaseRule::SmallModel => Ok(None),
    }
}
