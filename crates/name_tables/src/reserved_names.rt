//! The names that no class and no part of an actor class may have.

ghost use Rattle.std.specs.Prelude.{◌≡◌};
ghost use Rattle.std.specs.List.{list_any};
ghost use Rattle.name_tables.specs.name_numbers.Names.{same, is_among};
ghost use Rattle.name_tables.specs.reserved_names.Words.{type_names, part_words};

/// The names of the types of numbers.
const TYPE_NAMES: [&[u8]; 7] = [
    b"int8", b"int16", b"int32", b"uint8", b"uint16", b"uint32", b"boolean",
];

/// The port of the frame service, and the words of the action language.
const PART_WORDS: [&[u8]; 25] = [
    b"frame",
    b"if",
    b"else",
    b"repeat",
    b"at",
    b"defer",
    b"recall",
    b"recallAll",
    b"incarnate",
    b"destroy",
    b"import",
    b"deport",
    b"register",
    b"as",
    b"withdraw",
    b"panic",
    b"high",
    b"general",
    b"low",
    b"background",
    b"true",
    b"false",
    b"data",
    b"place",
    b"self",
];

/// Whether a text is one of these.
fn is_one_of(words: &[&[u8]], text: &[u8]) -> bool
    ensures { result ≡ list_any (λ w. same text.now w.now) words.now }
{
    words.iter().any(|word| text == *word)
}

/// Whether a text is the name of a type of numbers. No class is called so.
#[tactic(auto, unfolding(crate::specs::reserved_names::Words::type_names))]
pub fn is_type_name(text: &[u8]) -> bool
    ensures { result ≡ is_among type_names text.now }
{
    is_one_of(&TYPE_NAMES, text)
}

/// Whether a text is `frame` or a word of the action language. No port, service access point,
/// attribute or reference is called so.
#[tactic(auto, unfolding(crate::specs::reserved_names::Words::part_words))]
pub fn is_part_word(text: &[u8]) -> bool
    ensures { result ≡ is_among part_words text.now }
{
    is_one_of(&PART_WORDS, text)
}
