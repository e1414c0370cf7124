//! The types of numbers by name.
ghost use Rattle.std.specs.Prelude.{◌≡◌};
ghost use Rattle.name_tables.specs.name_numbers.Names.{same};
ghost use Rattle.room_ast.specs.model_parts.Types.{number_type};

use room_kinds::NumberType;

fn is(name: &[u8], word: &[u8]) -> bool
    ensures { result ≡ same name.now word.now }
{
    name == word
}

/// The integer type, or `boolean`, of a name.
pub fn number_type(name: &[u8]) -> Option<NumberType>
    ensures { result ≡ number_type name.now }
{
    if is(name, b"int8") {
        Some(NumberType::Int8)
    } else if is(name, b"int16") {
        Some(NumberType::Int16)
    } else if is(name, b"int32") {
        Some(NumberType::Int32)
    } else if is(name, b"uint8") {
        Some(NumberType::Uint8)
    } else if is(name, b"uint16") {
        Some(NumberType::Uint16)
    } else if is(name, b"uint32") {
        Some(NumberType::Uint32)
    } else if is(name, b"boolean") {
        Some(NumberType::Boolean)
    } else {
        None
    }
}
