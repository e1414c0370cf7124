//! Types of numbers.
use room_kinds::NumberType;

/// How a type of numbers is written.
pub fn type_name(number: NumberType) -> &'static [u8] {
    match number {
        NumberType::Int8 => b"int8",
        NumberType::Int16 => b"int16",
        NumberType::Int32 => b"int32",
        NumberType::Uint8 => b"uint8",
        NumberType::Uint16 => b"uint16",
        NumberType::Uint32 => b"uint32",
        NumberType::Boolean => b"boolean",
        NumberType::Plain => b"number",
    }
}
