//! Protocol classes, data classes, attributes and their values.

use crate::name::Name;
use crate::text::Text;
use room_kinds::Sequence;

/// `eventdriven`, which may be missing, `ProtocolClass` name `{` usercode, messages `}`
#[derive(Drop)]
pub struct ProtocolClass {
    pub event_driven: bool,
    pub name: Name,
    pub usercodes: Sequence<Usercode>,
    pub incoming: Option<Sequence<Message>>,
    pub outgoing: Option<Sequence<Message>>,
}

/// `Message` name, and its parameter
#[derive(Drop)]
pub struct Message {
    pub name: Name,
    pub parameter: Parameter,
}

/// What a message carries.
#[derive(Drop)]
pub enum Parameter {
    /// Nothing, and no parentheses.
    Absent,
    /// `(` `)`
    Empty,
    /// `(` type `)`
    Typed(Name),
    /// `(` label `:` type `)`
    Labelled { label: Name, type_name: Name },
}

/// A word `usercode`, `usercode1`, `usercode2` or `usercode3`, and empty STRINGs in braces
#[derive(Drop)]
pub struct Usercode {
    pub section: UsercodeSection,
    pub strings: Sequence<EmptyString>,
}

#[derive(Clone, Copy, Debug, PartialEq, Eq)]
pub enum UsercodeSection {
    Plain,
    First,
    Second,
    Third,
}

/// A STRING without contents.
#[derive(Clone, Copy, Debug, PartialEq, Eq)]
pub struct EmptyString;

/// `DataClass` name `{` items `}`
#[derive(Drop)]
pub struct DataClass {
    pub name: Name,
    pub items: Sequence<DataItem>,
}

#[derive(Drop)]
pub enum DataItem {
    Usercode(Usercode),
    Attribute(Attribute),
}

/// `Attribute` name `:` type, and `=` value
#[derive(Drop)]
pub struct Attribute {
    pub name: Name,
    pub type_name: Name,
    pub value: Option<Value>,
}

/// An initial value.
#[derive(Drop)]
pub enum Value {
    Plain(PlainValue),
    /// A STRING whose contents, cut into tokens, are a plain value.
    Quoted { text: Text, value: PlainValue },
}

#[derive(Clone, Copy, Debug, PartialEq, Eq)]
pub enum PlainValue {
    Number(u64),
    /// `-` and this number.
    Negative(u64),
    True,
    False,
}
