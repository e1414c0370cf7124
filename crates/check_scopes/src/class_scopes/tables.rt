//! What the scopes of a model's classes are made from.

use crate::class_scopes::fields::Field;
use crate::class_scopes::signals::SignalTable;
use room_ast::ScopeSignal;
use room_kinds::{NumberType, Sequence};

/// The types of the numbers of each data class and its fields that stand for numbers, by number, and
/// the messages that ports have.
#[derive(Drop)]
pub struct ScopeTables<'a> {
    pub kinds: Vec<Sequence<NumberType>>,
    pub fields: Vec<Sequence<Field<'a>>>,
    pub signals: SignalTable<ScopeSignal>,
}
