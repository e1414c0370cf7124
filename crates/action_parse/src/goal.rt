//! What a text must still have.
use room_lexer::Mark;

/// What is expected of a text, for what was read of it.
#[derive(Clone, Copy, Drop, PartialEq, Eq)]
pub enum Goal {
    Take(Mark),
    /// The priority of a send, if it names one.
    Prio,
    /// A place or an index in brackets, if there is one.
    Index,
    /// What stands behind the place of a send.
    Message,
    Operand,
    /// Operators with their right sides, as many as come.
    Operators,
    /// Further arguments, as many as come.
    Arguments,
    /// The rest of a chain of conditions.
    Otherwise,
    /// Statements up to a closing brace or the end.
    Statements,
}
