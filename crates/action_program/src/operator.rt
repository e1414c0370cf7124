//! Operators and verbs.

/// An operator before a value.
#[derive(Clone, Copy, Drop, PartialEq, Eq)]
pub enum UnaryOp {
    /// `-`
    Negate,
    /// `!`
    Not,
}

/// An operator between two values.
#[derive(Clone, Copy, Drop, PartialEq, Eq)]
pub enum BinaryOp {
    /// `||`
    Or,
    /// `&&`
    And,
    /// `==`
    Equal,
    /// `!=`
    NotEqual,
    /// `<`
    Less,
    /// `<=`
    LessEqual,
    /// `>`
    Greater,
    /// `>=`
    GreaterEqual,
    /// `+`
    Add,
    /// `-`
    Subtract,
    /// `*`
    Multiply,
    /// `/`
    Divide,
    /// `%`
    Remainder,
}

/// What a statement asks of an actor reference, but for an import.
#[derive(Clone, Copy, Drop, PartialEq, Eq)]
pub enum FrameVerb {
    /// Make an actor at an optional reference.
    Incarnate,
    /// End the actor at an optional reference.
    Destroy,
    /// Let go of the actor at an imported reference.
    Deport,
}
