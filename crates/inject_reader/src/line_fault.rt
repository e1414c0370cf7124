//! What is wrong with a line of injections.

ghost use Rattle.std.specs.Prelude.{◌≡◌};
ghost use Rattle.inject_reader.specs.LineFaults.{code_of};

/// What is wrong with a line of injections, in the order in which it is told of one line.
#[derive(Clone, Copy, Drop, PartialEq, Eq)]
pub enum LineFault {
    /// It has no form of a line.
    NoForm,
    /// The path is no slot's, or an imported one's.
    NoSlot,
    /// The port is no end port or internal end port of the slot's class, or the place is out of range.
    NoEnd,
    /// The signal doesn't come in there.
    NoSignal,
    /// It has another number of numbers than the message.
    OtherNumbers,
    /// It is line 10,001: there are more than 10,000 lines, which is told before all else.
    TooManyLines,
    /// It moves virtual time on where that is refused.
    NoTime,
}

impl LineFault {
    /// The code by which a fault is told: 1 to 7.
    pub fn code(self) -> u8
        ensures { result ≡ code_of self }
    {
        match self {
            LineFault::NoForm => 1,
            LineFault::NoSlot => 2,
            LineFault::NoEnd => 3,
            LineFault::NoSignal => 4,
            LineFault::OtherNumbers => 5,
            LineFault::TooManyLines => 6,
            LineFault::NoTime => 7,
        }
    }
}
