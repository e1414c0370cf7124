//! What is wrong with a chart, and why one was not read.

ghost use Rattle.std.specs.Prelude.{◌≡◌};
ghost use Rattle.chart_reader.specs.Faults.{number};
ghost use Rattle.chart_reader.specs.declared.fault.ReadFault.TheVariants.{Memory};

use std::alloc::AllocError;

/// A fault of a chart, in the order in which they are told.
#[derive(Clone, Copy, Drop, PartialEq, Eq)]
pub enum ChartFault {
    /// States nest deeper than 16.
    DepthAbove16,
    /// Two states or points of a graph have one name; a terminal names nothing, or has a form that
    /// isn't allowed there; triggers or a condition are missing or stand where none may; the top
    /// graph has an entry or exit point; or one of another graph hasn't one continuation.
    BadPoint,
    /// A graph has two initial transitions.
    TwoInitials,
    /// The top graph has no initial transition, or one that is entered at its border hasn't.
    NoInitial,
    /// A choice point hasn't one branch without a condition.
    NoDefault,
    /// Targets lead in a circle with no simple state between.
    ChoiceCycle,
    /// An event names no port at which messages come in, or a message that doesn't come in there.
    BadTrigger,
    /// A code isn't a program or a condition, or names what the class doesn't have.
    BadAction,
}

impl ChartFault {
    /// The number by which a fault is told: 1 to 8.
    pub fn number(self) -> u8
        ensures { result ≡ number self }
    {
        match self {
            ChartFault::DepthAbove16 => 1,
            ChartFault::BadPoint => 2,
            ChartFault::TwoInitials => 3,
            ChartFault::NoInitial => 4,
            ChartFault::NoDefault => 5,
            ChartFault::ChoiceCycle => 6,
            ChartFault::BadTrigger => 7,
            ChartFault::BadAction => 8,
        }
    }
}

/// Why a chart was not read.
#[derive(Clone, Copy, Drop, PartialEq, Eq)]
pub enum ReadFault {
    /// The lowest fault that it has.
    Chart(ChartFault),
    /// There was no memory.
    Memory,
}

impl From<AllocError> for ReadFault {
    ghost from_gives = { λ _ fault. fault ≡ Memory };

    fn from(_: AllocError) -> ReadFault {
        ReadFault::Memory
    }
}
