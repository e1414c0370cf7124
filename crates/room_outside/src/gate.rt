//! A place that each turn of a controller passes.

/// The number of a controller.
pub type ControllerNo = u8;

/// What a worker calls before each turn. It tells nothing and has no fault.
pub trait Gate {
    /// `turn` is the number of turns that the controller has taken before this one.
    fn enter(&self, c: ControllerNo, turn: u64);
}

/// A gate that holds nobody.
#[derive(Clone, Copy, Debug, Default, PartialEq, Eq)]
pub struct OpenGate;

impl Gate for OpenGate {
    fn enter(&self, _c: ControllerNo, _turn: u64) {}
}
