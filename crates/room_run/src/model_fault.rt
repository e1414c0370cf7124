//! Why the text of a model is refused.
ghost use Rattle.std.specs.Prelude.{◌≡◌};
ghost use Rattle.room_run.specs.Causes.{status_of_fault};

use crate::status::Status;
use binding_expand::WiringFault;
use chart_reader::ChartFault;
use room_ast::Name;
use room_inherit::BaseRule;
use structure_check::FlatRule;

/// Why a text is refused: it isn't that of a model which runs.
#[derive(Drop)]
pub enum ModelFault {
    /// It can't be cut into tokens at this byte, counted from 0.
    Byte(usize),
    /// No model has its tokens. The line, from 1, is that of the first token with which no model
    /// goes on, or of the end of the text.
    Syntax { line: u32 },
    /// The model breaks this rule on bases, and none of a lower number. These rules are asked first,
    /// of the model as it is written.
    Bases(BaseRule),
    /// The model breaks this rule, and none of a lower number.
    Rule(FlatRule),
    /// The model keeps all rules, and its wiring has this fault, and none of a lower number.
    Wiring(WiringFault),
    /// The model keeps all rules, its wiring has no fault, and the actor class of this name is the
    /// first whose chart has a fault; this is the lowest one.
    Chart { class: Name, fault: ChartFault },
    Memory,
}

impl ModelFault {
    pub(crate) fn status(&self) -> Status
        ensures { result ≡ status_of_fault self.now }
    {
        match self {
            ModelFault::Byte(_) => Status::ModelRefused,
            ModelFault::Syntax { .. } => Status::ModelRefused,
            ModelFault::Bases(_) => Status::ModelRefused,
            ModelFault::Rule(_) => Status::ModelRefused,
            ModelFault::Wiring(_) => Status::ModelRefused,
            ModelFault::Chart { .. } => Status::ModelRefused,
            ModelFault::Memory => Status::Memory,
        }
    }
}
