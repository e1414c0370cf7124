//! Why the charts of a model were refused.

ghost use Rattle.std.specs.Prelude.{◌≡◌};
ghost use Rattle.chart_reader.specs.declared.model_charts.fault.ChartsFault.TheVariants.{Memory};

use crate::ChartFault;
use room_ast::Name;
use std::alloc::AllocError;

/// Why the charts of a model were refused.
#[derive(Drop)]
pub enum ChartsFault {
    /// The chart of the actor class of this name has this fault, and none of a lower number; those
    /// of the classes before it have none.
    Chart { class: Name, fault: ChartFault },
    /// There was no memory.
    Memory,
}

impl From<AllocError> for ChartsFault {
    ghost from_gives = { λ _ e. e ≡ Memory };

    fn from(_e: AllocError) -> ChartsFault {
        ChartsFault::Memory
    }
}
