//! What the wiring needs of a model, by number: the ports, references, bindings and layer connections
//! of each actor class and of the subsystem class that is wired.
//!
//! Names are replaced by numbers here, so that the crates above work on numbers alone.

mod classes;
mod parts;
mod plan;
mod structure;

pub(crate) use parts::count32;
pub use parts::{class_behind, number_of, reference_plan, short_if_any};
pub use plan::{
    BindingPlan, ClassPlan, LayerPlan, PlacesPlan, PortPlan, ReferencePlan, SidePlan, StructurePlan,
};
pub use structure::{plan_of, wired_name};
