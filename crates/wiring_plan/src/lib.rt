//! What the wiring needs of a model, by number: the ports, references, bindings and layer connections of each class.
//!
//! Names are replaced by numbers here (`plan_of`), so that the crates above work on numbers alone. The names by which texts
//! call classes, ports, signals and states are kept beside them (`classes_of`). A class has the same ports by its names and by
//! its structure.
#![tactic(auto)]

pub mod structure_plan;
pub mod wiring_classes;

pub use structure_plan::{
    BindingPlan, ClassPlan, LayerPlan, PlacesPlan, PortPlan, ReferencePlan, SidePlan,
    StructurePlan, class_behind, number_of, plan_of, wired_name,
};
pub use wiring_classes::{classes_of, label_of};
