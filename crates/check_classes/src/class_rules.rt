//! The rules on the classes of a model, their names, types, ports and references.
//!
//! Each rule is a test over the syntax tree, defined in `specs/`; the code looks names up in tables and
//! takes time in proportion to the model.

mod ends;
mod names;
mod system;
mod types;

pub use ends::{has_known_actors, has_known_protocols, has_own_ports};
pub use names::{has_class_names, has_field_names, has_message_names, has_part_names};
pub use system::has_one_system;
pub use types::{has_fitting_values, has_known_types};
