//! Copies of parts of a model. A class that extends another one has its own copy of all that the other
//! one has.

mod charts;
mod codes;
mod parts;

pub use charts::copy_items;
pub(crate) use charts::{copy_body, copy_item};
pub(crate) use codes::{copy_code, copy_text};
pub(crate) use parts::{copy_interface_item, copy_name_if, copy_structure_item};
