//! Reading names, imports, values, protocol classes and data classes.

mod data;
mod names;
mod protocol;
mod value;

pub use data::data_class;
pub use names::{ImportPart, dotted};
pub use protocol::protocol_class;
pub use value::{attribute, usercode, usercode_comes};
