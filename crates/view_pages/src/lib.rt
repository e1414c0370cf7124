//! Pages of text that a view writes: put together in memory, and written whole.
#![tactic(auto)]

mod page;
mod types;

pub use page::{Meaning, Named, Page};
pub use types::type_name;
