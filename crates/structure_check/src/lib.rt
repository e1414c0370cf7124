//! The structure checker: whether a model keeps the rules of ROOM models, and if not, the lowest rule
//! that it breaks.
#![tactic(auto)]

mod checked_model;
mod checking;
mod fault;
mod flat_rule;

pub use checked_model::Checked;
pub use checking::{check, lowest_is_found};
pub use fault::CheckFault;
pub use flat_rule::FlatRule;
