//! What is asked of a model, rule by rule (docs/LINT.md).

mod branches;
mod charts;
mod indexes;
mod messages;
mod sends;

pub(crate) use branches::add_dead_branches;
pub(crate) use charts::{add_lost_deferral, add_unentered_states, add_unfilled_references};
pub(crate) use indexes::add_unjoined_indexes;
pub(crate) use messages::add_untaken_messages;
pub(crate) use sends::add_unjoined_sends;
