//! Reading state machines: code, triggers, transitions, states and graphs.

mod codes;
mod graphs;
mod transitions;
mod trigger_lists;

pub use graphs::state_machine;
