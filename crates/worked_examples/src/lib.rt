//! Worked examples of the definitions, computed by the prover: what small state machines do with
//! messages, and the whole journals of runs of small models. No code is tried here; what the
//! program answers on such models stands in `cases/`.
#![tactic(auto)]

pub mod charts;
pub mod worlds;
