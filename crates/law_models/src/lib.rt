//! Laws of every model that keeps all rules and has no fault, in one place for all who rest on them.
//!
//! Its wiring tells things apart by their names, and its slots and ports are numbered as its structure is
//! (`wiring_laws`); the ports of joined places have one protocol (`joined_ports`); what its charts run names what
//! their classes have (`class_laws`); where a run of it is done, all controllers agree (`settled_models`), and so
//! they do wherever it is quiet on the way (`quiet_worlds`).
//! No code: functions without a body, whose contract is the law.
#![tactic(auto)]

pub mod class_laws;
pub mod joined_ports;
pub mod quiet_worlds;
pub mod settled_models;
pub mod wiring_laws;

pub use class_laws::{actors_ask_what_they_can, charts_name_their_class, states_are_labelled};
pub use joined_ports::{joined_ports_have_one_protocol, linked_ports_have_one_protocol};
pub use quiet_worlds::{quiet_worlds_are_agreed, worlds_stand};
pub use settled_models::{
    charts_are_open, charts_are_ranked, charts_send_worded, done_runs_agree, done_runs_are_agreed,
    models_register_points, others_live_from_start,
};
pub use wiring_laws::{read_wirings_are_well_named, wiring_fits};
