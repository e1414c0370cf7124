//! Laws of the wiring of a model that is read from a text and keeps all rules.
//!
//! Its names tell things apart (paths of slots, ports, messages, states, controllers), so that texts that name things by it
//! can be read back; its slots are numbered depth first; each port has a number of 16 bits. Functions without a body, whose
//! contract is the law: `room_run` rests on them.

pub mod chart_state_names;
pub mod ports_numbered;
pub mod read_wirings;

pub use ports_numbered::wiring_fits;
pub use read_wirings::read_wirings_are_well_named;
