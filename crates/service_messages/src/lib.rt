//! What the frame service and the layer service both need: the messages that they send, and what they look up in a wiring
//! by numbers that a message brought, which may name nothing.
//!
//! Slots are numbered depth first, so what lies below a slot is a run of numbers behind it (`SlotRuns`). The kinds of
//! messages and their codes are this project's own.
#![tactic(auto)]

pub mod frame_messages;
mod look_up;
mod messages;
mod site;
pub mod slot_runs;

pub use frame_messages::{
    announce, frame_at, frame_of, id_of, is_frame, refused_at_once, reply, tell_parts, to_owner,
    told_of, whose,
};
pub use look_up::{is_own, is_same_endpoint, is_sap, is_spp, joined_at, owner_of};
pub use messages::{Code, FrameSignal, frame_message, system};
pub use site::Site;
pub use slot_runs::{SlotRuns, container_of, is_fixed, is_imported, is_optional, is_part_of};
