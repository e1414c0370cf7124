//! The state of a frame service.
use crate::frame_imports::Imports;
use frame_lives::SlotLives;
use room_kinds::ControllerId;
use service_messages::SlotRuns;
use std::alloc::Global;

/// The frame service of controller `me`. Contracts see its state as the definitions' (`frame_in`).
///
/// After want of memory it and the outbox are unspecified: the controller has failed.
#[derive(Drop)]
pub struct FrameState {
    pub(crate) alloc: Global,
    pub(crate) me: ControllerId,
    pub(crate) runs: SlotRuns,
    pub(crate) lives: SlotLives,
    pub(crate) imports: Imports,
}
