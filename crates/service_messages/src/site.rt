//! What the services of a controller are handed together.

use crate::slot_runs::SlotRuns;
use room_kinds::ControllerId;
use room_wiring::Wiring;
use std::alloc::Global;

/// Where a service stands: what it takes memory from, the wiring, where the runs of its slots end, and
/// its controller.
#[derive(Clone, Copy)]
pub struct Site<'a> {
    pub alloc: Global,
    pub wiring: &'a Wiring,
    pub runs: &'a SlotRuns,
    pub me: ControllerId,
}
