//! A seat of a controller.
ghost use Rattle.std.specs.Prelude.{◌≡◌, OnOk};

use crate::joined_round::halves::Works;
use crate::run_worker::work;
use crate::worker_pauses::WorkerPauses;
use controller::{Controller, Plant};
use mail_core::Mail;
use room_outside::{ControllerNo, Gate};
use std::alloc::AllocError;

/// A controller with its end of the mail, while its worker may be on another thread.
#[derive(Drop)]
pub(crate) struct Seat<M> {
    /// The number under which it enters the gate.
    pub(crate) number: ControllerNo,
    pub(crate) controller: Controller,
    pub(crate) end: M,
}

/// What the workers of a round share.
#[derive(Drop)]
pub(crate) struct Shared<'g, G> {
    pub(crate) gate: &'g G,
    /// Whether there is only one of them.
    pub(crate) is_one: bool,
}

impl<'g, M: Mail<Office = ()>, G: Gate> Works<Plant, Shared<'g, G>> for Seat<M> {
    ghost use Rattle.model_run.specs.joined_round.Seats.{CanWork, HasWorked};

    ghost can = { CanWork M.log M.tied };

    ghost did = { HasWorked M.log M.tied };

    fn work(&mut self, plant: &Plant, shared: &Shared<'g, G>) -> Result<(), AllocError> {
        let mut pauses = WorkerPauses::new(shared.is_one);
        let worked = work(
            self.number,
            &mut self.controller,
            plant,
            &mut (),
            &mut self.end,
            shared.gate,
            &mut pauses,
        );
        self.end.leave();
        worked
    }
}
