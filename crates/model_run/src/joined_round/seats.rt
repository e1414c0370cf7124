//! Controllers to their seats and back.
ghost use Rattle.std.specs.Prelude.{◌≡◌, ◌<◌, map, length, IfOk};
ghost use Rattle.model_run.specs.joined_round.Seats.{AreSeated};

use crate::joined_round::seat::Seat;
use controller::Controller;
use std::alloc::{AllocError, Global};
use std::collections::VecDeque;

/// Each of so many controllers with its end, in order of number.
pub(crate) fn seated<M: Drop>(
    alloc: Global,
    count: u8,
    controllers: Vec<Controller>,
    ends: Vec<M>,
) -> Result<Vec<Seat<M>>, AllocError>
    requires controllers { length controllers.items ≡ count }
    requires ends { length ends.items ≡ count }
    ensures { IfOk result (λ seats. AreSeated controllers.items ends.items seats.items) }
{
    let mut controllers = VecDeque::from(controllers);
    let mut ends = VecDeque::from(ends);
    let mut seats = Vec::new(alloc);
    for number in 0..count {
        let Some(controller) = controllers.pop_front() else {
            unreachable!()
        };
        let Some(end) = ends.pop_front() else {
            unreachable!()
        };
        seats.push(Seat {
            number,
            controller,
            end,
        })?;
    }
    Ok(seats)
}

/// The controllers and the ends of seats, in order.
pub(crate) fn unseated<M: Drop>(
    alloc: Global,
    seats: Vec<Seat<M>>,
) -> Result<(Vec<Controller>, Vec<M>), AllocError>
    ensures controllers { IfOk result (λ r. r.0.items ≡ map (λ s. s.controller) seats.items) }
    ensures ends { IfOk result (λ r. r.1.items ≡ map (λ s. s.end) seats.items) }
{
    let mut seats = VecDeque::from(seats);
    let mut controllers = Vec::new(alloc);
    let mut ends = Vec::new(alloc);
    while let Some(seat) = seats.pop_front() {
        controllers.push(seat.controller)?;
        ends.push(seat.end)?;
    }
    Ok((controllers, ends))
}
