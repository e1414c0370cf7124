//! Workers on threads, by halves.
ghost use Rattle.std.specs.Prelude.{◌≡◌, ◌<◌, length, All, OnOk};
ghost use denote.Param.Send.{IsSend, IsSync};
ghost use Rattle.model_run.specs.joined_round.Seats.{Each};

use std::alloc::AllocError;
use std::thread::{Threads, join_mut};

/// A seat at which one worker works, with a plant and a gate that all workers share.
pub(crate) trait Works<P, G>: Sized {
    /// With this plant the worker can work.
    ghost can: { P → Self → Type 0 };

    /// What its work comes to.
    ghost did: { P → Self → Self → Type 0 };

    fn work(&mut self, plant: &P, gate: &G) -> Result<(), AllocError>
        requires { can plant.now self.old }
        ensures { OnOk result (did plant.now self.old self.new) };
}

/// All workers at once. The seats are halved at each step, and one half goes to another thread. If a worker
/// finds no memory the others go on to their end, and the answer is its refusal.
#[cycle(halves)]
pub(crate) fn work_halves<S: Works<P, G> + Send, P: Sync, G: Sync, R: Threads + Sync>(
    rt: &R,
    plant: &P,
    gate: &G,
    seats: &mut [S],
) -> Result<(), AllocError>
    requires { All (S.can plant.now) seats.old }
    ensures { OnOk result (Each (S.did plant.now) seats.old seats.new) }
{
    match seats {
        [] => Ok(()),
        [seat] => seat.work(plant, gate),
        _ => {
            let (front, back) = seats.split_at_mut(seats.len() / 2);
            work_both(rt, plant, gate, front, back)
        }
    }
}

/// Two halves at once. It is apart from `work_halves`, so that what the threads may rely on is what this
/// function is given.
#[cycle(halves)]
fn work_both<S: Works<P, G> + Send, P: Sync, G: Sync, R: Threads + Sync>(
    rt: &R,
    plant: &P,
    gate: &G,
    front: &mut [S],
    back: &mut [S],
) -> Result<(), AllocError>
    requires some { (0 < length front.old) × (0 < length back.old) }
    requires front { All (S.can plant.now) front.old }
    requires back { All (S.can plant.now) back.old }
    ensures front { OnOk result (Each (S.did plant.now) front.old front.new) }
    ensures back { OnOk result (Each (S.did plant.now) back.old back.new) }
{
    let mut first = || -> Result<(), AllocError>
        requires { IsSync R.row
            × IsSync P.row
            × IsSync G.row
            × IsSend S.row
            × All (S.can plant.now) front.now }
        ensures { OnOk result (Each (S.did plant.entry.now) front.entry.now front.exit.now) }
    { work_halves(rt, plant, gate, front) };
    let mut second = || -> Result<(), AllocError>
        requires { IsSync R.row
            × IsSync P.row
            × IsSync G.row
            × IsSend S.row
            × All (S.can plant.now) back.now }
        ensures { OnOk result (Each (S.did plant.entry.now) back.entry.now back.exit.now) }
    { work_halves(rt, plant, gate, back) };
    let (one, other) = join_mut(rt, &mut first, &mut second);
    one?;
    other
}
