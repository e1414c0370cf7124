//! The start of a run: all controllers of a plant, started one after another.
ghost use Rattle.std.specs.Prelude.{[], IfOk};
ghost use Rattle.model_run.specs.run_so_far.SoFar.{RunSoFar};

use controller::{Controller, Plant};
use room_kinds::ControllerId;
use std::alloc::{AllocError, Global};

/// All controllers of a plant, in order of number, each with so much fuel: a run so far, whatever items come.
pub fn start_all(alloc: Global, plant: &Plant, fuel: u64) -> Result<Vec<Controller>, AllocError>
    ensures { IfOk result (λ ks.
        RunSoFar plant.now [] fuel ks.items (record { clock = 0; posted = 0 }) []) }
{
    let mut controllers = Vec::new(alloc);
    for me in 0..plant.wiring.controller_count() {
        let controller = Controller::start(alloc, plant, ControllerId(me), fuel)?;
        controllers.push(controller)?;
    }
    Ok(controllers)
}
