//! Controllers are given up, one after another.
ghost use Rattle.std.specs.Prelude.{◌≡◌, ◌++◌, true, [], map, length, IfOk, OnOk};
ghost use Rattle.actor_world.specs.Journals.{left};
ghost use Rattle.model_run.specs.run_ends.Told.{AreTold};

use controller::Controller;
use journal::{Journal, Left};
use room_kinds::{ControllerId, Msg};
use std::alloc::{AllocError, Global};

/// The journals of all controllers in order of number, and what was left, in order of receiver.
#[derive(Drop)]
pub(crate) struct Finished {
    pub(crate) journals: Vec<Journal>,
    pub(crate) left: Vec<Left>,
}

/// These messages are left for a controller, pending.
fn leave_all(all: &mut Vec<Left>, to: ControllerId, mut waiting: Vec<Msg>) -> Result<(), AllocError>
    ensures { OnOk result (all.new.items ≡ all.old.items ++ map (left to.0 true) waiting.items) }
{
    waiting.reverse();
    while let Some(msg) = waiting.pop() {
        all.push(Left {
            to,
            pending: true,
            msg,
        })?;
    }
    Ok(())
}

/// Each controller gives up its journal and the messages that wait for its turns.
pub(crate) fn finish_all(
    alloc: Global,
    count: u8,
    mut controllers: Vec<Controller>,
) -> Result<Finished, AllocError>
    requires { length controllers.items ≡ count }
    ensures { IfOk result (λ f. AreTold count controllers.items [] f.journals.items f.left.items) }
{
    let mut journals = Vec::new(alloc);
    let mut left = Vec::new(alloc);
    controllers.reverse();
    for me in 0..count {
        let Some(controller) = controllers.pop() else {
            unreachable!()
        };
        let (journal, waiting) = controller.finish()?;
        leave_all(&mut left, ControllerId(me), waiting)?;
        journals.push(journal)?;
    }
    Ok(Finished { journals, left })
}
