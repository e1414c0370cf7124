//! What is asked of all controllers between two rounds.
ghost use Rattle.std.specs.Prelude.{◌≡◌};
ghost use Rattle.std.specs.List.{list_any, list_all};
ghost use Rattle.model_run.specs.run_ends.Ends.{waits};
ghost use Rattle.model_run.specs.run_loop.Plays.{rests};

use controller::Controller;

/// Whether a controller has nothing to post, and takes no more turns as things are.
fn is_at_rest(controller: &Controller, fuel: u64) -> bool
    ensures { result ≡ rests fuel controller.now }
{
    !controller.has_outbox() && (!controller.has_pending() || fuel <= controller.turns())
}

/// Whether all controllers are at rest.
pub(crate) fn have_stopped(controllers: &Vec<Controller>, fuel: u64) -> bool
    ensures { result ≡ list_all (rests fuel) controllers.now.items }
{
    controllers.iter().all(|k| is_at_rest(k, fuel))
}

/// Whether a message waits for some controller.
pub(crate) fn someone_waits(controllers: &Vec<Controller>) -> bool
    ensures { result ≡ list_any waits controllers.now.items }
{
    controllers.iter().any(|k| k.has_pending())
}
