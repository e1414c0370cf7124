//! Whether a message waits for a controller, and whether all is quiet.
ghost use Rattle.std.specs.Prelude.{◌≡◌, ◌<◌, ◌↔◌, List, length, IsTrue};
ghost use Rattle.std.specs.List.{list_any};
ghost use Rattle.actor_merge.specs.Parties.{Line};
ghost use Rattle.actor_merge.specs.World.{World, IsQuiet};
ghost use Rattle.actor_world.specs.Body.{Body};
ghost use Rattle.actor_world.specs.Journals.{HasMessage};
ghost use Rattle.chart_behaviour.specs.ModelCharts.{Actor};
ghost use Rattle.controller_actors.specs.declared.plant.Plant.{Plant};
ghost use Rattle.controller.specs.Controllers.{run_plant};
ghost use Rattle.controller.specs.quiet_counts.Counts.{keeps_messages};
ghost use Rattle.controller.specs.quiet_counts.Stands.{StandsAt};

use crate::quiet_counts::counted::Counted;
use crate::{Controller, Environment};
use room_kinds::ControllerId;

/// Whether a controller itself keeps a message: one that waits for its turn, or one to be posted.
fn keeps_messages(controller: &Controller) -> bool
    ensures { result ≡ keeps_messages controller.now }
{
    controller.has_pending() || controller.has_outbox()
}

/// Whether one of these controllers keeps a message.
fn someone_keeps(all: &[Controller]) -> bool
    ensures { result ≡ list_any keeps_messages all.now }
{
    all.iter().any(keeps_messages)
}

/// Whether a message waits for controller `c`, in a lane to it or in the controller itself, where these are
/// all controllers of a world in order of number. It takes no memory.
pub fn has_message(all: &[Controller], environment: &Environment, c: ControllerId) -> bool
    requires { c.0 < length all.now }
    ensures { (plant : Plant) (w : World (Body Actor)) → StandsAt plant all.now environment.now w
        → IsTrue result ↔ HasMessage w c.0 }
{
    let controller = &all[usize::from(c.0)];
    let posted = Counted::PostsTo(c).in_all(all, environment);
    let fetched = Counted::Fetches.in_journal(controller.entries());
    keeps_messages(controller) || posted != fetched
}

/// Whether all is quiet: no message is in a lane, and no controller keeps one, where these are all
/// controllers of a world in order of number. It takes no memory.
pub fn is_quiet(all: &[Controller], environment: &Environment) -> bool
    ensures { (plant : Plant) (lines : List Line) (w : World (Body Actor))
        → StandsAt plant all.now environment.now w
        → IsTrue result ↔ IsQuiet (run_plant plant lines) w }
{
    let posted = Counted::Posts.in_all(all, environment);
    let fetched = Counted::Fetches.in_all(all, environment);
    posted == fetched && !someone_keeps(all)
}
