//! What is left in the world of a replay.
ghost use Rattle.std.specs.Prelude.{◌≡◌, List, ◌++◌, ◌↔◌, ◌<◌, ◌≤◌, true, false, drop, length, map, option_copied, slice_get, IsTrue};
ghost use Rattle.actor_merge.specs.Mail.{lane};
ghost use Rattle.actor_merge.specs.Parties.{Line as RunLine};
ghost use Rattle.actor_world.specs.Journals.{left, left_of};
ghost use Rattle.controller_actors.specs.declared.plant.Plant.{Plant as AnyPlant};
ghost use Rattle.controller.specs.Controllers.{run_plant};
ghost use Rattle.controller_mail.specs.MailState.{pending_of};
ghost use Rattle.room_verify.specs.Lanes.{lanes_in};
ghost use Rattle.room_verify.specs.Lefts.{Strips, coming_at, coming_to, waiting_for};
ghost use Rattle.room_verify.specs.Worlds.{Stands, world_in};

use crate::lanes::LaneTable;
use crate::replay::Replay;
use controller::{ControllerState, Plant};
use journal::Left;
use room_kinds::{ControllerId, Msg, Priority};

/// How many priorities there are.
const PRIORITIES: u8 = 6;

/// What is told behind so many messages.
fn behind(told: &[Left], count: usize) -> &[Left]
    requires { count ≤ length told.now }
    ensures { result.now ≡ drop count told.now }
{
    let (_, rest) = told.split_at(count);
    rest
}

/// Whether this is told of a message: that it is left for a controller, pending or in a lane.
fn tells(told: &Left, to: ControllerId, pending: bool, msg: &Msg) -> bool
    ensures { IsTrue result ↔ (told.now ≡ left to.0 pending msg.now) }
{
    told.to == to && told.pending == pending && told.msg.is_same(msg)
}

/// One of the messages that wait for a controller's turns at a priority, by how many of that priority are older.
fn waiting(controller: &ControllerState, prio: Priority, i: usize) -> Option<&Msg>
    ensures { option_copied result
        ≡ slice_get (pending_of controller.now.mail.pending prio.0) i }
{
    controller.mail().waiting(prio.0, i)
}

/// What is told behind the messages of a pending list of a controller, if these are told first.
fn behind_pending<'l>(
    told: &'l [Left],
    c: ControllerId,
    controller: &ControllerState,
    prio: Priority,
) -> Option<&'l [Left]>
    ensures { Strips told.now
        (map (left c.0 true) (pending_of controller.now.mail.pending prio.0))
        (option_copied result) }
{
    for i in 0..told.len() {
        let Some(m) = waiting(controller, prio, i) else {
            return Some(behind(told, i));
        };
        if !tells(&told[i], c, true, m) {
            return None;
        }
    }
    match waiting(controller, prio, told.len()) {
        Some(_more) => None,
        None => Some(behind(told, told.len())),
    }
}

/// What is told behind the messages of a lane, if these are told first.
fn behind_lane<'l>(
    told: &'l [Left],
    lanes: &LaneTable,
    sender: ControllerId,
    c: ControllerId,
    prio: Priority,
) -> Option<&'l [Left]>
    ensures { Strips told.now
        (map (left c.0 false) (lanes_in lanes.now (lane sender.0 c.0 prio.0)))
        (option_copied result) }
{
    for i in 0..told.len() {
        let Some(m) = lanes.message(sender, c, prio, i) else {
            return Some(behind(told, i));
        };
        if !tells(&told[i], c, false, m) {
            return None;
        }
    }
    match lanes.message(sender, c, prio, told.len()) {
        Some(_more) => None,
        None => Some(behind(told, told.len())),
    }
}

/// What is told behind the messages that wait for a controller's turns, if these are told first.
fn behind_waiting<'l>(
    told: &'l [Left],
    c: ControllerId,
    controller: &ControllerState,
) -> Option<&'l [Left]>
    ensures { Strips told.now (waiting_for c.0 controller.now) (option_copied result) }
{
    let mut rest = told;
    for prio in 0..PRIORITIES {
        rest = behind_pending(rest, c, controller, Priority(prio))?;
    }
    Some(rest)
}

/// What is told behind the messages on their way to a controller at a priority, those of the environment first, if
/// these are told first.
fn behind_senders<'l>(
    told: &'l [Left],
    lanes: &LaneTable,
    c: ControllerId,
    prio: Priority,
) -> Option<&'l [Left]>
    ensures { Strips told.now (coming_at c.0 lanes.now prio.0) (option_copied result) }
{
    let environment = lanes.controllers();
    let first = behind_lane(told, lanes, ControllerId(environment), c, prio)?;
    let mut rest = first;
    for sender in 0..environment {
        rest = behind_lane(rest, lanes, ControllerId(sender), c, prio)?;
    }
    Some(rest)
}

/// What is told behind the messages on their way to a controller, if these are told first.
fn behind_lanes<'l>(told: &'l [Left], lanes: &LaneTable, c: ControllerId) -> Option<&'l [Left]>
    ensures { Strips told.now (coming_to c.0 lanes.now) (option_copied result) }
{
    let mut rest = told;
    for prio in 0..PRIORITIES {
        rest = behind_senders(rest, lanes, c, Priority(prio))?;
    }
    Some(rest)
}

/// What is told behind all that is left for a controller, if that is told first.
fn behind_controller<'l>(
    told: &'l [Left],
    lanes: &LaneTable,
    c: ControllerId,
    controller: &ControllerState,
) -> Option<&'l [Left]>
    ensures { Strips told.now (waiting_for c.0 controller.now ++ coming_to c.0 lanes.now)
        (option_copied result) }
{
    let rest = behind_waiting(told, c, controller)?;
    behind_lanes(rest, lanes, c)
}

impl Replay {
    /// What is told behind all that is left in the world, if that is told first.
    fn behind_all<'l>(&self, told: &'l [Left]) -> Option<&'l [Left]>
        requires { length self.now.controllers.items < 256 }
        ensures { (plant : AnyPlant) (lines : List RunLine) → Stands plant self.now
            → Strips told.now (left_of (run_plant plant lines) (world_in plant self.now))
            (option_copied result) }
    {
        let mut rest = told;
        for c in 0..self.controllers.len() {
            let controller = &self.controllers[c];
            rest = behind_controller(rest, &self.lanes, ControllerId(c as u8), controller)?;
        }
        Some(rest)
    }

    /// Whether these messages are what is left in the world, by receiver.
    pub(crate) fn leaves(&self, plant: &Plant, told: &[Left]) -> bool
        requires { Stands plant.now self.now }
        ensures { (lines : List RunLine) → IsTrue result
            ↔ (told.now ≡ left_of (run_plant plant.now lines) (world_in plant.now self.now)) }
    {
        let _plant = plant;
        match self.behind_all(told) {
            Some(rest) => rest.is_empty(),
            None => false,
        }
    }
}
