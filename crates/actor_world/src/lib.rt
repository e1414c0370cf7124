//! The one world of a model, in which one event happens at a time: what a turn makes of a message, how
//! a run starts, and what the journals of a run must be. Laws that hold of every run are functions
//! without a body, whose contract is the law; they hold over any kind `M` of machine.
#![tactic(auto)]

ghost use Rattle.actor_world.specs.Directories.{DirectoriesTellCreated};
ghost use Rattle.actor_world.specs.Life.{IncarnationsLiveOnce, RunsLiveOnce, ReplaysTellLives, RunsTellLives, DispatchesAsMeant};

/// Each incarnation is created once at most, and destroyed once at most and not before it was created: one
/// that lives or has lived has one create entry, and one destroy entry if it lives no more, in the journal of
/// its slot's owner; every other has neither, and no other journal has any of them. A message is dispatched to an incarnation that was created before and not destroyed before, that
/// stands in the message's slot, and that has the message's generation, unless that is 0.
pub fn lives_once<M>()
    ensures replays { IncarnationsLiveOnce M }
    ensures runs { RunsLiveOnce M }
    ensures tells { ReplaysTellLives M }
    ensures runs_tell { RunsTellLives M }
    ensures dispatches { DispatchesAsMeant M }
{}

/// A generation that a directory tells was created before, by the owner of its slot.
pub fn directories_tell_created<M>()
    ensures { DirectoriesTellCreated M }
{}

pub mod world_laws;

pub use world_laws::{downs_tell_lost, stands_once};
