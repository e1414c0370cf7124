//! Laws that hold of every run of the world, over any kind `M` of machine: functions without a body, whose
//! contract is the law.
//!
//! Their premises: what a behaviour notes by itself says nothing of lives, and a behaviour says of a message
//! that it is deferred exactly where its commands have a `defer`. What is deferred and recalled is ROOM's (Selic, Gullekson and Ward 1994); the
//! exact rules are this project's own.

ghost use Rattle.actor_world.specs.world_laws.Deferrals.{KeptByDeferrer};
ghost use Rattle.actor_world.specs.world_laws.Example.{ExampleIsComputed};
ghost use Rattle.actor_world.specs.world_laws.Losses.{DownsTellLost};
ghost use Rattle.actor_world.specs.world_laws.OnePlace.{RunsStandOnce};
ghost use Rattle.actor_world.specs.world_laws.Whereabouts.{FetchedAddsUp};

/// A fetched message is in one place alone: in a pending list, in the deferred list of one live
/// incarnation, or done with, by a turn that did not defer it or by the destroy entry of the incarnation
/// that deferred it.
///
/// `replays`: over every replay of a controller the counts add up, whatever messages one counts. `runs`:
/// over every run of the world no message is fetched twice, so its places exclude each other. `keepers`:
/// what a live incarnation keeps, it deferred itself.
pub fn stands_once<M>()
    ensures replays { FetchedAddsUp M }
    ensures runs { RunsStandOnce M }
    ensures keepers { KeptByDeferrer M }
{}

/// A note that an incarnation went down tells how many messages it had deferred, which are lost.
pub fn downs_tell_lost<M>()
    ensures { DownsTellLost M }
{}

/// An actor defers two messages, gets one of them back, defers it again, and is destroyed: where each
/// message is, as the definitions give it.
pub fn worked_example()
    ensures { ExampleIsComputed }
{}
