//! Worked runs: small models, and the journals of their runs, entry by entry as the definitions of
//! the world give them. Each function is a law without a body; its proof computes the definitions.

ghost use Rattle.worked_examples.specs.worlds.Incarnate.{IncarnateIsComputed};
ghost use Rattle.worked_examples.specs.worlds.Stale.{StaleIsComputed};
ghost use Rattle.worked_examples.specs.worlds.Late.{LateIsComputed};
ghost use Rattle.worked_examples.specs.worlds.PingPong.{PingPongIsComputed};
ghost use Rattle.worked_examples.specs.worlds.Priorities.{PrioritiesIsComputed};
ghost use Rattle.worked_examples.specs.worlds.Parts.{PartsIsComputed};
ghost use Rattle.worked_examples.specs.worlds.Defer.{DeferIsComputed};
ghost use Rattle.worked_examples.specs.worlds.Broadcast.{BroadcastIsComputed};
ghost use Rattle.worked_examples.specs.worlds.Import.{ImportIsComputed};
ghost use Rattle.worked_examples.specs.worlds.Home.{HomeIsComputed};
ghost use Rattle.worked_examples.specs.worlds.Provider.{ProviderIsComputed};
ghost use Rattle.worked_examples.specs.worlds.Withdrawal.{WithdrawalIsComputed};
ghost use Rattle.worked_examples.specs.worlds.OtherPart.{OtherPartIsComputed};
ghost use Rattle.worked_examples.specs.worlds.NestedEnd.{NestedEndIsComputed};

/// Incarnate of an empty slot, of an occupied one, and with an index out of range.
pub fn boundaries_of_incarnate()
    ensures { IncarnateIsComputed }
{}

/// An actor is destroyed and created again while a message to it is on its way.
pub fn stale_message()
    ensures { StaleIsComputed }
{}

/// A message is on its way from one controller to another while its target is destroyed.
pub fn late_message_one_thread()
    ensures { LateIsComputed }
{}

/// Two actors on two controllers send each other a number.
pub fn ping_pong_two_controllers()
    ensures { PingPongIsComputed }
{}

/// A message of a higher priority overtakes one that came before it.
pub fn priority_after_arrival()
    ensures { PrioritiesIsComputed }
{}

/// Lines at two priorities, and a later part that begins when all is quiet.
pub fn priorities_and_parts()
    ensures { PartsIsComputed }
{}

/// Messages are kept for later, and come back in front, in their order.
pub fn defer_and_recall()
    ensures { DeferIsComputed }
{}

/// A send on all places of a port, one of which leads to a slot where nobody stands.
pub fn broadcast_with_unbound_place()
    ensures { BroadcastIsComputed }
{}

/// An actor is imported into one slot and refused to a second one, and deported again.
pub fn import_then_deport()
    ensures { ImportIsComputed }
{}

/// An imported actor is destroyed, and its importer is told.
pub fn home_destroyed_while_imported()
    ensures { HomeIsComputed }
{}

/// A user and a provider meet by a name, and a second provider is refused.
pub fn second_provider_of_a_name_refused()
    ensures { ProviderIsComputed }
{}

/// A user withdraws what it never registered.
pub fn withdraw_what_was_not_registered()
    ensures { WithdrawalIsComputed }
{}

/// What is fixed in an optional actor lives on another controller, and comes and goes with it.
pub fn part_on_another_controller()
    ensures { OtherPartIsComputed }
{}

/// An optional actor ends with all that ends with it, over two controllers.
pub fn nested_ends_over_two_controllers()
    ensures { NestedEndIsComputed }
{}

pub mod world_rows;
