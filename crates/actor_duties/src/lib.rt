//! The duties of controllers and the commands of actors: what each does to the lives of actors, to
//! directories, imports and names, and which messages it sends.
#![tactic(auto)]

ghost use Rattle.actor_duties.specs.Places.{TableStaysOrderly};

/// The name table stays in order: a service without a provider has no links; with one, all its users
/// are linked, at places that rise in the order of the users, behind the provider's static places.
pub fn places_ascend()
    ensures { TableStaysOrderly }
{}
