//! Worlds that a run of a model leads to, in the middle of it too.
//!
//! `actor_world` says what is so of every run of the world, and `law_names` what all controllers agree on where
//! it is quiet, under premises on the actors and on the wiring. Models that keep all rules and have no fault
//! meet them. No code: the laws.

ghost use Rattle.law_models.specs.quiet_worlds.Worlds.{ModelWorldsStand, QuietModelWorldsAgree, QuietModelWorldsAreAgreed};

/// Of every world that a run of a model leads to: journals tell how lives stand, each turn dispatched its
/// message to whom it was for, who lived then, directories tell what was created, and a fetched message is in
/// one place alone.
pub fn worlds_stand()
    ensures { ModelWorldsStand }
{}

/// Wherever a run of a model is quiet, in the middle of it too, all controllers agree. `lives`: directories tell
/// what lives, the parts of an optional slot live with it, and a live optional slot has a live container.
/// `agreed`: so they do on imports, on who is linked by name, and on peers.
pub fn quiet_worlds_are_agreed()
    ensures lives { QuietModelWorldsAgree }
    ensures agreed { QuietModelWorldsAreAgreed }
{}
