//! What is so of the journals of every run of a plant that fits, over lines that fit: they are tied, each entry
//! is in its place, the environment's journal fits the wiring, what controllers post goes to controllers with
//! signals that are there, and what they tell of actors and of places is so of the wiring. So they fit the wiring.
//! There are no premises but these two.
//!
//! No code but calls of the laws that the owner of each slot of a model is a controller, that partners are each
//! other's, that ports of places that are joined, by the model or by name, have one protocol, and that the joined
//! places of an imported slot are those of end ports, which each slot of its class has.
ghost use Rattle.room_run.specs.fitting_journals.Fitting.{FittingRunsAreInPlace, FittingJournalsFit};

use law_definitions::imported_slots_have_end_ports;
use law_models::joined_ports::{joined_ports_have_one_protocol, linked_ports_have_one_protocol};
use law_models::settled_models::wirings::{owners_are_there, partners_are_mutual};

/// The journals of every run of a plant that fits, over lines that name what its wiring has, are tied and in
/// place; the environment's fits the wiring; what controllers post goes to controllers, from places of the
/// wiring, or places that were linked by name, to such places, with signals of the ports to which it goes, or kinds of
/// system messages; and who starts, acts, comes up or goes down is an actor of the wiring, in a state of its class,
/// whose notes name its own ports.
pub fn fitting_runs_journals()
    ensures { FittingRunsAreInPlace }
{
    owners_are_there();
    partners_are_mutual();
    joined_ports_have_one_protocol();
    linked_ports_have_one_protocol();
    imported_slots_have_end_ports();
}

/// So the journals of such a run fit the wiring: all that they name is there.
pub fn fitting_journals_fit()
    ensures { FittingJournalsFit }
{
    fitting_runs_journals();
}
