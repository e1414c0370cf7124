//! What an imported slot holds.
ghost use Rattle.std.specs.Prelude.{◌≡◌};
ghost use Rattle.actor_duties.specs.Words.{is_incarnation};
ghost use Rattle.actor_duties.specs.Imports.{is_asking, is_held, is_leaving, tied_home};
ghost use Rattle.frame_service.specs.frame_imports.frame_peers.Parts.{held_home};
ghost use Rattle.frame_service.specs.frame_imports.import_places.Places.{place_of};
ghost use Rattle.frame_service.specs.Places.{place_shown};

use frame_lives::Blank;
use room_kinds::{Incarnation, PlaceState};
use service_messages::id_of;
use std::alloc::Global;

/// What an imported slot of a live container holds: nothing; or an actor of another slot, its home, that
/// it asks for, holds or gives back.
#[derive(Clone, Copy)]
pub enum ImportPlace {
    Empty,
    Asking(Incarnation),
    Held(Incarnation),
    Leaving(Incarnation),
}

impl Blank for ImportPlace {
    ghost use Rattle.frame_service.specs.declared.frame_imports.import_places.place.ImportPlace.TheVariants.{Empty};

    ghost no_item = { Empty };

    fn blank(_alloc: Global) -> ImportPlace {
        ImportPlace::Empty
    }
}

/// Whether two actors are one.
pub fn is_same_actor(a: Incarnation, b: Incarnation) -> bool
    ensures { result ≡ is_incarnation a b }
{
    a.slot == b.slot && a.generation == b.generation
}

impl ImportPlace {
    /// The home that is held.
    pub fn held(self) -> Option<Incarnation>
        ensures { result ≡ held_home (place_of self) }
    {
        match self {
            ImportPlace::Held(home) => Some(home),
            ImportPlace::Empty | ImportPlace::Asking(_) | ImportPlace::Leaving(_) => None,
        }
    }

    /// The home that is asked for or held.
    pub fn tied(self) -> Option<Incarnation>
        ensures { result ≡ tied_home (place_of self) }
    {
        match self {
            ImportPlace::Asking(home) | ImportPlace::Held(home) => Some(home),
            ImportPlace::Empty | ImportPlace::Leaving(_) => None,
        }
    }

    /// Whether this home is asked for.
    pub fn asks_for(self, home: Incarnation) -> bool
        ensures { result ≡ is_asking home (place_of self) }
    {
        match self {
            ImportPlace::Asking(asked) => is_same_actor(asked, home),
            ImportPlace::Empty | ImportPlace::Held(_) | ImportPlace::Leaving(_) => false,
        }
    }

    /// Whether this home is held.
    pub fn holds(self, home: Incarnation) -> bool
        ensures { result ≡ is_held home (place_of self) }
    {
        match self {
            ImportPlace::Held(held) => is_same_actor(held, home),
            ImportPlace::Empty | ImportPlace::Asking(_) | ImportPlace::Leaving(_) => false,
        }
    }

    /// Whether this home is given back.
    pub fn gives_back(self, home: Incarnation) -> bool
        ensures { result ≡ is_leaving home (place_of self) }
    {
        match self {
            ImportPlace::Leaving(leaving) => is_same_actor(leaving, home),
            ImportPlace::Empty | ImportPlace::Asking(_) | ImportPlace::Held(_) => false,
        }
    }

    /// What the place shows: its home as the number that actions have of it.
    pub fn shown(self) -> PlaceState
        ensures { result ≡ place_shown (place_of self) }
    {
        match self {
            ImportPlace::Empty => PlaceState::Empty,
            ImportPlace::Asking(home) => PlaceState::Asking(id_of(home).unsigned_abs()),
            ImportPlace::Held(home) => PlaceState::Held(id_of(home).unsigned_abs()),
            ImportPlace::Leaving(home) => PlaceState::Leaving(id_of(home).unsigned_abs()),
        }
    }
}
