//! What the owner of an import place does at an answer.
ghost use Rattle.std.specs.Prelude.{◌≡◌, ◌<◌, ◌++◌, OnOk};
ghost use Rattle.actor_duties.specs.Imports.{container_frame, is_container_live};
ghost use Rattle.service_messages.specs.Shown.{signal_of};
ghost use Rattle.frame_lives.specs.Shown.{shown};
ghost use Rattle.frame_service.specs.frame_imports.import_places.Places.{place_of};
ghost use Rattle.frame_service.specs.frame_imports.import_places.Lending.{lending, with_places};
ghost use Rattle.frame_service.specs.frame_imports.Answered.{is_awaited, place_after, signal_for, told_last, answered};

use crate::frame_imports::import_places::{ImportPlace, Imports};
use frame_lives::SlotLives;
use room_kinds::{Endpoint, Outbox, SlotId};
use room_wiring::Wiring;
use service_messages::{Code, FrameSignal, Site, container_of, frame_at, id_of, told_of, whose};
use std::alloc::AllocError;

/// What the owner of a home says to an import place.
#[derive(Clone, Copy)]
pub enum What {
    /// ImportDone: the home is lent.
    Lent,
    /// ImportRefused: it isn't, for this code. A code that no row sends says nothing.
    Refused(i64),
    /// ImportEnded: the home has ended.
    Ended,
    /// DeportDone: the home is back.
    Back,
}

/// An answer from the owner of a home to an import place.
#[derive(Clone, Copy)]
pub struct Answer {
    pub home: Endpoint,
    pub place: Endpoint,
    pub what: What,
}

impl Answer {
    /// Whether the import place waits for this answer, by what it holds.
    fn is_awaited(self, held: ImportPlace) -> bool
        ensures { result ≡ is_awaited self (place_of held) }
    {
        let home = whose(self.home);
        match self.what {
            What::Lent => held.asks_for(home),
            What::Refused(code) => {
                (Code::StaleId.is(code) || Code::PortTaken.is(code)) && held.asks_for(home)
            }
            What::Ended => held.holds(home),
            What::Back => held.gives_back(home),
        }
    }

    /// What the import place holds after it.
    fn place_after(self) -> ImportPlace
        ensures { place_of result ≡ place_after self }
    {
        match self.what {
            What::Lent => ImportPlace::Held(whose(self.home)),
            What::Refused(_) | What::Ended | What::Back => ImportPlace::Empty,
        }
    }

    /// The signal by which the container is told.
    fn signal(self) -> FrameSignal
        ensures { signal_of result ≡ signal_for self }
    {
        match self.what {
            What::Lent => FrameSignal::Imported,
            What::Refused(_) => FrameSignal::Refused,
            What::Ended => FrameSignal::Ended,
            What::Back => FrameSignal::Deported,
        }
    }

    /// The last number that the container is told: a code, or the home's number.
    fn told_last(self) -> i64
        ensures { result ≡ told_last self }
    {
        match self.what {
            What::Refused(code) => code,
            What::Lent | What::Ended | What::Back => id_of(whose(self.home)),
        }
    }
}

/// The container of an import place, in the place's generation.
fn container_frame(wiring: &Wiring, place: Endpoint) -> Endpoint
    ensures { result ≡ container_frame wiring.now place }
{
    match container_of(wiring, place.slot) {
        Some(container) => frame_at(container, place.generation),
        None => frame_at(SlotId(0), place.generation),
    }
}

/// Whether the container of an import place lives.
fn is_container_live(wiring: &Wiring, lives: &SlotLives, place: Endpoint) -> bool
    ensures { result ≡ is_container_live wiring.now (shown lives.now).lives place }
{
    lives.is_live(whose(container_frame(wiring, place)))
}

/// An answer to an import place: where its container lives and the place waits for the answer, it holds
/// something else, and its container is told. Who asked for the home holds it, and is told `imported`, or
/// nothing, and is told `refused` with the code; who holds the home holds nothing, and is told `ended`;
/// who gave it back holds nothing, and is told `deported`.
pub fn hear(
    imports: &mut Imports,
    site: &Site<'_>,
    lives: &SlotLives,
    answer: Answer,
    out: &mut Outbox,
) -> Result<(), AllocError>
    ensures now { OnOk result (lending imports.new ≡ with_places (lending imports.old) ((answered
        site.now.wiring.now site.now.me.0 (shown lives.now).lives (lending imports.old).places
        answer).now)) }
    ensures sent { OnOk result (out.new ≡ out.old
        ++ (answered site.now.wiring.now site.now.me.0 (shown lives.now).lives
        (lending imports.old).places answer).sent) }
{
    let Answer { home, place, .. } = answer;
    if is_container_live(site.wiring, lives, place)
        && answer.is_awaited(imports.place(place.slot))
    {
        let container = container_frame(site.wiring, place);
        let last = answer.told_last();
        imports.set_place(place.slot, answer.place_after())?;
        out.push(told_of(site, answer.signal(), home, container, place.slot, last)?)?;
    }
    Ok(())
}
