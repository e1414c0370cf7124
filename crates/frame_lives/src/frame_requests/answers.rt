//! What a container is told.
ghost use Rattle.std.specs.Prelude.{◌≡◌, ◌++◌, OnOk};
ghost use Rattle.actor_duties.specs.Lives.{create_done, create_refused, destroy_done};

use room_kinds::{Endpoint, Outbox};
use service_messages::{Code, FrameSignal, Site, id_of, told_of, whose};
use std::alloc::AllocError;

/// CreateDone from the new actor: its container is told `created`, with the actor's number.
#[tactic(auto, unfolding(actor_duties::specs::Lives::create_done))]
pub fn create_done(
    site: &Site<'_>,
    new: Endpoint,
    container: Endpoint,
    out: &mut Outbox,
) -> Result<(), AllocError>
    ensures { OnOk result (out.new
        ≡ out.old ++ create_done site.now.wiring.now site.now.me.0 new container) }
{
    let id = id_of(whose(new));
    let created = FrameSignal::Created;
    out.push(told_of(site, created, new, container, new.slot, id)?)?;
    Ok(())
}

/// CreateRefused from a slot: its container is told `refused`, with the code, 1 or 3. Another code says
/// nothing.
#[tactic(auto, unfolding(actor_duties::specs::Lives::create_refused))]
pub fn create_refused(
    site: &Site<'_>,
    slot: Endpoint,
    container: Endpoint,
    code: i64,
    out: &mut Outbox,
) -> Result<(), AllocError>
    ensures { OnOk result (out.new
        ≡ out.old ++ create_refused site.now.wiring.now site.now.me.0 slot container code) }
{
    if !(Code::Occupied.is(code) || Code::NotHere.is(code)) {
        return Ok(());
    }
    let refused = FrameSignal::Refused;
    out.push(told_of(site, refused, slot, container, slot.slot, code)?)?;
    Ok(())
}

/// DestroyDone from what ended: its container is told `destroyed`, with the number of the actor; or, from
/// the slot in generation 0, `refused`, with `NotHere`, where nothing was there. Another code, or another
/// generation, says nothing.
#[tactic(auto, unfolding(actor_duties::specs::Lives::destroy_done))]
pub fn destroy_done(
    site: &Site<'_>,
    gone: Endpoint,
    container: Endpoint,
    code: u32,
    out: &mut Outbox,
) -> Result<(), AllocError>
    ensures { OnOk result (out.new
        ≡ out.old ++ destroy_done site.now.wiring.now site.now.me.0 gone container code) }
{
    let none_stood = gone.generation.0 == 0;
    let (signal, last) = if code == 0 && !none_stood {
        (FrameSignal::Destroyed, id_of(whose(gone)))
    } else if code == u32::from(Code::NotHere.number()) && none_stood {
        (FrameSignal::Refused, i64::from(code))
    } else {
        return Ok(());
    };
    out.push(told_of(site, signal, gone, container, gone.slot, last)?)?;
    Ok(())
}
