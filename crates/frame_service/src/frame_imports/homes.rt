//! What the owner of a home does.
ghost use Rattle.std.specs.Prelude.{◌≡◌, ◌<◌, ◌++◌, ◌∷◌, [], length, OnOk};
ghost use Rattle.room_kinds.specs.declared.system.SysKind.{SysKind};
ghost use Rattle.actor_duties.specs.Messages.{reply, coded};
ghost use Rattle.actor_duties.specs.Imports.{import, deport};
ghost use Rattle.service_messages.specs.Shown.{code_of};
ghost use Rattle.frame_lives.specs.Shown.{shown};
ghost use Rattle.frame_service.specs.frame_imports.import_places.Lending.{lending, with_plugs};
ghost use Rattle.frame_service.specs.frame_imports.Numbered.{ArePortsNumbered};

use crate::frame_imports::frame_peers::Lent;
use crate::frame_imports::import_places::Imports;
use crate::frame_imports::ports::is_port_taken;
use frame_lives::SlotLives;
use room_kinds::{ControllerId, Endpoint, Msg, Outbox, Payload, SysKind};
use service_messages::{Code, Site, reply, whose};
use std::alloc::{AllocError, Global};

/// A home answers its import place.
fn answer(
    me: ControllerId,
    m: &Msg,
    kind: SysKind,
    home: Endpoint,
    place: Endpoint,
    payload: Payload,
    out: &mut Outbox,
) -> Result<(), AllocError>
    ensures { OnOk result (out.new ≡ out.old ++ reply me.0 m.now kind home place payload ∷ []) }
{
    out.push(reply(me, m, kind, home, place, payload))?;
    Ok(())
}

/// An Import is refused.
fn refuse(
    alloc: Global,
    me: ControllerId,
    m: &Msg,
    home: Endpoint,
    place: Endpoint,
    code: Code,
    out: &mut Outbox,
) -> Result<(), AllocError>
    ensures { OnOk result (out.new ≡ out.old
        ++ reply me.0 m.now SysKind.ImportRefused home place (coded (code_of code)) ∷ []) }
{
    let payload = Payload::from_slice(alloc, &[i64::from(code.number())])?;
    answer(me, m, SysKind::ImportRefused, home, place, payload, out)?;
    Ok(())
}

/// Import: an import place asks for a home. Where the home doesn't live in that generation it is refused
/// with code 4, and where a port is taken with code 5; else the import place is the home's youngest plug.
#[tactic(auto, unfolding(actor_duties::specs::Imports::import))]
pub fn import(
    imports: &mut Imports,
    site: &Site<'_>,
    lives: &SlotLives,
    m: &Msg,
    place: Endpoint,
    home: Endpoint,
    out: &mut Outbox,
) -> Result<(), AllocError>
    requires ports { ArePortsNumbered site.now.wiring.now }
    requires there { place.slot.0 < length site.now.wiring.now.slots }
    ensures now { OnOk result (lending imports.new
        ≡ with_plugs (lending imports.old) ((import site.now.wiring.now site.now.me.0
        (shown lives.now).lives (lending imports.old).plugs m.now place home).now)) }
    ensures sent { OnOk result (out.new ≡ out.old
        ++ (import site.now.wiring.now site.now.me.0 (shown lives.now).lives
        (lending imports.old).plugs m.now place home).sent) }
{
    if !lives.is_live(whose(home)) {
        refuse(site.alloc, site.me, m, home, place, Code::StaleId, out)?;
        return Ok(());
    }
    let plugs = imports.plugs_of(home.slot);
    if is_port_taken(site.wiring, plugs, whose(place), whose(home)) {
        refuse(site.alloc, site.me, m, home, place, Code::PortTaken, out)?;
        return Ok(());
    }
    imports.add_plug(home.slot, whose(place))?;
    let payload = Payload::empty(site.alloc);
    answer(site.me, m, SysKind::ImportDone, home, place, payload, out)?;
    Ok(())
}

/// Deport: an import place gives a home back. The plug goes, if it is there.
#[tactic(auto, unfolding(actor_duties::specs::Imports::deport))]
pub fn deport(
    imports: &mut Imports,
    site: &Site<'_>,
    lives: &SlotLives,
    m: &Msg,
    place: Endpoint,
    home: Endpoint,
    out: &mut Outbox,
) -> Result<(), AllocError>
    ensures now { OnOk result (lending imports.new
        ≡ with_plugs (lending imports.old) ((deport site.now.me.0 (shown lives.now).lives
        (lending imports.old).plugs m.now place home).now)) }
    ensures sent { OnOk result (out.new ≡ out.old
        ++ (deport site.now.me.0 (shown lives.now).lives (lending imports.old).plugs m.now place
        home).sent) }
{
    let payload = Payload::empty(site.alloc);
    if !lives.is_live(whose(home)) {
        answer(site.me, m, SysKind::DeportDone, home, place, payload, out)?;
        return Ok(());
    }
    imports.remove_plug(home.slot, whose(place));
    answer(site.me, m, SysKind::DeportDone, home, place, payload, out)?;
    Ok(())
}
