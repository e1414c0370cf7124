//! The commands `import` and `deport`.
ghost use Rattle.std.specs.Prelude.{◌≡◌, ◌<◌, ◌++◌, ◌∷◌, [], Some, length, option_map, OnOk};
ghost use Rattle.actor_duties.specs.State.{Held};
ghost use Rattle.actor_duties.specs.Words.{class_number, of_id};
ghost use Rattle.actor_duties.specs.Messages.{refused_at_once, code_number};
ghost use Rattle.actor_duties.specs.Frame.{busy_code, is_same_class, import_code, asks_for, import_with, import_into, import_command, deport_from, deport_command};
ghost use Rattle.service_messages.specs.Sites.{IsSite};
ghost use Rattle.service_messages.specs.Shown.{code_of};
ghost use Rattle.frame_service.specs.frame_imports.import_places.Places.{place_of};
ghost use Rattle.frame_service.specs.frame_imports.import_places.Lending.{lending, with_places};
ghost use Rattle.frame_service.specs.frame_imports.Homes.{home_there};

use crate::frame_imports::frame_forms::is_home;
use crate::frame_imports::import_places::{ImportPlace, Imports};
use room_kinds::{ControllerId, Generation, Incarnation, Outbox, Payload, SlotId, SysKind};
use room_wiring::Wiring;
use service_messages::{Code, Site, frame_at, frame_of, refused_at_once, to_owner};
use std::alloc::{AllocError, Global};

/// What an actor's command names: one of its references, and an index as the action gave it.
#[derive(Clone, Copy)]
pub struct Asked {
    pub actor: Incarnation,
    pub reference: u16,
    pub index: i64,
}

/// A command is refused: its actor is told so.
fn refuse(
    alloc: Global,
    me: ControllerId,
    asked: Asked,
    code: Code,
    out: &mut Outbox,
) -> Result<(), AllocError>
    ensures { OnOk result (out.new ≡ out.old
        ++ refused_at_once me.0 asked.actor asked.reference asked.index (code_number (code_of code))
        ∷ []) }
{
    out.push(refused_at_once(alloc, me, asked.actor, asked.reference, asked.index, code)?)?;
    Ok(())
}

/// The actor that a number stands for, if its slot is there.
fn home_of(wiring: &Wiring, id: i64) -> Option<Incarnation>
    ensures { result ≡ home_there wiring.now (of_id id) }
{
    let Ok(number) = u64::try_from(id) else {
        return None;
    };
    let slot = number / 1_048_576;
    if slot >= u64::from(wiring.slot_count()) {
        return None;
    }
    Some(Incarnation {
        slot: SlotId(slot as u16),
        generation: Generation((number % 1_048_576) as u32),
    })
}

fn class_number(wiring: &Wiring, slot: SlotId) -> Option<u16>
    ensures { result ≡ class_number wiring.now slot.0 }
{
    match wiring.get_slot(slot) {
        Some(found) => Some(found.class),
        None => None,
    }
}

fn is_same_class(wiring: &Wiring, a: SlotId, b: SlotId) -> bool
    ensures { result ≡ is_same_class (class_number wiring.now a.0) (class_number wiring.now b.0) }
{
    let Some(class) = class_number(wiring, a) else {
        return false;
    };
    match class_number(wiring, b) {
        Some(other) => class == other,
        None => false,
    }
}

/// Why an import place isn't asked again: it holds a home, or it waits for an answer.
fn busy_code(place: ImportPlace) -> Option<Code>
    ensures { option_map code_of result ≡ busy_code (place_of place) }
{
    match place {
        ImportPlace::Empty => None,
        ImportPlace::Held(_) => Some(Code::Occupied),
        ImportPlace::Asking(_) | ImportPlace::Leaving(_) => Some(Code::Busy),
    }
}

/// Why an import is refused at once, if it is: 4 where the number stands for no actor of a fixed or
/// optional slot, 7 where that slot has another class; then 1 where the place holds a home, and 6 where
/// it waits for an answer.
fn import_code(
    wiring: &Wiring,
    imports: &Imports,
    slot: SlotId,
    home: Option<Incarnation>,
) -> Option<Code>
    ensures { option_map code_of result
        ≡ import_code wiring.now (lending imports.now).places slot.0 home }
{
    let Some(home) = home else {
        return Some(Code::StaleId);
    };
    if !is_home(wiring, home.slot) {
        return Some(Code::StaleId);
    }
    if !is_same_class(wiring, slot, home.slot) {
        return Some(Code::WrongClass);
    }
    busy_code(imports.place(slot))
}

/// An import place asks for a home: Import goes to the home's owner.
fn ask(
    imports: &mut Imports,
    site: &Site<'_>,
    actor: Incarnation,
    slot: SlotId,
    home: Incarnation,
    out: &mut Outbox,
) -> Result<(), AllocError>
    ensures now { OnOk result (lending imports.new ≡ with_places (lending imports.old) ((asks_for
        site.now.wiring.now site.now.me.0 (lending imports.old).places actor slot.0 home).now)) }
    ensures sent { OnOk result (out.new ≡ out.old
        ++ (asks_for site.now.wiring.now site.now.me.0 (lending imports.old).places actor slot.0
        home).sent) }
{
    imports.set_place(slot, ImportPlace::Asking(home))?;
    let place = frame_at(slot, actor.generation);
    let payload = Payload::empty(site.alloc);
    out.push(to_owner(
        site.wiring,
        site.me,
        SysKind::Import,
        place,
        frame_of(home),
        payload,
    ))?;
    Ok(())
}

/// An import that no code refuses asks for its home.
fn import_with(
    imports: &mut Imports,
    site: &Site<'_>,
    asked: Asked,
    slot: SlotId,
    home: Option<Incarnation>,
    code: Option<Code>,
    out: &mut Outbox,
) -> Result<(), AllocError>
    ensures now { OnOk result (lending imports.new ≡ with_places (lending imports.old) ((import_with
        site.now.wiring.now site.now.me.0 (lending imports.old).places asked.actor asked.reference
        asked.index slot.0 home (option_map code_of code)).now)) }
    ensures sent { OnOk result (out.new ≡ out.old
        ++ (import_with site.now.wiring.now site.now.me.0 (lending imports.old).places asked.actor
        asked.reference asked.index slot.0 home (option_map code_of code)).sent) }
{
    if let Some(code) = code {
        refuse(site.alloc, site.me, asked, code, out)?;
        return Ok(());
    }
    match home {
        Some(home) => {
            ask(imports, site, asked.actor, slot, home, out)?;
            Ok(())
        }
        None => {
            refuse(site.alloc, site.me, asked, Code::StaleId, out)?;
            Ok(())
        }
    }
}

/// An import into an imported slot.
fn import_into(
    imports: &mut Imports,
    site: &Site<'_>,
    asked: Asked,
    id: i64,
    slot: SlotId,
    out: &mut Outbox,
) -> Result<(), AllocError>
    ensures now { OnOk result (lending imports.new ≡ with_places (lending imports.old) ((import_into
        site.now.wiring.now site.now.me.0 (lending imports.old).places asked.actor asked.reference
        asked.index id (Some slot.0)).now)) }
    ensures sent { OnOk result (out.new ≡ out.old
        ++ (import_into site.now.wiring.now site.now.me.0 (lending imports.old).places asked.actor
        asked.reference asked.index id (Some slot.0)).sent) }
{
    let home = home_of(site.wiring, id);
    let code = import_code(site.wiring, imports, slot, home);
    import_with(imports, site, asked, slot, home, code, out)?;
    Ok(())
}

/// `import`: the actor's imported slot of a reference at an index asks for the actor with this number.
/// It is refused at once with code 2 where the index is out of range, with 4 where the number names no
/// fixed or optional slot, with 7 where that slot has another class, with 1 where the imported slot
/// holds an actor, and with 6 where it waits for an answer.
#[tactic(auto, unfolding(actor_duties::specs::Frame::import_command))]
pub fn request_import(
    imports: &mut Imports,
    site: &Site<'_>,
    asked: Asked,
    id: i64,
    out: &mut Outbox,
) -> Result<(), AllocError>
    requires site { IsSite site.now }
    requires there { asked.actor.slot.0 < length site.now.wiring.now.slots }
    ensures now { OnOk result (lending imports.new
        ≡ with_places (lending imports.old) ((import_command site.now.wiring.now site.now.me.0
        (lending imports.old).places asked.actor asked.reference asked.index id).now)) }
    ensures sent { OnOk result (out.new ≡ out.old
        ++ (import_command site.now.wiring.now site.now.me.0 (lending imports.old).places
        asked.actor asked.reference asked.index id).sent) }
{
    match site.runs.part_at(site.wiring, asked.actor.slot, asked.reference, asked.index) {
        Some(slot) => {
            import_into(imports, site, asked, id, slot, out)?;
            Ok(())
        }
        None => {
            refuse(site.alloc, site.me, asked, Code::NoSlot, out)?;
            Ok(())
        }
    }
}

/// An import place gives its home back: Deport goes to the home's owner.
fn give_back(
    imports: &mut Imports,
    site: &Site<'_>,
    asked: Asked,
    slot: SlotId,
    home: Incarnation,
    out: &mut Outbox,
) -> Result<(), AllocError>
    ensures now { OnOk result (lending imports.new ≡ with_places (lending imports.old) ((deport_from
        site.now.wiring.now site.now.me.0 (lending imports.old).places asked.actor asked.reference
        asked.index slot.0 (Held home)).now)) }
    ensures sent { OnOk result (out.new ≡ out.old
        ++ (deport_from site.now.wiring.now site.now.me.0 (lending imports.old).places asked.actor
        asked.reference asked.index slot.0 (Held home)).sent) }
{
    imports.set_place(slot, ImportPlace::Leaving(home))?;
    let place = frame_at(slot, asked.actor.generation);
    let payload = Payload::empty(site.alloc);
    out.push(to_owner(
        site.wiring,
        site.me,
        SysKind::Deport,
        place,
        frame_of(home),
        payload,
    ))?;
    Ok(())
}

/// A deport from an imported slot.
fn deport_from(
    imports: &mut Imports,
    site: &Site<'_>,
    asked: Asked,
    slot: SlotId,
    out: &mut Outbox,
) -> Result<(), AllocError>
    ensures now { OnOk result (lending imports.new ≡ with_places (lending imports.old) ((deport_from
        site.now.wiring.now site.now.me.0 (lending imports.old).places asked.actor asked.reference
        asked.index slot.0 ((lending imports.old).places slot.0)).now)) }
    ensures sent { OnOk result (out.new ≡ out.old
        ++ (deport_from site.now.wiring.now site.now.me.0 (lending imports.old).places asked.actor
        asked.reference asked.index slot.0 ((lending imports.old).places slot.0)).sent) }
{
    match imports.place(slot) {
        ImportPlace::Empty => {
            refuse(site.alloc, site.me, asked, Code::NotHere, out)?;
            Ok(())
        }
        ImportPlace::Asking(_) | ImportPlace::Leaving(_) => {
            refuse(site.alloc, site.me, asked, Code::Busy, out)?;
            Ok(())
        }
        ImportPlace::Held(home) => {
            give_back(imports, site, asked, slot, home, out)?;
            Ok(())
        }
    }
}

/// `deport`: the actor's imported slot of a reference at an index gives back what it holds. It is
/// refused at once with code 2 where the index is out of range, with 3 where the slot is empty, and
/// with 6 where it waits for an answer.
#[tactic(auto, unfolding(actor_duties::specs::Frame::deport_command))]
pub fn request_deport(
    imports: &mut Imports,
    site: &Site<'_>,
    asked: Asked,
    out: &mut Outbox,
) -> Result<(), AllocError>
    requires site { IsSite site.now }
    requires there { asked.actor.slot.0 < length site.now.wiring.now.slots }
    ensures now { OnOk result (lending imports.new
        ≡ with_places (lending imports.old) ((deport_command site.now.wiring.now site.now.me.0
        (lending imports.old).places asked.actor asked.reference asked.index).now)) }
    ensures sent { OnOk result (out.new ≡ out.old
        ++ (deport_command site.now.wiring.now site.now.me.0 (lending imports.old).places
        asked.actor asked.reference asked.index).sent) }
{
    match site.runs.part_at(site.wiring, asked.actor.slot, asked.reference, asked.index) {
        Some(slot) => {
            deport_from(imports, site, asked, slot, out)?;
            Ok(())
        }
        None => {
            refuse(site.alloc, site.me, asked, Code::NoSlot, out)?;
            Ok(())
        }
    }
}
