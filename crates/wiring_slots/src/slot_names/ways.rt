//! Mapped paths by number.
ghost use Rattle.std.specs.Prelude.{◌≡◌, ◌++◌, [], Some, IfOk, OnOk, map, option_map, option_and_then};
ghost use Rattle.room_ast.specs.MappingTree.{mapping_view, mappings_of as mappings_tree};
ghost use Rattle.room_ast.specs.Trees.{subsystem_item_view};
ghost use Rattle.wiring_slots.specs.slot_names.Ways.{stepped, step_in, further, walked, path_end, byte_or_zero, controller_of, mappings_of, all_mappings, item_mappings};
ghost use Rattle.wiring_slots.specs.slot_names.Behind.{LeadsBehind, LastBegins, AddsBehind};
ghost use Rattle.wiring_slots.specs.slot_names.Wireds.{way_view};

use crate::slot_tree::{MappingOrder, MappingPlan, StepPlan};
use check_tables::Container;
use name_tables::NameIndex;
use room_ast::{Mapping, MappingPath, Segment, SubsystemItem};
use room_kinds::{ControllerId, Sequence};
use std::alloc::{AllocError, Global};
use wiring_plan::{class_behind, number_of};

/// How far a path has led.
#[derive(Drop)]
pub(crate) struct Way<'m, 't> {
    pub(crate) steps: Vec<StepPlan>,
    /// The class in which the path goes on, if there is one.
    pub(crate) place: Option<&'t Container<'m>>,
}

/// One step further, by the reference with this number in a class.
fn stepped<'m, 't>(
    actors: &'t [Container<'m>],
    way: Way<'m, 't>,
    index: Option<u64>,
    class: &Container,
    reference: u16,
) -> Result<Way<'m, 't>, AllocError>
    ensures { IfOk result (λ w.
        way_view w ≡ stepped actors.entry.now (way_view way.entry) index class.now reference) }
{
    let mut steps = way.steps;
    steps.push(StepPlan { reference, index })?;
    let place = class_behind(actors, class, reference);
    Ok(Way { steps, place })
}

fn step_in<'m, 't>(
    actors: &'t [Container<'m>],
    way: Way<'m, 't>,
    segment: &Segment,
    class: &Container,
) -> Result<Option<Way<'m, 't>>, AllocError>
    ensures { IfOk result (λ w.
        option_map way_view w
        ≡ step_in actors.entry.now (way_view way.entry) segment.now class.now) }
{
    match number_of(&class.reference_names, segment.name.as_bytes()) {
        Some(reference) => {
            let next = stepped(actors, way, segment.index, class, reference)?;
            Ok(Some(next))
        }
        None => Ok(None),
    }
}

/// One segment further, if there is such a reference.
#[tactic(auto, unfolding(crate::specs::slot_names::Ways::further))]
fn further<'m, 't>(
    actors: &'t [Container<'m>],
    way: Way<'m, 't>,
    segment: &Segment,
) -> Result<Option<Way<'m, 't>>, AllocError>
    ensures { IfOk result (λ w.
        option_map way_view w ≡ further actors.entry.now (way_view way.entry) segment.now) }
{
    match way.place {
        Some(class) => step_in(actors, way, segment, class),
        None => Ok(None),
    }
}

/// So many segments further.
#[tactic(auto, using(crate::proofs::slot_names::Steps::walk_start, crate::proofs::slot_names::Steps::walk_more, crate::proofs::slot_names::Steps::walk_stops, crate::proofs::slot_names::Steps::walk_ends))]
fn walked<'m, 't>(
    actors: &'t [Container<'m>],
    way: Way<'m, 't>,
    segments: &[Segment],
) -> Result<Option<Way<'m, 't>>, AllocError>
    ensures { IfOk result (λ w.
        option_map way_view w ≡ walked actors.entry.now (way_view way.entry) segments.now) }
{
    let mut reached = way;
    for segment in segments {
        let Some(next) = further(actors, reached, segment)? else {
            return Ok(None);
        };
        reached = next;
    }
    Ok(Some(reached))
}

/// Where a path leads, if it exists.
fn path_end<'m, 't>(
    actors: &'t [Container<'m>],
    way: Way<'m, 't>,
    path: &MappingPath,
) -> Result<Option<Way<'m, 't>>, AllocError>
    ensures { IfOk result (λ w.
        option_map way_view w ≡ path_end actors.entry.now (way_view way.entry) path.now) }
{
    let Some(first) = further(actors, way, &path.first)? else {
        return Ok(None);
    };
    walked(actors, first, path.others.as_slice())
}

/// Where a path leads from a place on, with the steps behind it, if it exists.
#[tactic(auto, using(crate::proofs::slot_names::Behind::led_behind))]
fn path_from<'m, 't>(
    alloc: Global,
    actors: &'t [Container<'m>],
    place: Option<&'t Container<'m>>,
    path: &MappingPath,
) -> Result<Option<Way<'m, 't>>, AllocError>
    ensures { IfOk result (λ w.
        LeadsBehind actors.entry.now (option_map (λ c. c.now) place.entry) path.now
        (option_map way_view w)) }
{
    let start = Way {
        steps: Vec::new(alloc),
        place,
    };
    path_end(actors, start, path)
}

fn byte_or_zero(number: usize) -> u8
    ensures { result ≡ byte_or_zero number }
{
    if number <= 255 { number as u8 } else { 0 }
}

/// The controller of a thread.
fn controller_of(threads: &NameIndex, name: &[u8]) -> ControllerId
    ensures { result ≡ controller_of threads.now name.now }
{
    let number = match threads.place_of(name) {
        Some(number) => number,
        None => 0,
    };
    ControllerId(byte_or_zero(number))
}

/// What a mapping adds to the path that leads to it: its own steps, and its controller.
fn own_plan(alloc: Global, way: &Way, controller: ControllerId) -> Result<MappingPlan, AllocError>
    ensures { IfOk result (λ m.
        m ≡ record { steps = (way_view way.now).steps; controller = controller }) }
{
    let steps = Vec::from_slice(alloc, way.steps.as_slice())?;
    Ok(MappingPlan {
        steps: Sequence::from(steps),
        controller,
    })
}

/// Adds a mapping, and then those in its braces. Its path goes on behind these steps, in a class, if
/// there is one. Its own steps are put behind them while those in its braces are added, so that how
/// many steps a path has is always the length of what stands in memory.
#[cycle(mappings)]
fn add_mapping<'m, 't>(
    alloc: Global,
    plans: &mut MappingOrder,
    path: &mut Vec<StepPlan>,
    actors: &'t [Container<'m>],
    threads: &NameIndex,
    place: Option<&'t Container<'m>>,
    mapping: &Mapping,
) -> Result<(), AllocError>
    requires there { LastBegins path.old.items plans.old }
    ensures back { OnOk result (path.new.items ≡ path.old.items) }
    ensures added { OnOk result (AddsBehind path.old.items plans.old plans.new
        (mappings_of actors.entry.now threads.now
        (record { steps = path.old.items; place = option_map (λ c. c.now) place.entry })
        (mapping_view mapping.now))) }
{
    let Some(end) = path_from(alloc, actors, place, &mapping.path)? else {
        return Ok(());
    };
    let controller = controller_of(threads, mapping.thread.as_bytes());
    let own = own_plan(alloc, &end, controller)?;
    let kept = path.len();
    path.extend_from_slice(end.steps.as_slice())?;
    let first = plans.len();
    plans.push(kept, own)?;
    match &mapping.nested {
        Some(nested) => {
            add_all(alloc, plans, path, actors, threads, end.place, nested)?;
            plans.close(first);
            path.truncate(kept);
            Ok(())
        }
        None => {
            path.truncate(kept);
            Ok(())
        }
    }
}

#[cycle(mappings)]
fn add_all<'m, 't>(
    alloc: Global,
    plans: &mut MappingOrder,
    path: &mut Vec<StepPlan>,
    actors: &'t [Container<'m>],
    threads: &NameIndex,
    place: Option<&'t Container<'m>>,
    mappings: &Vec<Mapping>,
) -> Result<(), AllocError>
    requires there { LastBegins path.old.items plans.old }
    ensures back { OnOk result (path.new.items ≡ path.old.items) }
    ensures added { OnOk result (AddsBehind path.old.items plans.old plans.new
        (all_mappings actors.entry.now threads.now
        (record { steps = path.old.items; place = option_map (λ c. c.now) place.entry })
        (mappings_tree (map mapping_view mappings.now.items)))) }
{
    for mapping in mappings {
        add_mapping(alloc, plans, path, actors, threads, place, mapping)?;
    }
    Ok(())
}

/// Adds the mappings that an item of a subsystem class is, which begin in this class.
#[tactic(auto, using(crate::proofs::slot_names::Behind::begins_all))]
pub(crate) fn add_item<'m, 't>(
    alloc: Global,
    plans: &mut MappingOrder,
    actors: &'t [Container<'m>],
    threads: &NameIndex,
    class: &'t Container<'m>,
    item: &SubsystemItem,
) -> Result<(), AllocError>
    ensures { OnOk result (plans.new ≡ plans.old
        ++ item_mappings actors.entry.now threads.now
        (record { steps = []; place = Some class.entry.now }) (subsystem_item_view item.now)) }
{
    match item {
        SubsystemItem::Mapping(mapping) => {
            let mut path = Vec::new(alloc);
            add_mapping(
                alloc,
                plans,
                &mut path,
                actors,
                threads,
                Some(class),
                mapping,
            )
        }
        _ => Ok(()),
    }
}
