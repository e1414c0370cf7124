//! Classes by number.

ghost use Rattle.std.specs.Prelude.{◌≡◌, IfOk, map};
ghost use Rattle.std.specs.List.{filter_map};
ghost use Rattle.room_ast.specs.Trees.{subsystem_item_view};
ghost use Rattle.wiring_plan.specs.structure_plan.Parts.{port_plan, reference_plan};
ghost use Rattle.wiring_plan.specs.structure_plan.Plans.{item_binding, item_layer, subsystem_binding, subsystem_layer, class_plan, actor_plan, subsystem_plan, no_plan};

use crate::structure_plan::parts::{binding_plan, layer_plan, port_plan, reference_plan};
use crate::structure_plan::plan::{BindingPlan, ClassPlan, LayerPlan, PortPlan, ReferencePlan};
use check_tables::{Container, push_if};
use room_ast::{PortEntry, ReferenceEntry, StructureItem, SubsystemItem};
use room_kinds::Sequence;
use std::alloc::{AllocError, Global};

fn port_plans(alloc: Global, ports: &[PortEntry]) -> Result<Vec<PortPlan>, AllocError>
    ensures { IfOk result (λ v. v.items ≡ map port_plan ports.now) }
{
    let mut plans = Vec::with_capacity(alloc, ports.len())?;
    for port in ports {
        plans.push(port_plan(port))?;
    }
    Ok(plans)
}

fn reference_plans(
    alloc: Global,
    references: &[ReferenceEntry],
) -> Result<Vec<ReferencePlan>, AllocError>
    ensures { IfOk result (λ v. v.items ≡ map reference_plan references.now) }
{
    let mut plans = Vec::with_capacity(alloc, references.len())?;
    for reference in references {
        plans.push(reference_plan(reference))?;
    }
    Ok(plans)
}

/// A class with these ports and references, bindings and layer connections. There is a plan for each
/// class, most with few entries: its lists take no more room than these.
fn class_plan(
    alloc: Global,
    class: &Container,
    bindings: Vec<BindingPlan>,
    layers: Vec<LayerPlan>,
) -> Result<ClassPlan, AllocError>
    ensures { IfOk result (λ p. p ≡ class_plan class.now bindings.items layers.items) }
{
    let ports = port_plans(alloc, class.ports.as_slice())?;
    let references = reference_plans(alloc, class.references.as_slice())?;
    let (mut bindings, mut layers) = (bindings, layers);
    bindings.shrink_to_fit();
    layers.shrink_to_fit();
    Ok(ClassPlan {
        ports: Sequence::from(ports),
        references: Sequence::from(references),
        bindings: Sequence::from(bindings),
        layers: Sequence::from(layers),
    })
}

// ---- actor classes

fn item_binding<'m, 't>(
    actors: &'t [Container<'m>],
    class: &Container,
    item: &StructureItem,
) -> Option<BindingPlan>
    ensures { result ≡ item_binding actors.entry.now class.now item.now }
{
    match item {
        StructureItem::Binding(binding) => binding_plan(actors, class, binding),
        _ => None,
    }
}

fn item_layer<'m, 't>(
    actors: &'t [Container<'m>],
    class: &Container,
    item: &StructureItem,
) -> Option<LayerPlan>
    ensures { result ≡ item_layer actors.entry.now class.now item.now }
{
    match item {
        StructureItem::Layer(layer) => layer_plan(actors, class, layer),
        _ => None,
    }
}

fn item_bindings<'m, 't>(
    alloc: Global,
    actors: &'t [Container<'m>],
    class: &Container,
    items: &[StructureItem],
) -> Result<Vec<BindingPlan>, AllocError>
    ensures { IfOk result (λ v.
        v.items ≡ filter_map (item_binding actors.entry.now class.now) items.now) }
{
    let mut plans = Vec::new(alloc);
    for item in items {
        push_if(&mut plans, item_binding(actors, class, item))?;
    }
    Ok(plans)
}

fn item_layers<'m, 't>(
    alloc: Global,
    actors: &'t [Container<'m>],
    class: &Container,
    items: &[StructureItem],
) -> Result<Vec<LayerPlan>, AllocError>
    ensures { IfOk result (λ v.
        v.items ≡ filter_map (item_layer actors.entry.now class.now) items.now) }
{
    let mut plans = Vec::new(alloc);
    for item in items {
        push_if(&mut plans, item_layer(actors, class, item))?;
    }
    Ok(plans)
}

/// The plan of an actor class with these items in its Structure.
pub(crate) fn actor_plan<'m, 't>(
    alloc: Global,
    actors: &'t [Container<'m>],
    class: &Container,
    items: &[StructureItem],
) -> Result<ClassPlan, AllocError>
    ensures { IfOk result (λ p. p ≡ actor_plan actors.entry.now class.now items.now) }
{
    let bindings = item_bindings(alloc, actors, class, items)?;
    let layers = item_layers(alloc, actors, class, items)?;
    class_plan(alloc, class, bindings, layers)
}

// ---- subsystem classes

fn subsystem_binding<'m, 't>(
    actors: &'t [Container<'m>],
    class: &Container,
    item: &SubsystemItem,
) -> Option<BindingPlan>
    ensures { result ≡ subsystem_binding actors.entry.now class.now (subsystem_item_view item.now) }
{
    match item {
        SubsystemItem::Binding(binding) => binding_plan(actors, class, binding),
        _ => None,
    }
}

fn subsystem_layer<'m, 't>(
    actors: &'t [Container<'m>],
    class: &Container,
    item: &SubsystemItem,
) -> Option<LayerPlan>
    ensures { result ≡ subsystem_layer actors.entry.now class.now (subsystem_item_view item.now) }
{
    match item {
        SubsystemItem::Layer(layer) => layer_plan(actors, class, layer),
        _ => None,
    }
}

fn subsystem_bindings<'m, 't>(
    alloc: Global,
    actors: &'t [Container<'m>],
    class: &Container,
    items: &[SubsystemItem],
) -> Result<Vec<BindingPlan>, AllocError>
    ensures { IfOk result (λ v.
        v.items ≡ filter_map (subsystem_binding actors.entry.now class.now) (map subsystem_item_view
        items.now)) }
{
    let mut plans = Vec::new(alloc);
    for item in items {
        push_if(&mut plans, subsystem_binding(actors, class, item))?;
    }
    Ok(plans)
}

fn subsystem_layers<'m, 't>(
    alloc: Global,
    actors: &'t [Container<'m>],
    class: &Container,
    items: &[SubsystemItem],
) -> Result<Vec<LayerPlan>, AllocError>
    ensures { IfOk result (λ v.
        v.items ≡ filter_map (subsystem_layer actors.entry.now class.now) (map subsystem_item_view
        items.now)) }
{
    let mut plans = Vec::new(alloc);
    for item in items {
        push_if(&mut plans, subsystem_layer(actors, class, item))?;
    }
    Ok(plans)
}

/// The plan of a subsystem class with these items.
pub(crate) fn subsystem_plan<'m, 't>(
    alloc: Global,
    actors: &'t [Container<'m>],
    class: &Container,
    items: &[SubsystemItem],
) -> Result<ClassPlan, AllocError>
    ensures { IfOk result (λ p.
        p ≡ subsystem_plan actors.entry.now class.now (map subsystem_item_view items.now)) }
{
    let bindings = subsystem_bindings(alloc, actors, class, items)?;
    let layers = subsystem_layers(alloc, actors, class, items)?;
    class_plan(alloc, class, bindings, layers)
}

/// A class without anything. It takes no memory.
pub(crate) fn no_plan(alloc: Global) -> ClassPlan
    ensures { result ≡ no_plan }
{
    ClassPlan {
        ports: Sequence::new(alloc),
        references: Sequence::new(alloc),
        bindings: Sequence::new(alloc),
        layers: Sequence::new(alloc),
    }
}
