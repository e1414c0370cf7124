//! Copies of what an interface and a structure hold.
ghost use Rattle.std.specs.Prelude.{◌≡◌, IfOk};

use room_ast::{
    ActorRef, Attribute, Binding, EmptyString, ExternalPort, InterfaceItem, LayerConnection, Name,
    Port, ServiceAccess, ServiceImplementation, ServiceProvision, Side, StructureItem, Text,
    Usercode, Value,
};
use room_kinds::Sequence;
use std::alloc::{AllocError, Global};

pub(crate) fn copy_name_if(alloc: Global, name: &Option<Name>) -> Result<Option<Name>, AllocError>
    ensures { IfOk result (λ copy. copy ≡ name.now) }
{
    match name {
        Some(name) => Ok(Some(name.copy(alloc)?)),
        None => Ok(None),
    }
}

fn copy_port(alloc: Global, port: &Port) -> Result<Port, AllocError>
    ensures { IfOk result (λ copy. copy ≡ port.now) }
{
    let name = port.name.copy(alloc)?;
    let protocol = port.protocol.copy(alloc)?;
    Ok(Port {
        conjugated: port.conjugated,
        name,
        places: port.places,
        protocol,
    })
}

fn copy_provision(alloc: Global, service: &ServiceProvision) -> Result<ServiceProvision, AllocError>
    ensures { IfOk result (λ copy. copy ≡ service.now) }
{
    let name = service.name.copy(alloc)?;
    let protocol = service.protocol.copy(alloc)?;
    Ok(ServiceProvision { name, protocol })
}

pub(crate) fn copy_interface_item(
    alloc: Global,
    item: &InterfaceItem,
) -> Result<InterfaceItem, AllocError>
    ensures { IfOk result (λ copy. copy ≡ item.now) }
{
    match item {
        InterfaceItem::Port(port) => Ok(InterfaceItem::Port(copy_port(alloc, port)?)),
        InterfaceItem::Service(service) => {
            Ok(InterfaceItem::Service(copy_provision(alloc, service)?))
        }
    }
}

#[tactic(auto, using(crate::proofs::Strings::same_strings))]
fn copy_empty_strings(
    alloc: Global,
    strings: &Sequence<EmptyString>,
) -> Result<Sequence<EmptyString>, AllocError>
    ensures { IfOk result (λ copy. copy ≡ strings.now) }
{
    let mut copies = Vec::new(alloc);
    for _i in 0..strings.len() {
        copies.push(EmptyString)?;
    }
    Ok(Sequence::from(copies))
}

fn copy_usercode(alloc: Global, usercode: &Usercode) -> Result<Usercode, AllocError>
    ensures { IfOk result (λ copy. copy ≡ usercode.now) }
{
    let strings = copy_empty_strings(alloc, &usercode.strings)?;
    Ok(Usercode {
        section: usercode.section,
        strings,
    })
}

fn copy_value(alloc: Global, value: &Value) -> Result<Value, AllocError>
    ensures { IfOk result (λ copy. copy ≡ value.now) }
{
    match value {
        Value::Plain(value) => Ok(Value::Plain(*value)),
        Value::Quoted { text, value } => {
            let bytes = Vec::from_slice(alloc, text.as_bytes())?;
            let text = Text::from(bytes);
            Ok(Value::Quoted {
                text,
                value: *value,
            })
        }
    }
}

fn copy_value_if(alloc: Global, value: &Option<Value>) -> Result<Option<Value>, AllocError>
    ensures { IfOk result (λ copy. copy ≡ value.now) }
{
    match value {
        Some(value) => Ok(Some(copy_value(alloc, value)?)),
        None => Ok(None),
    }
}

fn copy_attribute(alloc: Global, attribute: &Attribute) -> Result<Attribute, AllocError>
    ensures { IfOk result (λ copy. copy ≡ attribute.now) }
{
    let name = attribute.name.copy(alloc)?;
    let type_name = attribute.type_name.copy(alloc)?;
    let value = copy_value_if(alloc, &attribute.value)?;
    Ok(Attribute {
        name,
        type_name,
        value,
    })
}

fn copy_reference(alloc: Global, reference: &ActorRef) -> Result<ActorRef, AllocError>
    ensures { IfOk result (λ copy. copy ≡ reference.now) }
{
    let name = reference.name.copy(alloc)?;
    let class = reference.class.copy(alloc)?;
    Ok(ActorRef {
        kind: reference.kind,
        name,
        count: reference.count,
        class,
    })
}

fn copy_side(alloc: Global, side: &Side) -> Result<Side, AllocError>
    ensures { IfOk result (λ copy. copy ≡ side.now) }
{
    match side {
        Side::Own(port) => Ok(Side::Own(port.copy(alloc)?)),
        Side::Inner { reference, port } => {
            let reference = reference.copy(alloc)?;
            let port = port.copy(alloc)?;
            Ok(Side::Inner { reference, port })
        }
    }
}

fn copy_binding(alloc: Global, binding: &Binding) -> Result<Binding, AllocError>
    ensures { IfOk result (λ copy. copy ≡ binding.now) }
{
    let left = copy_side(alloc, &binding.left)?;
    let right = copy_side(alloc, &binding.right)?;
    Ok(Binding { left, right })
}

fn copy_layer(alloc: Global, layer: &LayerConnection) -> Result<LayerConnection, AllocError>
    ensures { IfOk result (λ copy. copy ≡ layer.now) }
{
    let reference = layer.reference.copy(alloc)?;
    let provider = layer.provider.copy(alloc)?;
    let service = layer.service.copy(alloc)?;
    Ok(LayerConnection {
        reference,
        provider,
        service,
    })
}

fn copy_access(alloc: Global, access: &ServiceAccess) -> Result<ServiceAccess, AllocError>
    ensures { IfOk result (λ copy. copy ≡ access.now) }
{
    let name = access.name.copy(alloc)?;
    let protocol = access.protocol.copy(alloc)?;
    Ok(ServiceAccess { name, protocol })
}

fn copy_external(alloc: Global, external: &ExternalPort) -> Result<ExternalPort, AllocError>
    ensures { IfOk result (λ copy. copy ≡ external.now) }
{
    let name = external.name.copy(alloc)?;
    Ok(ExternalPort { name })
}

fn copy_implementation(
    alloc: Global,
    implementation: &ServiceImplementation,
) -> Result<ServiceImplementation, AllocError>
    ensures { IfOk result (λ copy. copy ≡ implementation.now) }
{
    let name = implementation.name.copy(alloc)?;
    Ok(ServiceImplementation { name })
}

pub(crate) fn copy_structure_item(
    alloc: Global,
    item: &StructureItem,
) -> Result<StructureItem, AllocError>
    ensures { IfOk result (λ copy. copy ≡ item.now) }
{
    match item {
        StructureItem::Usercode(u) => Ok(StructureItem::Usercode(copy_usercode(alloc, u)?)),
        StructureItem::External(e) => Ok(StructureItem::External(copy_external(alloc, e)?)),
        StructureItem::Port(p) => Ok(StructureItem::Port(copy_port(alloc, p)?)),
        StructureItem::Access(a) => Ok(StructureItem::Access(copy_access(alloc, a)?)),
        StructureItem::Implementation(i) => {
            Ok(StructureItem::Implementation(copy_implementation(alloc, i)?))
        }
        StructureItem::Attribute(a) => Ok(StructureItem::Attribute(copy_attribute(alloc, a)?)),
        StructureItem::Reference(r) => Ok(StructureItem::Reference(copy_reference(alloc, r)?)),
        StructureItem::Binding(b) => Ok(StructureItem::Binding(copy_binding(alloc, b)?)),
        StructureItem::Layer(l) => Ok(StructureItem::Layer(copy_layer(alloc, l)?)),
    }
}
