//! The rules on types and initial values.

ghost use Rattle.std.specs.Prelude.{◌≡◌, map};
ghost use Rattle.std.specs.List.{list_all};
ghost use Rattle.room_ast.specs.Trees.{class_view, model_view, AProtocol};
ghost use Rattle.check_tables.specs.class_tables.Containers.{tables_of};
ghost use Rattle.check_classes.specs.class_rules.Types.{is_known, field_is_known, attribute_is_known, parameter_is_known, types_are_known, has_known_types, greatest, depth, in_range, value_fits, attribute_fits, field_fits, item_fits, values_fit, has_fitting_values, message_is_known, plain_of};

use check_tables::{Tables, messages_of, structure_items};
use name_tables::NameIndex;
use room_ast::{
    Attribute, Class, DataItem, Message, Model, Parameter, PlainValue, ProtocolClass,
    StructureItem, Value, number_type,
};
use room_kinds::NumberType;

// ---- types that are named

#[tactic(auto, unfolding(crate::specs::class_rules::Types::is_known))]
fn is_known(name: &[u8], names: &NameIndex) -> bool
    ensures { result ≡ is_known names.now name.now }
{
    number_type(name).is_some() || names.has(name)
}

fn field_is_known(item: &DataItem, names: &NameIndex) -> bool
    ensures { result ≡ field_is_known names.now item.now }
{
    match item {
        DataItem::Usercode(_) => true,
        DataItem::Attribute(a) => is_known(a.type_name.as_bytes(), names),
    }
}

fn attribute_is_known(item: &StructureItem, names: &NameIndex) -> bool
    ensures { result ≡ attribute_is_known names.now item.now }
{
    match item {
        StructureItem::Attribute(a) => is_known(a.type_name.as_bytes(), names),
        _ => true,
    }
}

fn parameter_is_known(parameter: &Parameter, names: &NameIndex) -> bool
    ensures { result ≡ parameter_is_known names.now parameter.now }
{
    match parameter {
        Parameter::Absent => true,
        Parameter::Empty => true,
        Parameter::Typed(name) => is_known(name.as_bytes(), names),
        Parameter::Labelled { type_name, .. } => is_known(type_name.as_bytes(), names),
    }
}

fn fields_are_known(items: &[DataItem], names: &NameIndex) -> bool
    ensures { result ≡ list_all (field_is_known names.now) items.now }
{
    items.iter().all(|item| field_is_known(item, names))
}

fn attributes_are_known(items: &[StructureItem], names: &NameIndex) -> bool
    ensures { result ≡ list_all (attribute_is_known names.now) items.now }
{
    items.iter().all(|item| attribute_is_known(item, names))
}

fn messages_are_known(messages: &[Message], names: &NameIndex) -> bool
    ensures { result ≡ list_all (message_is_known names.now) messages.now }
{
    messages
        .iter()
        .all(|message| parameter_is_known(&message.parameter, names))
}

fn protocol_is_known(protocol: &ProtocolClass, names: &NameIndex) -> bool
    ensures { result ≡ types_are_known names.now (AProtocol protocol.now) }
{
    messages_are_known(messages_of(&protocol.incoming), names)
        && messages_are_known(messages_of(&protocol.outgoing), names)
}

fn types_are_known(class: &Class, names: &NameIndex) -> bool
    ensures { result ≡ types_are_known names.now (class_view class.now) }
{
    match class {
        Class::Actor(a) => attributes_are_known(structure_items(a), names),
        Class::Protocol(p) => protocol_is_known(p, names),
        Class::Data(d) => fields_are_known(d.items.as_slice(), names),
        Class::System(_) => true,
        Class::Subsystem(_) => true,
    }
}

fn each_is_known(classes: &[Class], names: &NameIndex) -> bool
    ensures { result ≡ list_all (λ c. types_are_known names.now (class_view c)) classes.now }
{
    classes.iter().all(|class| types_are_known(class, names))
}

#[tactic(auto, using(crate::proofs::class_rules::Views::test_viewed))]
fn are_known(classes: &[Class], names: &NameIndex) -> bool
    ensures { result ≡ list_all (types_are_known names.now) (map class_view classes.now) }
{
    each_is_known(classes, names)
}

/// Whether every type that is named is known.
pub fn has_known_types(model: &Model, tables: &Tables) -> bool
    requires { tables.now ≡ tables_of (model_view model.now) }
    ensures { result ≡ has_known_types (model_view model.now) }
{
    are_known(model.classes.as_slice(), &tables.names.data_classes)
}

// ---- initial values

fn greatest(kind: NumberType) -> u64
    ensures { result ≡ greatest kind }
{
    match kind {
        NumberType::Int8 => 127,
        NumberType::Int16 => 32_767,
        NumberType::Int32 => 2_147_483_647,
        NumberType::Uint8 => 255,
        NumberType::Uint16 => 65_535,
        NumberType::Uint32 => 4_294_967_295,
        NumberType::Boolean => 1,
        NumberType::Plain => 0,
    }
}

/// How far below 0 the least number of a type lies.
fn depth(kind: NumberType) -> u64
    ensures { result ≡ depth kind }
{
    match kind {
        NumberType::Int8 => 128,
        NumberType::Int16 => 32_768,
        NumberType::Int32 => 2_147_483_648,
        NumberType::Uint8 => 0,
        NumberType::Uint16 => 0,
        NumberType::Uint32 => 0,
        NumberType::Boolean => 0,
        NumberType::Plain => 0,
    }
}

#[tactic(auto, unfolding(crate::specs::class_rules::Types::in_range))]
fn in_range(kind: NumberType, value: PlainValue) -> bool
    ensures { result ≡ in_range kind value }
{
    match value {
        PlainValue::Number(n) => n <= greatest(kind),
        PlainValue::Negative(n) => n <= depth(kind),
        PlainValue::True => true,
        PlainValue::False => true,
    }
}

fn plain_of(value: &Value) -> PlainValue
    ensures { result ≡ plain_of value.now }
{
    match value {
        Value::Plain(v) => *v,
        Value::Quoted { value, .. } => *value,
    }
}

fn value_fits(type_name: &[u8], value: &Value) -> bool
    ensures { result ≡ value_fits type_name.now value.now }
{
    match number_type(type_name) {
        Some(kind) => in_range(kind, plain_of(value)),
        None => false,
    }
}

#[tactic(auto, unfolding(crate::specs::class_rules::Types::attribute_fits))]
fn attribute_fits(attribute: &Attribute) -> bool
    ensures { result ≡ attribute_fits attribute.now }
{
    match &attribute.value {
        Some(value) => value_fits(attribute.type_name.as_bytes(), value),
        None => true,
    }
}

fn field_fits(item: &DataItem) -> bool
    ensures { result ≡ field_fits item.now }
{
    match item {
        DataItem::Usercode(_) => true,
        DataItem::Attribute(a) => attribute_fits(a),
    }
}

fn item_fits(item: &StructureItem) -> bool
    ensures { result ≡ item_fits item.now }
{
    match item {
        StructureItem::Attribute(a) => attribute_fits(a),
        _ => true,
    }
}

fn fields_fit(items: &[DataItem]) -> bool
    ensures { result ≡ list_all field_fits items.now }
{
    items.iter().all(|item| field_fits(item))
}

fn items_fit(items: &[StructureItem]) -> bool
    ensures { result ≡ list_all item_fits items.now }
{
    items.iter().all(|item| item_fits(item))
}

fn values_fit(class: &Class) -> bool
    ensures { result ≡ values_fit (class_view class.now) }
{
    match class {
        Class::Actor(a) => items_fit(structure_items(a)),
        Class::Data(d) => fields_fit(d.items.as_slice()),
        Class::System(_) => true,
        Class::Subsystem(_) => true,
        Class::Protocol(_) => true,
    }
}

fn each_fits(classes: &[Class]) -> bool
    ensures { result ≡ list_all (λ c. values_fit (class_view c)) classes.now }
{
    classes.iter().all(|class| values_fit(class))
}

#[tactic(auto, using(crate::proofs::class_rules::Views::test_viewed))]
fn all_fit(classes: &[Class]) -> bool
    ensures { result ≡ list_all (values_fit) (map class_view classes.now) }
{
    each_fits(classes)
}

/// Whether each initial value stands at an integer type or `boolean`, and lies in its range.
#[tactic(auto, unfolding(crate::specs::class_rules::Types::has_fitting_values))]
pub fn has_fitting_values(model: &Model) -> bool
    ensures { result ≡ has_fitting_values (model_view model.now) }
{
    all_fit(model.classes.as_slice())
}
