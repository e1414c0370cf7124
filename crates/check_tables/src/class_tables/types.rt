//! What types' names mean.

ghost use Rattle.std.specs.Prelude.{◌≡◌, [], IfOk, option_map, map, unwrap_or};
ghost use Rattle.std.specs.List.{filter_map};
ghost use Rattle.room_ast.specs.Trees.{class_view};
ghost use Rattle.room_ast.specs.model_parts.Classes.{as_data};
ghost use Rattle.room_ast.specs.model_parts.Types.{type_entry, as_field, fields_of, field_types, carried_type};

use crate::class_tables::ports::push_if;
use name_tables::NameIndex;
use room_ast::{
    Attribute, Class, DataClass, DataItem, Message, Name, Parameter, TypeEntry, number_type,
};
use room_kinds::Sequence;
use std::alloc::{AllocError, Global};

/// What a type's name means, where these are the names of the data classes.
pub fn type_entry(name: &[u8], classes: &NameIndex) -> TypeEntry
    ensures { result ≡ type_entry classes.now name.now }
{
    if let Some(kind) = number_type(name) {
        return TypeEntry::Number(kind);
    }
    match classes.place_of(name) {
        Some(class) => TypeEntry::Class(class),
        None => TypeEntry::Unknown,
    }
}

/// The field that an item of a data class is, if it is one.
pub fn as_field<'a>(item: &'a DataItem) -> Option<&'a Attribute>
    ensures { option_map (λ f. f.now) result ≡ as_field item.now }
{
    match item {
        DataItem::Attribute(a) => Some(a),
        DataItem::Usercode(_) => None,
    }
}

fn entry_of_field(item: &DataItem, classes: &NameIndex) -> Option<TypeEntry>
    ensures { result ≡ option_map (λ f. type_entry classes.now f.type_name) (as_field item.now) }
{
    match item {
        DataItem::Attribute(a) => Some(type_entry(a.type_name.as_bytes(), classes)),
        DataItem::Usercode(_) => None,
    }
}

/// The types of the fields among items of a data class.
fn entries_of_fields(
    alloc: Global,
    items: &[DataItem],
    classes: &NameIndex,
) -> Result<Vec<TypeEntry>, AllocError>
    ensures { IfOk result (λ v. v.items ≡ map (λ f. type_entry classes.now f.type_name) (filter_map as_field items.now)) }
{
    let mut entries = Vec::new(alloc);
    for item in items {
        push_if(&mut entries, entry_of_field(item, classes))?;
    }
    Ok(entries)
}

fn field_types(
    alloc: Global,
    class: &DataClass,
    classes: &NameIndex,
) -> Result<Sequence<TypeEntry>, AllocError>
    ensures { IfOk result (λ types. types ≡ field_types classes.now class.now) }
{
    let entries = entries_of_fields(alloc, class.items.as_slice(), classes)?;
    Ok(Sequence::from(entries))
}

fn types_in_class(
    alloc: Global,
    class: &Class,
    classes: &NameIndex,
) -> Result<Option<Sequence<TypeEntry>>, AllocError>
    ensures { IfOk result (λ types. types ≡ option_map (field_types classes.now) (as_data (class_view class.now))) }
{
    match class {
        Class::Data(d) => {
            let types = field_types(alloc, d, classes)?;
            Ok(Some(types))
        }
        _ => Ok(None),
    }
}

/// The types of the fields of each data class, by its number.
pub(crate) fn data_types(
    alloc: Global,
    declared: &[Class],
    classes: &NameIndex,
) -> Result<Vec<Sequence<TypeEntry>>, AllocError>
    ensures { IfOk result (λ v. v.items ≡ map (field_types classes.now) (filter_map as_data (map class_view declared.now))) }
{
    let mut types = Vec::new(alloc);
    for class in declared {
        push_if(&mut types, types_in_class(alloc, class, classes)?)?;
    }
    Ok(types)
}

/// The type of what a message carries, if it carries something.
pub fn carried_type<'a>(parameter: &'a Parameter) -> Option<&'a Name>
    ensures { option_map (λ n. n.now) result ≡ carried_type parameter.entry.now }
{
    match parameter {
        Parameter::Absent => None,
        Parameter::Empty => None,
        Parameter::Typed(name) => Some(name),
        Parameter::Labelled { type_name, .. } => Some(type_name),
    }
}

/// The messages of one direction; none where the direction isn't written.
pub fn messages_of<'a>(messages: &'a Option<Sequence<Message>>) -> &'a [Message]
    ensures { result.now ≡ unwrap_or messages.entry.now [] }
{
    match messages {
        Some(messages) => messages.as_slice(),
        None => &[],
    }
}
