//! The fields of data classes and the attributes of actor classes that stand for numbers.

ghost use Rattle.std.specs.Prelude.{◌≡◌, pos, IfOk, map, option_map};
ghost use Rattle.std.specs.List.{filter_map};
ghost use Rattle.room_ast.specs.Trees.{class_view};
ghost use Rattle.room_ast.specs.model_parts.Classes.{as_data};
ghost use Rattle.check_scopes.specs.class_scopes.Fields.{field_view, small, plain_small, value_small, initial_small, is_kept, kept, kept_field, kept_attribute, fields_kept};

use check_tables::{push_if, type_entry};
use name_tables::NameIndex;
use room_ast::{
    Attribute, Class, DataClass, DataItem, Name, PlainValue, StructureItem, TypeEntry, Value,
};
use room_kinds::{NumberType, Sequence};
use std::alloc::{AllocError, Global};

/// A field of a data class or an attribute of an actor class: its name, the number with which it
/// begins, and what its type's name means.
#[derive(Clone, Copy, Drop)]
pub struct Field<'a> {
    pub name: &'a Name,
    pub initial: i64,
    pub entry: TypeEntry,
}

// ---- initial values

/// A number that is at most as great as those of any type; greater ones count as 0.
fn small(number: u64) -> i64
    ensures { result ≡ pos (small number) }
{
    if number <= 4_294_967_295 {
        number as i64
    } else {
        0
    }
}

fn plain_small(value: PlainValue) -> i64
    ensures { result ≡ plain_small value }
{
    match value {
        PlainValue::Number(number) => small(number),
        PlainValue::Negative(number) => -small(number),
        PlainValue::True => 1,
        PlainValue::False => 0,
    }
}

fn value_small(value: &Value) -> i64
    ensures { result ≡ value_small value.now }
{
    match value {
        Value::Plain(value) => plain_small(*value),
        Value::Quoted { value, .. } => plain_small(*value),
    }
}

/// The number with which an attribute begins, where that is one of some type; 0 where none is
/// written.
#[tactic(auto, unfolding(crate::specs::class_scopes::Fields::initial_small))]
fn initial_small(attribute: &Attribute) -> i64
    ensures { result ≡ initial_small attribute.now }
{
    match &attribute.value {
        Some(value) => value_small(value),
        None => 0,
    }
}

// ---- fields that stand for numbers

/// Whether a type stands for a number, where these are the types of the numbers of the data classes.
fn is_kept(entry: TypeEntry, kinds: &[Sequence<NumberType>]) -> bool
    ensures { result ≡ is_kept kinds.now entry }
{
    match entry {
        TypeEntry::Number(_) => true,
        TypeEntry::Class(class) => match kinds.get(class) {
            Some(inner) => !inner.is_empty(),
            None => false,
        },
        TypeEntry::Unknown => false,
    }
}

/// The field that an attribute is, if it stands for a number.
#[tactic(auto, unfolding(crate::specs::class_scopes::Fields::kept))]
fn kept<'a>(
    attribute: &'a Attribute,
    names: &NameIndex,
    kinds: &[Sequence<NumberType>],
) -> Option<Field<'a>>
    ensures { option_map field_view result ≡ kept names.now kinds.now attribute.entry.now }
{
    let entry = type_entry(attribute.type_name.as_bytes(), names);
    if is_kept(entry, kinds) {
        Some(Field {
            name: &attribute.name,
            initial: initial_small(attribute),
            entry,
        })
    } else {
        None
    }
}

fn kept_field<'a>(
    item: &'a DataItem,
    names: &NameIndex,
    kinds: &[Sequence<NumberType>],
) -> Option<Field<'a>>
    ensures { option_map field_view result ≡ kept_field names.now kinds.now item.entry.now }
{
    match item {
        DataItem::Attribute(attribute) => kept(attribute, names, kinds),
        DataItem::Usercode(_) => None,
    }
}

fn kept_attribute<'a>(
    item: &'a StructureItem,
    names: &NameIndex,
    kinds: &[Sequence<NumberType>],
) -> Option<Field<'a>>
    ensures { option_map field_view result ≡ kept_attribute names.now kinds.now item.entry.now }
{
    match item {
        StructureItem::Attribute(attribute) => kept(attribute, names, kinds),
        _ => None,
    }
}

/// The attributes among items of a Structure that stand for numbers.
pub(crate) fn kept_attributes<'a>(
    alloc: Global,
    items: &'a [StructureItem],
    names: &NameIndex,
    kinds: &[Sequence<NumberType>],
) -> Result<Vec<Field<'a>>, AllocError>
    ensures { IfOk result (λ v.
        map field_view v.items ≡ filter_map (kept_attribute names.now kinds.now) items.entry.now) }
{
    let mut fields = Vec::new(alloc);
    for item in items {
        push_if(&mut fields, kept_attribute(item, names, kinds))?;
    }
    Ok(fields)
}

fn kept_fields<'a>(
    alloc: Global,
    items: &'a [DataItem],
    names: &NameIndex,
    kinds: &[Sequence<NumberType>],
) -> Result<Vec<Field<'a>>, AllocError>
    ensures { IfOk result (λ v.
        map field_view v.items ≡ filter_map (kept_field names.now kinds.now) items.entry.now) }
{
    let mut fields = Vec::new(alloc);
    for item in items {
        push_if(&mut fields, kept_field(item, names, kinds))?;
    }
    Ok(fields)
}

fn fields_of_class<'a>(
    alloc: Global,
    class: &'a DataClass,
    names: &NameIndex,
    kinds: &[Sequence<NumberType>],
) -> Result<Sequence<Field<'a>>, AllocError>
    ensures { IfOk result (λ fields.
        map field_view fields ≡ fields_kept names.now kinds.now class.entry.now) }
{
    let fields = kept_fields(alloc, class.items.as_slice(), names, kinds)?;
    Ok(Sequence::from(fields))
}

fn fields_if_data<'a>(
    alloc: Global,
    class: &'a Class,
    names: &NameIndex,
    kinds: &[Sequence<NumberType>],
) -> Result<Option<Sequence<Field<'a>>>, AllocError>
    ensures { IfOk result (λ fields.
        option_map (map field_view) fields
        ≡ option_map (fields_kept names.now kinds.now) (as_data (class_view class.entry.now))) }
{
    match class {
        Class::Data(data) => {
            let fields = fields_of_class(alloc, data, names, kinds)?;
            Ok(Some(fields))
        }
        _ => Ok(None),
    }
}

/// The fields of each data class that stand for numbers, by its number.
pub(crate) fn fields_of_classes<'a>(
    alloc: Global,
    classes: &'a [Class],
    names: &NameIndex,
    kinds: &[Sequence<NumberType>],
) -> Result<Vec<Sequence<Field<'a>>>, AllocError>
    ensures { IfOk result (λ v.
        map (map field_view) v.items ≡ map (fields_kept names.now kinds.now) (filter_map as_data
        (map class_view classes.entry.now))) }
{
    let mut table = Vec::new(alloc);
    for class in classes {
        push_if(&mut table, fields_if_data(alloc, class, names, kinds)?)?;
    }
    Ok(table)
}
