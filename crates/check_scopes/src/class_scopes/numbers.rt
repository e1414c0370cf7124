//! The numbers of the attributes of a class: a walk over fields and the fields of their classes. It
//! keeps a stack of its own, since classes may lie as deep in one another as there are classes.

ghost use Rattle.std.specs.Prelude.{◌≡◌, ◌∷◌, ◌++◌, [], length, take, map, reverse, IfOk, OnOk};
ghost use Rattle.std.specs.List.{filter_map, slice_index_or};
ghost use Rattle.name_tables.specs.name_numbers.Names.{names_of};
ghost use Rattle.check_scopes.specs.class_scopes.Views.{attribute_view};
ghost use Rattle.check_scopes.specs.class_scopes.Fields.{field_view, kept_attribute, numbers_of_fields};
ghost use Rattle.check_scopes.specs.class_scopes.Walks.{pending_view, pending_at, walk_view, opened, step_of, Falls, total};

use crate::class_scopes::fields::{Field, kept_attributes};
use name_tables::NameIndex;
use room_ast::{Name, ScopeAttribute, StructureItem, TypeEntry};
use room_kinds::{NumberType, Sequence};
use std::alloc::{AllocError, Global};

/// A field that is still to be looked at.
#[derive(Clone, Copy, Drop)]
pub struct Pending<'a> {
    /// How many classes may still be looked into, one inside the other.
    pub depth: usize,
    /// How many names of the path stand before the field's own.
    pub before: usize,
    pub field: Field<'a>,
}

/// The path that leads to the field that was looked at, the fields that are still to be looked at,
/// the next one last, and the numbers that were found.
#[derive(Drop)]
pub struct Walk<'a> {
    pub path: Vec<&'a Name>,
    pub pending: Vec<Pending<'a>>,
    pub numbers: Vec<ScopeAttribute>,
}

/// Copies of the names of a path.
fn owned_path(alloc: Global, path: &[&Name]) -> Result<Vec<Name>, AllocError>
    ensures { IfOk result (λ v. v.items ≡ names_of path.now) }
{
    let mut names = Vec::new(alloc);
    for name in path {
        names.push(name.copy(alloc)?)?;
    }
    Ok(names)
}

/// Puts fields before those that are still to be looked at, in their order.
fn push_fields<'a>(
    pending: &mut Vec<Pending<'a>>,
    depth: usize,
    before: usize,
    fields: &[Field<'a>],
) -> Result<(), AllocError>
    ensures { OnOk result (reverse (map pending_view pending.new.items)
        ≡ map (pending_at depth before) (map field_view fields.entry.now)
        ++ reverse (map pending_view pending.old.items)) }
{
    let mut left = fields.len();
    while left > 0 {
        left -= 1;
        pending.push(Pending {
            depth,
            before,
            field: fields[left],
        })?;
    }
    Ok(())
}

/// Cuts a path behind so many names, and adds one.
fn cut_and_push<'a>(
    path: &mut Vec<&'a Name>,
    before: usize,
    name: &'a Name,
) -> Result<(), AllocError>
    ensures { OnOk result (names_of path.new.items
        ≡ take before (names_of path.old.items) ++ name.entry.now ∷ []) }
{
    path.truncate(before);
    path.push(name)?;
    Ok(())
}

/// The path goes to a field: the names before it, and its own.
fn go_to<'a>(walk: &mut Walk<'a>, top: Pending<'a>) -> Result<(), AllocError>
    ensures { OnOk result (walk_view walk.new
        ≡ record (walk_view walk.old) {
          path = take top.entry.before (walk_view walk.old).path
              ++ top.entry.field.name.now ∷ [];
        }) }
{
    cut_and_push(&mut walk.path, top.before, top.field.name)
}

/// Adds a number under the path.
#[tactic(auto, using(crate::proofs::class_scopes::Lists::viewed_push))]
fn add_number(
    alloc: Global,
    walk: &mut Walk,
    kind: NumberType,
    initial: i64,
) -> Result<(), AllocError>
    ensures { OnOk result (walk_view walk.new
        ≡ record (walk_view walk.old) {
          numbers = (walk_view walk.old).numbers
              ++ record { path = (walk_view walk.old).path; kind = kind; initial = initial } ∷ [];
        }) }
{
    let path = owned_path(alloc, walk.path.as_slice())?;
    walk.numbers.push(ScopeAttribute {
        path,
        kind,
        initial,
    })?;
    Ok(())
}

/// The fields of a class come next, if it may be looked into.
#[tactic(auto, using(crate::proofs::class_scopes::Lists::opened_none, crate::proofs::class_scopes::Lists::opened_some))]
fn open<'a>(walk: &mut Walk<'a>, depth: usize, fields: &[Field<'a>]) -> Result<(), AllocError>
    ensures { OnOk result (walk_view walk.new ≡ record (walk_view walk.old) {
      pending = opened depth
          (length (walk_view walk.old).path) (map field_view fields.entry.now)
          ++ (walk_view walk.old).pending;
    }) }
{
    if depth == 0 {
        return Ok(());
    }
    let before = walk.path.len();
    push_fields(&mut walk.pending, depth - 1, before, fields)
}

/// The fields of the class of a number come next, if it may be looked into.
#[tactic(auto, using(crate::proofs::class_scopes::Lists::opened_at, crate::proofs::class_scopes::Lists::opened_past))]
fn open_class<'a>(
    walk: &mut Walk<'a>,
    depth: usize,
    class: usize,
    fields: &[Sequence<Field<'a>>],
) -> Result<(), AllocError>
    ensures { OnOk result (walk_view walk.new
        ≡ record (walk_view walk.old) {
          pending = opened depth (length (walk_view walk.old).path)
              (slice_index_or (map (map field_view) fields.entry.now) class [])
              ++ (walk_view walk.old).pending;
        }) }
{
    match fields.get(class) {
        Some(inner) => open(walk, depth, inner.as_slice()),
        None => Ok(()),
    }
}

/// A field is looked at, once it is taken from those that are pending.
fn step<'a>(
    alloc: Global,
    walk: &mut Walk<'a>,
    top: Pending<'a>,
    fields: &[Sequence<Field<'a>>],
) -> Result<(), AllocError>
    ensures { OnOk result (walk_view walk.new ≡ step_of (map (map field_view) fields.entry.now)
        (pending_view top.entry) (walk_view walk.old)) }
{
    go_to(walk, top)?;
    match top.field.entry {
        TypeEntry::Number(kind) => add_number(alloc, walk, kind, top.field.initial),
        TypeEntry::Class(class) => open_class(walk, top.depth, class, fields),
        TypeEntry::Unknown => Ok(()),
    }
}

/// Looks at all fields that are pending, and at those of their classes.
fn walk_all<'a>(
    alloc: Global,
    walk: &mut Walk<'a>,
    fields: &[Sequence<Field<'a>>],
) -> Result<(), AllocError>
    ensures { OnOk result (Falls (length (walk_view walk.old).path) (walk_view walk.old).pending
        → (walk_view walk.new).numbers
        ≡ total (map (map field_view) fields.entry.now) (walk_view walk.old)) }
{
    while let Some(top) = walk.pending.pop() {
        step(alloc, walk, top, fields)?;
    }
    Ok(())
}

/// The numbers of the attributes among items of a Structure, each under its dotted name, where these
/// are the names of the data classes, the types of their numbers, and their fields that stand for
/// numbers. It takes time in proportion to the names that it makes.
pub(crate) fn attributes_of<'a>(
    alloc: Global,
    items: &'a [StructureItem],
    names: &NameIndex,
    kinds: &[Sequence<NumberType>],
    fields: &[Sequence<Field<'a>>],
) -> Result<Vec<ScopeAttribute>, AllocError>
    ensures { IfOk result (λ v.
        map attribute_view v.items ≡ numbers_of_fields (map (map field_view) fields.entry.now)
        (filter_map (kept_attribute names.now kinds.now) items.entry.now)) }
{
    let attributes = kept_attributes(alloc, items, names, kinds)?;
    let mut walk = Walk {
        path: Vec::new(alloc),
        pending: Vec::new(alloc),
        numbers: Vec::new(alloc),
    };
    push_fields(&mut walk.pending, fields.len(), 0, attributes.as_slice())?;
    walk_all(alloc, &mut walk, fields)?;
    Ok(walk.numbers)
}
