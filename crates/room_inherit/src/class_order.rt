//! An order of the classes in which each stands behind its base, and the classes that extend one class,
//! each with all that extend it, stand one behind the other: the most of them last. Where classes are
//! taken in this order, few charts are needed at a time: one more only where there are twice as many
//! classes.
ghost use Rattle.std.specs.Prelude.{◌≡◌, true, length, IfOk, slice_set};
ghost use Rattle.std.specs.List.{list_all};
ghost use Rattle.number_graphs.specs.class_containment.Containment.{IsContainmentOrder, parts_of};
ghost use Rattle.number_graphs.specs.class_containment.Walks.{Orders};
ghost use Rattle.room_inherit.specs.Ordering.{IsMarked, is_placed};

use number_graphs::containment_order;
use room_kinds::Sequence;
use std::alloc::{AllocError, Global};

/// The classes that a class extends: one or none. `bases` has them for each class, by number.
fn extended_by<'a>(bases: &'a [Sequence<usize>], class: usize) -> &'a [usize]
    ensures { result.now ≡ parts_of bases.entry.now class }
{
    match bases.get(class) {
        Some(extended) => extended.as_slice(),
        None => &[],
    }
}

fn base_of(bases: &[Sequence<usize>], class: usize) -> Option<usize> {
    match extended_by(bases, class) {
        [base, ..] => Some(*base),
        [] => None,
    }
}

// ---- the classes by depth

fn size_at(sizes: &[usize], class: usize) -> usize {
    match sizes.get(class) {
        Some(size) => *size,
        None => 0,
    }
}

/// Adds to the size of a base that of a class that extends it.
fn add_size(sizes: &mut Vec<usize>, base: Option<usize>, more: usize) {
    if let Some(base) = base {
        if base < sizes.len() {
            sizes[base] = sizes[base].saturating_add(more);
        }
    }
}

/// For each class how many there are with those that extend it, through bases too.
fn sizes_of(
    alloc: Global,
    bases: &[Sequence<usize>],
    order: &[usize],
) -> Result<Vec<usize>, AllocError> {
    let mut sizes = vec![in alloc; 1usize; bases.len()]?;
    for class in order.iter().rev() {
        let more = size_at(sizes.as_slice(), *class);
        add_size(&mut sizes, base_of(bases, *class), more);
    }
    Ok(sizes)
}

/// Adds a class to those that extend one. The largest of them stands first.
fn add_derived(derived: &mut Vec<usize>, class: usize, sizes: &[usize]) -> Result<(), AllocError> {
    let Some(first) = derived.first().copied() else {
        derived.push(class)?;
        return Ok(());
    };
    if size_at(sizes, first) < size_at(sizes, class) {
        derived[0] = class;
        derived.push(first)?;
    } else {
        derived.push(class)?;
    }
    Ok(())
}

/// For each class those that extend it.
fn derived_of(
    alloc: Global,
    bases: &[Sequence<usize>],
    order: &[usize],
    sizes: &[usize],
) -> Result<Vec<Vec<usize>>, AllocError> {
    let mut derived = Vec::new(alloc);
    for _class in bases {
        derived.push(Vec::new(alloc))?;
    }
    for class in order {
        if let Some(base) = base_of(bases, *class) {
            if base < derived.len() {
                add_derived(&mut derived[base], *class, sizes)?;
            }
        }
    }
    Ok(derived)
}

/// Adds the classes that extend a class to those that wait. The last is the next to be taken.
fn add_waiting(
    waiting: &mut Vec<usize>,
    derived: &[Vec<usize>],
    class: usize,
) -> Result<(), AllocError> {
    if let Some(more) = derived.get(class) {
        for next in more {
            waiting.push(*next)?;
        }
    }
    Ok(())
}

/// The classes that extend none.
fn first_classes(
    alloc: Global,
    bases: &[Sequence<usize>],
    order: &[usize],
) -> Result<Vec<usize>, AllocError> {
    let mut firsts = Vec::new(alloc);
    for class in order {
        if base_of(bases, *class).is_none() {
            firsts.push(*class)?;
        }
    }
    Ok(firsts)
}

/// The classes of an order one behind the other: behind each those that extend it, the largest last.
fn by_depth(
    alloc: Global,
    bases: &[Sequence<usize>],
    order: &[usize],
) -> Result<Vec<usize>, AllocError> {
    let sizes = sizes_of(alloc, bases, order)?;
    let derived = derived_of(alloc, bases, order, sizes.as_slice())?;
    let mut waiting = first_classes(alloc, bases, order)?;
    let mut deep = Vec::new(alloc);
    for _class in order {
        let Some(class) = waiting.pop() else {
            return Ok(deep);
        };
        deep.push(class)?;
        add_waiting(&mut waiting, derived.as_slice(), class)?;
    }
    Ok(deep)
}

// ---- whether each stands behind its base

fn is_placed(placed: &[bool], class: usize) -> bool
    ensures { result ≡ is_placed placed.now class }
{
    match placed.get(class) {
        Some(placed) => *placed,
        None => true,
    }
}

fn are_placed(placed: &[bool], classes: &[usize]) -> bool
    ensures { result ≡ list_all (is_placed placed.now) classes.now }
{
    for class in classes {
        if !is_placed(placed, *class) {
            return false;
        }
    }
    true
}

fn all_placed(placed: &[bool]) -> bool
    ensures { result ≡ list_all (λ b. b) placed.now }
{
    for one in placed {
        if !*one {
            return false;
        }
    }
    true
}

#[tactic(auto, using(crate::proofs::Depth::mark_past))]
fn mark(placed: &mut Vec<bool>, class: usize)
    ensures { placed.new.items ≡ slice_set placed.old.items class true }
{
    if class < placed.len() {
        placed[class] = true;
    }
}

/// Whether these are all classes, each behind its base.
#[tactic(auto, using(crate::proofs::Depth::none_marked, crate::proofs::Depth::one_marked, crate::proofs::Depth::all_marked))]
fn is_order(alloc: Global, bases: &[Sequence<usize>], order: &[usize]) -> Result<bool, AllocError>
    ensures { IfOk result (λ b. b ≡ true → IsContainmentOrder bases.now order.now) }
{
    if bases.len() < order.len() {
        return Ok(false);
    }
    let mut placed = vec![in alloc; false; bases.len()]?;
    for class in order {
        if !are_placed(placed.as_slice(), extended_by(bases, *class)) {
            return Ok(false);
        }
        mark(&mut placed, *class);
    }
    Ok(all_placed(placed.as_slice()))
}

/// An order of the classes by depth, each behind its base; none where a class extends itself. That each
/// stands behind its base is tried once more; where it weren't so, any order would do in which it is.
#[tactic(auto, using(crate::proofs::Depth::deep_orders))]
pub(crate) fn depth_order(
    alloc: Global,
    bases: &[Sequence<usize>],
) -> Result<Option<Vec<usize>>, AllocError>
    ensures { IfOk result (λ order. Orders bases.now order) }
{
    let Some(order) = containment_order(alloc, bases)? else {
        return Ok(None);
    };
    let deep = by_depth(alloc, bases, order.as_slice())?;
    if is_order(alloc, bases, deep.as_slice())? {
        Ok(Some(deep))
    } else {
        Ok(Some(order))
    }
}
