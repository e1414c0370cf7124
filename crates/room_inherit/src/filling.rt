//! The flat classes of a model, each once.
ghost use Rattle.std.specs.Prelude.{◌≡◌, IfOk, Some, None, map, option_map, slice_get, slice_set};
ghost use Rattle.std.specs.Option.{IfSome, option_and_then};
ghost use Rattle.room_ast.specs.Trees.{AnActor, actor_view, class_view};
ghost use Rattle.room_inherit.specs.Filling.{there_at, is_vacant, put_new, with_class, left_beside, filled, none_taken, put_at, replaced, taken_over};
ghost use Rattle.room_inherit.specs.Views.{flat_views, filling_view};

use crate::counting::{TOO_MANY, less_actor};
use crate::rules::{actor_at, base_of};
use derived_classes::{copy_actor, derived, refines_known};
use name_tables::NameIndex;
use room_ast::{ActorClass, Class};
use std::alloc::{AllocError, Global};

/// What the flat classes of a model come to.
#[derive(Drop)]
pub(crate) enum Filling {
    /// The flat classes, by number; none where the class is no actor class.
    Flats(Vec<Option<ActorClass>>),
    /// Some class refines what its base hasn't.
    Unknown,
    /// They have more tokens than a flat model may have. Not all of them were taken, so that some class may
    /// refine what its base hasn't.
    TooMany,
}

/// The flat class of a number, if it was taken.
#[tactic(auto, using(crate::proofs::Bases::flat_got))]
fn flat_there<'a>(flats: &'a [Option<ActorClass>], number: Option<usize>) -> Option<&'a ActorClass>
    ensures { option_map (λ a. actor_view a.now) result
        ≡ option_and_then (there_at (flat_views flats.entry.now)) number }
{
    let Some(number) = number else {
        return None;
    };
    match flats.get(number) {
        Some(Some(flat)) => Some(flat),
        _ => None,
    }
}

/// The flat class of a class over its flat base; none where it refines what its base hasn't.
fn taken_over(
    alloc: Global,
    own: &ActorClass,
    base: Option<&ActorClass>,
) -> Result<Option<ActorClass>, AllocError>
    ensures { IfOk result (λ f.
        option_map actor_view f
        ≡ taken_over (actor_view own.now) (option_map (λ b. actor_view b.now) base.entry)) }
{
    let Some(base) = base else {
        return Ok(Some(copy_actor(alloc, own)?));
    };
    if !refines_known(alloc, base, own)? {
        return Ok(None);
    }
    Ok(Some(derived(alloc, base, own)?))
}

#[tactic(auto, using(crate::proofs::Bases::flat_set, crate::proofs::Bases::flat_past))]
fn set_flat(flats: &mut Vec<Option<ActorClass>>, number: usize, flat: ActorClass)
    ensures { flat_views flats.new.items
        ≡ slice_set (flat_views flats.old.items) number (Some (actor_view flat)) }
{
    if number < flats.len() {
        flats[number] = Some(flat);
    }
}

/// Whether a number has no flat class yet.
#[tactic(auto, using(crate::proofs::Bases::flat_got))]
fn is_vacant(flats: &[Option<ActorClass>], number: usize) -> bool
    ensures { result ≡ is_vacant (slice_get (flat_views flats.now) number) }
{
    match flats.get(number) {
        Some(None) => true,
        _ => false,
    }
}

/// Puts a flat class in its place, unless one stands there. `left` is how many tokens more are too many,
/// and so is what it gives back.
#[tactic(auto, using(crate::proofs::Sizes::left_put), unfolding(crate::specs::Filling::put_new))]
fn put_new(
    left: usize,
    flats: &mut Vec<Option<ActorClass>>,
    number: usize,
    flat: ActorClass,
) -> usize
    ensures flats { flat_views flats.new.items
        ≡ put_new (flat_views flats.old.items) number (actor_view flat) }
    ensures left { left ≡ left_beside (flat_views flats.old.items)
        → result ≡ left_beside (flat_views flats.new.items) }
{
    if !is_vacant(flats.as_slice(), number) {
        return left;
    }
    let after = less_actor(left, &flat);
    set_flat(flats, number, flat);
    after
}

/// Takes the flat class of the class of a number, once those of its bases are taken. It gives how many
/// tokens more are too many then, or nothing where the class refines what its base hasn't.
fn with_class(
    alloc: Global,
    names: &NameIndex,
    classes: &[Class],
    flats: &mut Vec<Option<ActorClass>>,
    left: usize,
    number: usize,
) -> Result<Option<usize>, AllocError>
    ensures flats { IfOk result (λ after.
        with_class names.now (map class_view classes.now) (flat_views flats.old.items) number
        ≡ option_map (λ n. flat_views flats.new.items) after) }
    ensures left { left ≡ left_beside (flat_views flats.old.items)
        → IfOk result (λ after. IfSome after (λ n. n ≡ left_beside (flat_views flats.new.items))) }
{
    let Some(own) = actor_at(classes, number) else {
        return Ok(Some(left));
    };
    let base = flat_there(flats.as_slice(), base_of(own, names));
    match taken_over(alloc, own, base)? {
        Some(flat) => {
            let after = put_new(left, flats, number, flat);
            Ok(Some(after))
        }
        None => Ok(None),
    }
}

/// No flat class yet, for as many classes.
fn none_taken(alloc: Global, classes: &[Class]) -> Result<Vec<Option<ActorClass>>, AllocError>
    ensures { IfOk result (λ v. flat_views v.items ≡ none_taken (map class_view classes.now)) }
{
    let mut flats = Vec::new(alloc);
    for _class in classes {
        flats.push(None)?;
    }
    Ok(flats)
}

/// The flat classes, taken in this order, in which bases come first. It takes no more of them once they
/// have too many tokens.
#[tactic(auto, using(crate::proofs::Sizes::all_left))]
pub(crate) fn filled(
    alloc: Global,
    names: &NameIndex,
    classes: &[Class],
    order: &[usize],
) -> Result<Filling, AllocError>
    ensures { IfOk result (λ found.
        filling_view found ≡ filled names.now (map class_view classes.now) order.now
        (none_taken (map class_view classes.now))) }
{
    let mut flats = none_taken(alloc, classes)?;
    let mut left = TOO_MANY;
    for number in order {
        let Some(after) = with_class(alloc, names, classes, &mut flats, left, *number)? else {
            return Ok(Filling::Unknown);
        };
        if after == 0 {
            return Ok(Filling::TooMany);
        }
        left = after;
    }
    Ok(Filling::Flats(flats))
}

/// Puts a flat class in the place of the class of a number.
#[tactic(auto, using(crate::proofs::Bases::class_set, crate::proofs::Bases::class_past))]
fn put_flat(classes: &mut Vec<Class>, number: usize, flat: ActorClass)
    ensures { map class_view classes.new.items
        ≡ slice_set (map class_view classes.old.items) number (AnActor (actor_view flat)) }
{
    if number < classes.len() {
        classes[number] = Class::Actor(flat);
    }
}

fn put_if(classes: &mut Vec<Class>, number: usize, flat: Option<ActorClass>)
    ensures { map class_view classes.new.items
        ≡ put_at (map class_view classes.old.items) number (option_map actor_view flat) }
{
    if let Some(flat) = flat {
        put_flat(classes, number, flat);
    }
}

/// Puts the flat classes in the places of the classes of their numbers.
#[tactic(auto, using(crate::proofs::Bases::replaced_last, crate::proofs::Bases::replaced_done))]
pub(crate) fn put_flats(classes: &mut Vec<Class>, flats: Vec<Option<ActorClass>>)
    ensures { map class_view classes.new.items
        ≡ replaced (map class_view classes.old.items) (flat_views flats.items) }
{
    let mut flats = flats;
    while let Some(flat) = flats.pop() {
        put_if(classes, flats.len(), flat);
    }
}
