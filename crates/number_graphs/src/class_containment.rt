//! Whether a class contains itself, through the classes of its parts: one depth-first walk.

ghost use Rattle.std.specs.Prelude.{◌≡◌, ◌<◌, ◌++◌, ℕ, List, [], ◌∷◌, length, map, Some, IfOk, OnOk, slice_set, reverse};
ghost use Rattle.number_graphs.specs.class_containment.Containment.{contains_itself};
ghost use Rattle.number_graphs.specs.class_containment.Walks.{at, Looks, Turns, Walking, Searches, Rests, SearchesFrom, parts_left, Orders, ContainsItself};

use room_kinds::Sequence;
use std::alloc::{AllocError, Global};

/// How far the walk has come with a class.
#[derive(Clone, Copy, Drop)]
enum Progress<'a> {
    /// Not reached; these are its parts.
    Untouched(&'a [usize]),
    /// Reached and not left; these parts are still to be looked at.
    Open(&'a [usize]),
    /// Left: this is its place in the order.
    Settled(usize),
}

/// The walk: how far it has come with each class, the classes that it has reached and not left,
/// innermost last, and those that it has left, in order.
#[derive(Drop)]
struct Walk<'a> {
    progress: Vec<Progress<'a>>,
    path: Vec<usize>,
    order: Vec<usize>,
}

/// How far the walk has come with a class; a number that no class has counts as settled.
fn at<'a>(progress: &[Progress<'a>], class: usize) -> Progress<'a>
    ensures { result ≡ at progress.now class }
{
    match progress.get(class) {
        Some(p) => *p,
        None => Progress::Settled(0),
    }
}

/// A part of the innermost class is looked at; `rest` is the parts behind it. Whether it is open,
/// which closes a circle.
fn look<'a>(
    walk: &mut Walk<'a>,
    top: usize,
    part: usize,
    rest: &'a [usize],
) -> Result<bool, AllocError>
    requires { top < length walk.old.progress.items }
    ensures { IfOk result (λ found. Looks walk.old walk.new top part rest.entry found) }
{
    match at(walk.progress.as_slice(), part) {
        Progress::Open(_) => Ok(true),
        Progress::Untouched(parts) => {
            walk.path.push(top)?;
            walk.path.push(part)?;
            walk.progress[part] = Progress::Open(parts);
            Ok(false)
        }
        Progress::Settled(_) => {
            walk.path.push(top)?;
            walk.progress[top] = Progress::Open(rest);
            Ok(false)
        }
    }
}

/// A turn at the innermost class, once that is taken from the path. Whether it finds a circle.
fn turn<'a>(walk: &mut Walk<'a>, top: usize) -> Result<bool, AllocError>
    ensures { IfOk result (λ found. Turns walk.old walk.new top found) }
{
    match at(walk.progress.as_slice(), top) {
        Progress::Open([]) => {
            let place = walk.order.len();
            walk.order.push(top)?;
            walk.progress[top] = Progress::Settled(place);
            Ok(false)
        }
        Progress::Open([part, rest @ ..]) => look(walk, top, *part, rest),
        Progress::Untouched(_) => Ok(false),
        Progress::Settled(_) => Ok(false),
    }
}

/// Goes on until each class that was reached is left, or a circle is found.
fn search(walk: &mut Walk) -> Result<bool, AllocError>
    ensures { IfOk result (λ found. (classes : List (List ℕ)) → Walking classes walk.old.progress.items (reverse walk.old.path.items) walk.old.order.items → Searches classes walk.old walk.new found) }
{
    while let Some(top) = walk.path.pop() {
        if turn(walk, top)? {
            return Ok(true);
        }
    }
    Ok(false)
}

/// A walk from a class, if it wasn't reached. Whether a circle is found.
fn search_from(walk: &mut Walk, class: usize) -> Result<bool, AllocError>
    ensures { IfOk result (λ found. (classes : List (List ℕ)) → Rests classes walk.old → SearchesFrom classes walk.old walk.new class found) }
{
    match at(walk.progress.as_slice(), class) {
        Progress::Untouched(parts) => {
            walk.path.push(class)?;
            walk.progress[class] = Progress::Open(parts);
            search(walk)
        }
        _ => Ok(false),
    }
}

fn no_progress<'a>(
    alloc: Global,
    classes: &'a [Sequence<usize>],
) -> Result<Vec<Progress<'a>>, AllocError>
    ensures { IfOk result (λ v. map parts_left v.items ≡ map (λ parts. Some parts) classes.now) }
{
    let mut progress = Vec::new(alloc);
    for class in classes {
        progress.push(Progress::Untouched(class.as_slice()))?;
    }
    Ok(progress)
}

/// An order of the classes in which each stands after those of its parts; none where a class contains
/// itself. The classes of the parts of each class stand by number. It takes time in proportion to the
/// classes and their parts.
pub fn containment_order(
    alloc: Global,
    classes: &[Sequence<usize>],
) -> Result<Option<Vec<usize>>, AllocError>
    ensures { IfOk result (λ order. Orders classes.now order) }
{
    let progress = no_progress(alloc, classes)?;
    let mut walk = Walk {
        progress,
        path: Vec::new(alloc),
        order: Vec::new(alloc),
    };
    for class in 0..classes.len() {
        if search_from(&mut walk, class)? {
            return Ok(None);
        }
    }
    Ok(Some(walk.order))
}

/// Whether some class contains itself, through the classes of its parts, which stand by number. It
/// takes time in proportion to the classes and their parts.
#[tactic(auto, using(crate::proofs::class_containment::Searching::test_of, crate::proofs::class_containment::Searching::fact_of))]
pub fn contains_itself(alloc: Global, classes: &[Sequence<usize>]) -> Result<bool, AllocError>
    ensures test { IfOk result (λ b. b ≡ contains_itself classes.now) }
    ensures fact { IfOk result (λ b. ContainsItself classes.now b) }
{
    let order = containment_order(alloc, classes)?;
    Ok(order.is_none())
}
