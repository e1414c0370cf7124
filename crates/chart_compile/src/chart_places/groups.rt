//! Transitions by where they begin.
ghost use Rattle.std.specs.Prelude.{◌≡◌, ◌<◌, ◌++◌, ◌∷◌, [], length, map, position, replicate, slice_set, slice_index_or, IfOk, OnOk};
ghost use Rattle.name_tables.specs.name_numbers.Names.{same};
ghost use Rattle.chart_reader.specs.chart_nodes.Steps.{step_view};
ghost use Rattle.chart_compile.specs.chart_places.Groups.{IsGrouped, put_number};

use chart_reader::Step;
use name_tables::NameIndex;
use room_kinds::Sequence;
use std::alloc::{AllocError, Global};

fn no_groups(alloc: Global, count: usize) -> Result<Vec<Sequence<usize>>, AllocError>
    ensures { IfOk result (λ groups. groups.items ≡ replicate count []) }
{
    let mut groups = Vec::new(alloc);
    for _i in 0..count {
        groups.push(Sequence::new(alloc))?;
    }
    Ok(groups)
}

fn add_to(groups: &mut Vec<Sequence<usize>>, group: usize, number: usize) -> Result<(), AllocError>
    requires { group < length groups.old.items }
    ensures { OnOk result (groups.new.items ≡ slice_set groups.old.items group
        (slice_index_or groups.old.items group [] ++ number ∷ [])) }
{
    groups[group].push(number)?;
    Ok(())
}

/// Puts the number of a step into the group of the place where it begins, if there is one.
#[tactic(auto, unfolding(crate::specs::chart_places::Groups::put_number))]
fn put<'b, 'c>(
    groups: &mut Vec<Sequence<usize>>,
    places: &NameIndex<'c>,
    step: &Step<'b>,
    number: usize,
) -> Result<(), AllocError>
    requires { length groups.old.items ≡ length places.now }
    ensures { OnOk result (groups.new.items ≡ put_number
        (position (same (step_view step.now).origin) places.now) number groups.old.items) }
{
    match places.place_of(step.origin.as_slice()) {
        Some(group) => add_to(groups, group, number),
        None => Ok(()),
    }
}

/// For each of some places, by number, the numbers of the steps that begin there, in their order.
pub fn group_by<'b, 'c>(
    alloc: Global,
    places: &NameIndex<'c>,
    count: usize,
    steps: &[Step<'b>],
) -> Result<Vec<Sequence<usize>>, AllocError>
    requires { count ≡ length places.now }
    ensures { IfOk result (λ groups. IsGrouped places.now groups.items (map step_view steps.now)) }
{
    let mut groups = no_groups(alloc, count)?;
    for (i, step) in steps.iter().enumerate() {
        put(&mut groups, places, step, i)?;
    }
    Ok(groups)
}
