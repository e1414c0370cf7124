//! Whether refinements name what the flat charts of bases have. Of the flat charts no more stand in
//! memory than are still needed: the last class that extends a base takes the base's chart for its own.
//! So this holds of models whose flat classes would be too large.
ghost use Rattle.std.specs.Prelude.{◌≡◌, IfOk, OnOk, Some, None, length, map, option_map, slice_set, if◌then◌else◌};
ghost use Rattle.std.specs.Option.{option_and_then};
ghost use Rattle.room_ast.specs.ChartTree.{graph_view};
ghost use Rattle.room_ast.specs.Trees.{actor_view, class_view};
ghost use Rattle.room_inherit.specs.Filling.{there_at, none_taken};
ghost use Rattle.derived_classes.specs.Derived.{chart_over};
ghost use Rattle.room_inherit.specs.Judging.{HasLastUses, above_at, is_needed_later, judged, keep, known_there, let_go, noted, with_chart};
ghost use Rattle.room_inherit.specs.Views.{charts_view};

use crate::rules::{actor_at, base_of};
use derived_classes::{chart_is_known, chart_over, copy_items};
use name_tables::NameIndex;
use room_ast::{ActorClass, Class, GraphItem};
use std::alloc::{AllocError, Global};

// ---- the last uses of charts

/// The number of the class that the class of a number extends.
fn above_at(names: &NameIndex, classes: &[Class], number: usize) -> Option<usize>
    ensures { result ≡ above_at names.now (map class_view classes.now) number }
{
    match actor_at(classes, number) {
        Some(class) => base_of(class, names),
        None => None,
    }
}

/// Notes that a class is extended by the class at a place.
#[tactic(auto, using(crate::proofs::Judged::set_past))]
fn note(last: &mut Vec<usize>, place: usize, base: Option<usize>)
    ensures { last.new.items ≡ noted last.old.items place base }
{
    if let Some(base) = base {
        if base < last.len() {
            last[base] = place;
        }
    }
}

/// For each class the last place at which a class stands that extends it; 0 where none does.
#[tactic(auto, using(crate::proofs::Judged::no_uses, crate::proofs::Judged::one_more_use))]
pub(crate) fn last_uses(
    alloc: Global,
    names: &NameIndex,
    classes: &[Class],
    order: &[usize],
) -> Result<Vec<usize>, AllocError>
    ensures { IfOk result (λ last.
        HasLastUses names.now (map class_view classes.now) order.now (length order.now)
        last.items) }
{
    let mut last = vec![in alloc; 0usize; classes.len()]?;
    for (place, number) in order.iter().enumerate() {
        note(&mut last, place, above_at(names, classes, *number));
    }
    Ok(last)
}

/// Whether the chart of a class is still needed behind a place.
fn is_needed_later(last: &[usize], place: usize, number: usize) -> bool
    ensures { result ≡ is_needed_later last.now place number }
{
    match last.get(number) {
        Some(last) => place < *last,
        None => false,
    }
}

// ---- charts by number

/// The chart of a number, if it is there.
#[tactic(auto, using(crate::proofs::Judged::chart_got))]
fn chart_there<'a>(
    charts: &'a [Option<Vec<GraphItem>>],
    number: Option<usize>,
) -> Option<&'a Vec<GraphItem>>
    ensures { option_map (λ v. graph_view v.now.items) result
        ≡ option_and_then (there_at (charts_view charts.entry.now)) number }
{
    let Some(number) = number else {
        return None;
    };
    match charts.get(number) {
        Some(Some(chart)) => Some(chart),
        _ => None,
    }
}

/// Takes the chart of a number out.
#[tactic(auto, using(crate::proofs::Judged::chart_got, crate::proofs::Judged::chart_set, crate::proofs::Judged::chart_past))]
fn take_chart(charts: &mut Vec<Option<Vec<GraphItem>>>, number: usize) -> Option<Vec<GraphItem>>
    ensures chart { option_map (λ v. graph_view v.items) result
        ≡ there_at (charts_view charts.old.items) number }
    ensures charts { charts_view charts.new.items
        ≡ slice_set (charts_view charts.old.items) number None }
{
    if number < charts.len() {
        charts[number].take()
    } else {
        None
    }
}

#[tactic(auto, using(crate::proofs::Judged::chart_set, crate::proofs::Judged::chart_past))]
fn set_chart(charts: &mut Vec<Option<Vec<GraphItem>>>, number: usize, chart: Vec<GraphItem>)
    ensures { charts_view charts.new.items
        ≡ slice_set (charts_view charts.old.items) number (Some (graph_view chart.items)) }
{
    if number < charts.len() {
        charts[number] = Some(chart);
    }
}

/// Lets the chart of a base go, unless it is needed behind a place.
fn let_go(
    charts: &mut Vec<Option<Vec<GraphItem>>>,
    last: &[usize],
    place: usize,
    base: Option<usize>,
)
    ensures { charts_view charts.new.items
        ≡ let_go last.now place base (charts_view charts.old.items) }
{
    let Some(base) = base else {
        return;
    };
    if !is_needed_later(last, place, base) {
        take_chart(charts, base);
    }
}

/// The chart of a base, for the class at a place: a copy where it is needed behind the place, and else
/// the chart itself.
fn base_chart(
    alloc: Global,
    charts: &mut Vec<Option<Vec<GraphItem>>>,
    last: &[usize],
    place: usize,
    base: Option<usize>,
) -> Result<Option<Vec<GraphItem>>, AllocError>
    ensures chart { IfOk result (λ chart.
        option_map (λ v. graph_view v.items) chart
        ≡ option_and_then (there_at (charts_view charts.old.items)) base) }
    ensures charts { OnOk result (charts_view charts.new.items
        ≡ let_go last.now place base (charts_view charts.old.items)) }
{
    let Some(number) = base else {
        return Ok(None);
    };
    if !is_needed_later(last, place, number) {
        return Ok(take_chart(charts, number));
    }
    match chart_there(charts.as_slice(), base) {
        Some(chart) => Ok(Some(copy_items(alloc, chart)?)),
        None => Ok(None),
    }
}

// ---- the judgement

/// Whether the refinements of a class name what the chart of its base has.
fn known_there<'a>(
    alloc: Global,
    own: &ActorClass,
    chart: Option<&'a Vec<GraphItem>>,
) -> Result<bool, AllocError>
    ensures { IfOk result (λ b.
        b
        ≡ known_there (actor_view own.now) (option_map (λ v. graph_view v.now.items) chart.entry)) }
{
    match chart {
        Some(chart) => chart_is_known(alloc, chart.as_slice(), own),
        None => Ok(true),
    }
}

/// Puts the chart of a class in its place, if it is needed, and lets the base's go, if that isn't.
fn pass_on(
    alloc: Global,
    own: &ActorClass,
    base: Option<usize>,
    charts: &mut Vec<Option<Vec<GraphItem>>>,
    last: &[usize],
    place: usize,
    number: usize,
) -> Result<(), AllocError>
    ensures { OnOk result (charts_view charts.new.items ≡ keep last.now place number
        (chart_over (actor_view own.now) (option_and_then (there_at (charts_view charts.old.items))
        base))
        (let_go last.now place base (charts_view charts.old.items))) }
{
    if !is_needed_later(last, place, number) {
        let_go(charts, last, place, base);
        return Ok(());
    }
    let below = base_chart(alloc, charts, last, place, base)?;
    let chart = chart_over(alloc, own, below)?;
    set_chart(charts, number, chart);
    Ok(())
}

/// Judges the class of a number, which stands at a place. Whether its refinements name what its base has.
fn with_chart(
    alloc: Global,
    names: &NameIndex,
    classes: &[Class],
    last: &[usize],
    place: usize,
    charts: &mut Vec<Option<Vec<GraphItem>>>,
    number: usize,
) -> Result<bool, AllocError>
    ensures { IfOk result (λ known.
        with_chart names.now (map class_view classes.now) last.now place
        (charts_view charts.old.items) number
        ≡ (if known then Some (charts_view charts.new.items) else None)) }
{
    let Some(own) = actor_at(classes, number) else {
        return Ok(true);
    };
    let base = base_of(own, names);
    if !known_there(alloc, own, chart_there(charts.as_slice(), base))? {
        return Ok(false);
    }
    pass_on(alloc, own, base, charts, last, place, number)?;
    Ok(true)
}

fn none_kept(alloc: Global, classes: &[Class]) -> Result<Vec<Option<Vec<GraphItem>>>, AllocError>
    ensures { IfOk result (λ v. charts_view v.items ≡ none_taken (map class_view classes.now)) }
{
    let mut charts = Vec::new(alloc);
    for _class in classes {
        charts.push(None)?;
    }
    Ok(charts)
}

/// Whether the classes refine only what the flat charts of their bases have, judged in this order, in
/// which bases come first.
pub(crate) fn judged(
    alloc: Global,
    names: &NameIndex,
    classes: &[Class],
    order: &[usize],
    last: &[usize],
) -> Result<bool, AllocError>
    ensures { IfOk result (λ known.
        known ≡ judged names.now (map class_view classes.now) last.now 0 order.now
        (none_taken (map class_view classes.now))) }
{
    let mut charts = none_kept(alloc, classes)?;
    for (place, number) in order.iter().enumerate() {
        if !with_chart(alloc, names, classes, last, place, &mut charts, *number)? {
            return Ok(false);
        }
    }
    Ok(true)
}
