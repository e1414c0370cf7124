//! Refinements on their way to what they refine.
ghost use Rattle.std.specs.Prelude.{◌≡◌, ◌++◌, IfOk, OnOk, option_map};
ghost use Rattle.std.specs.Option.{option_to_list};
ghost use Rattle.room_ast.specs.ChartTree.{body_view, item_view, graph_view};
ghost use Rattle.derived_classes.specs.Refining.{GivesTheSame, change_of_state, meant_for, with_name, as_refining, refinements};
ghost use Rattle.derived_classes.specs.Views.{IsGrouped, of_state, refining_view, refining_views};

use crate::refining::grouped::Grouped;
use name_tables::Numbers;
use room_ast::{Change, GraphItem, Name, StateBody};
use std::alloc::{AllocError, Global};

/// A refinement as a graph or a state sees it: the names that lead to what it refines from there.
#[derive(Clone, Copy, Drop)]
pub(crate) struct Pending<'a> {
    /// The first of the names. There is none where the state itself is refined.
    pub(crate) next: Option<&'a Name>,
    /// The names behind it.
    pub(crate) others: &'a [Name],
    pub(crate) change: &'a Change,
}

fn as_refining<'a>(item: &'a GraphItem) -> Option<Pending<'a>>
    ensures { option_map refining_view result ≡ as_refining (item_view item.now) }
{
    match item {
        GraphItem::Refinement(refinement) => Some(Pending {
            next: Some(&refinement.path.first),
            others: refinement.path.others.as_slice(),
            change: &refinement.change,
        }),
        GraphItem::State(_) => None,
        GraphItem::Choice(_) => None,
        GraphItem::Point(_) => None,
        GraphItem::Transition(_) => None,
    }
}

fn push_if<'a>(pending: &mut Vec<Pending<'a>>, one: Option<Pending<'a>>) -> Result<(), AllocError>
    ensures { OnOk result (pending.new.items ≡ pending.old.items ++ option_to_list one.entry) }
{
    if let Some(one) = one {
        pending.push(one)?;
    }
    Ok(())
}

/// The refinements among the items of a graph.
pub(crate) fn refinements<'a>(
    alloc: Global,
    items: &'a Vec<GraphItem>,
) -> Result<Vec<Pending<'a>>, AllocError>
    ensures { IfOk result (λ v. refining_views v.items ≡ refinements (graph_view items.now.items)) }
{
    let mut found = Vec::new(alloc);
    for item in items {
        push_if(&mut found, as_refining(item))?;
    }
    Ok(found)
}

/// A refinement one name further.
pub(crate) fn behind<'a>(one: &Pending<'a>) -> Pending<'a>
    ensures path { (refining_view result).path ≡ one.now.others.now }
    ensures change { (refining_view result).change ≡ (refining_view one.now).change }
{
    match one.others {
        [] => Pending {
            next: None,
            others: one.others,
            change: one.change,
        },
        [next, others @ ..] => Pending {
            next: Some(next),
            others,
            change: one.change,
        },
    }
}

/// Copies of refinements, which are references.
fn copies<'a>(alloc: Global, pending: &[Pending<'a>]) -> Result<Vec<Pending<'a>>, AllocError>
    ensures { IfOk result (λ v. v.items ≡ pending.now) }
{
    let mut copies = Vec::new(alloc);
    for one in pending {
        copies.push(*one)?;
    }
    Ok(copies)
}

/// The refinements that a state gets. Of the states of one name the first is meant, which `seen` tells:
/// it has those of the names before it that refinements lead to.
pub(super) fn meant_for<'p, 'a>(
    alloc: Global,
    seen: &mut Numbers<'a>,
    name: &[u8],
    grouped: &Grouped<'p, 'a>,
) -> Result<Vec<Pending<'a>>, AllocError>
    requires { IsGrouped grouped.now }
    ensures meant { IfOk result (λ v.
        refining_views v.items
        ≡ meant_for seen.old name.now (refining_views grouped.now.pending.now)) }
    ensures names { OnOk result (GivesTheSame (refining_views grouped.now.pending.now) seen.new
        (with_name name.now seen.old)) }
{
    let Some((name, inside)) = grouped.inside(name) else {
        return Ok(Vec::new(alloc));
    };
    if seen.add(name)? {
        copies(alloc, inside)
    } else {
        Ok(Vec::new(alloc))
    }
}

/// What a refinement adds to the state that sees it, if it is meant for that state itself.
pub(super) fn change_of_state<'a>(one: &Pending<'a>) -> Option<&'a StateBody>
    ensures { option_map (λ b. of_state (body_view b.now)) result
        ≡ change_of_state (refining_view one.now).path (refining_view one.now).change }
{
    if one.next.is_some() {
        return None;
    }
    match one.change {
        Change::State(body) => Some(body),
        Change::Transition(_) => None,
    }
}
