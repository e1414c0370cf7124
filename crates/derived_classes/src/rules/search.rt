//! Refinements that are looked for in graphs, all of them at once: each round takes them one name
//! further, into the graphs of states, and reads each graph that they come to once.
ghost use Rattle.std.specs.Prelude.{◌≡◌, ◌++◌, ◌∷◌, [], Some, None, map, option_map, position, IfOk, OnOk, if◌then◌else◌};
ghost use Rattle.name_tables.specs.name_numbers.Names.{same};
ghost use Rattle.room_ast.specs.ChartTree.{graph_view, state_view};
ghost use Rattle.derived_classes.specs.Searching.{inside, no_names, note_items, sought_at, sought_in, passed, all_passed, searched, further, next_of, all_succeed, are_named};
ghost use Rattle.derived_classes.specs.Views.{change_view, refining_view, refining_views, search_view, search_views, transition_names};

use crate::refining::Pending;
use crate::rules::named::graph_in;
use crate::rules::names::{TransitionNames, names_of_states, states_in};
use name_tables::NameIndex;
use room_ast::{Change, GraphItem, Name, State};
use std::alloc::{AllocError, Global};

/// Refinements that are looked for in a graph.
#[derive(Drop)]
struct Search<'a> {
    graph: &'a [GraphItem],
    sought: Vec<Pending<'a>>,
}

/// The graphs of states, in which nothing is looked for yet.
fn graphs_inside<'a>(alloc: Global, states: &[&'a State]) -> Result<Vec<Search<'a>>, AllocError>
    ensures { IfOk result (λ v.
        search_views v.items ≡ map inside (map (λ s. state_view s.now) states.now)) }
{
    let mut searches = Vec::new(alloc);
    for state in states {
        searches.push(Search {
            graph: graph_in(*state),
            sought: Vec::new(alloc),
        })?;
    }
    Ok(searches)
}

/// Looks for a refinement in a graph.
fn seek<'a>(search: &mut Search<'a>, one: Pending<'a>) -> Result<(), AllocError>
    ensures graph { OnOk result (search.new.graph ≡ search.old.graph) }
    ensures sought { OnOk result (search.new.sought.items
        ≡ search.old.sought.items ++ one.entry ∷ []) }
{
    search.sought.push(one)?;
    Ok(())
}

/// Looks for a refinement in the graph at a place.
#[tactic(auto, using(crate::proofs::Found::sought_set, crate::proofs::Found::sought_past))]
fn seek_at<'a>(
    searches: &mut Vec<Search<'a>>,
    place: usize,
    one: Pending<'a>,
) -> Result<(), AllocError>
    ensures { OnOk result (search_views searches.new.items
        ≡ sought_at (search_views searches.old.items) place (refining_view one.entry)) }
{
    if place < searches.len() {
        seek(&mut searches[place], one)?;
    }
    Ok(())
}

/// Looks for a refinement in the graph of the state of a name, if there is one. Whether there is.
fn seek_in<'a>(
    states: &NameIndex<'a>,
    name: &Name,
    one: Pending<'a>,
    searches: &mut Vec<Search<'a>>,
) -> Result<bool, AllocError>
    ensures { IfOk result (λ found.
        (if found then Some (search_views searches.new.items) else None)
        ≡ sought_in (position (same name.now) states.now) (refining_view one.entry)
        (search_views searches.old.items)) }
{
    match states.place_of(name.as_bytes()) {
        Some(place) => {
            seek_at(searches, place, one)?;
            Ok(true)
        }
        None => Ok(false),
    }
}

/// Takes a refinement one name further: the name of a state and those behind it, or the name of what is
/// refined. Whether a graph with these names has what the name names.
fn pass_name<'a>(
    states: &NameIndex<'a>,
    transitions: &TransitionNames<'a>,
    name: &Name,
    others: &'a [Name],
    change: &'a Change,
    searches: &mut Vec<Search<'a>>,
) -> Result<bool, AllocError>
    ensures { IfOk result (λ found.
        (if found then Some (search_views searches.new.items) else None)
        ≡ passed states.now (transition_names transitions.now) (name.now ∷ others.entry.now)
        (change_view change.entry.now) (search_views searches.old.items)) }
{
    match (others, change) {
        ([], Change::Transition(_)) => Ok(transitions.has_one(name)),
        ([], Change::State(_)) => {
            let itself = Pending {
                next: None,
                others,
                change,
            };
            seek_in(states, name, itself, searches)
        }
        ([next, others @ ..], _) => {
            let behind = Pending {
                next: Some(next),
                others,
                change,
            };
            seek_in(states, name, behind, searches)
        }
    }
}

/// Takes a refinement one name further. Whether a graph with these names has what that names.
fn pass<'a>(
    states: &NameIndex<'a>,
    transitions: &TransitionNames<'a>,
    one: &Pending<'a>,
    searches: &mut Vec<Search<'a>>,
) -> Result<bool, AllocError>
    ensures { IfOk result (λ found.
        (if found then Some (search_views searches.new.items) else None)
        ≡ passed states.now (transition_names transitions.now) (refining_view one.now).path
        (refining_view one.now).change (search_views searches.old.items)) }
{
    match (one.next, one.change) {
        (Some(name), change) => pass_name(states, transitions, name, one.others, change, searches),
        (None, Change::State(_)) => Ok(true),
        (None, Change::Transition(_)) => Ok(false),
    }
}

/// Takes all refinements that are looked for in a graph one name further, into the graphs of its states.
fn pass_all<'a>(
    states: &NameIndex<'a>,
    transitions: &TransitionNames<'a>,
    sought: &[Pending<'a>],
    inside: Vec<Search<'a>>,
) -> Result<Option<Vec<Search<'a>>>, AllocError>
    ensures { IfOk result (λ found.
        option_map (λ v. search_views v.items) found
        ≡ all_passed states.now (transition_names transitions.now) (refining_views sought.now)
        (search_views inside.entry.items)) }
{
    let mut searches = inside;
    for one in sought {
        if !pass(states, transitions, one, &mut searches)? {
            return Ok(None);
        }
    }
    Ok(Some(searches))
}

/// The searches in the graphs of these states, which have these names, that come of what is looked for in
/// the graph that they stand in; none where that hasn't what it names.
fn passed_on<'a>(
    alloc: Global,
    graph: &'a [GraphItem],
    states: &[&'a State],
    names: &NameIndex<'a>,
    sought: &[Pending<'a>],
) -> Result<Option<Vec<Search<'a>>>, AllocError>
    ensures { IfOk result (λ found.
        option_map (λ v. search_views v.items) found
        ≡ all_passed names.now (note_items (graph_view graph.entry.now) no_names) (refining_views
        sought.now)
        (map inside (map (λ s. state_view s.now) states.now))) }
{
    let transitions = TransitionNames::of(alloc, graph)?;
    let inside = graphs_inside(alloc, states)?;
    pass_all(names, &transitions, sought, inside)
}

/// The searches in the graphs of a graph's states that come of what is looked for in the graph; none
/// where the graph hasn't what that names. It takes time in proportion to the graph and to what is looked for.
fn searched<'a>(
    alloc: Global,
    graph: &'a [GraphItem],
    sought: &[Pending<'a>],
) -> Result<Option<Vec<Search<'a>>>, AllocError>
    ensures { IfOk result (λ found.
        option_map (λ v. search_views v.items) found
        ≡ searched (graph_view graph.entry.now) (refining_views sought.now)) }
{
    let states = states_in(alloc, graph)?;
    let names = names_of_states(alloc, states.as_slice())?;
    passed_on(alloc, graph, states.as_slice(), &names, sought)
}

/// Adds the searches that come of a search. Whether its graph has what is looked for.
#[tactic(auto, using(crate::proofs::Found::none_sought, crate::proofs::Found::all_further))]
fn go_on<'a>(
    alloc: Global,
    search: &Search<'a>,
    next: &mut Vec<Search<'a>>,
) -> Result<bool, AllocError>
    ensures { IfOk result (λ found.
        (if found then Some (search_views next.new.items) else None)
        ≡ further (search_view search.now) (search_views next.old.items)) }
{
    if search.sought.is_empty() {
        return Ok(true);
    }
    match searched(alloc, search.graph, search.sought.as_slice())? {
        Some(more) => {
            let mut more = more;
            next.append(&mut more)?;
            Ok(true)
        }
        None => Ok(false),
    }
}

/// The searches that come of all of these, one name further; none where one of them fails.
fn next_round<'a>(
    alloc: Global,
    searches: &[Search<'a>],
) -> Result<Option<Vec<Search<'a>>>, AllocError>
    ensures { IfOk result (λ next.
        option_map (λ v. search_views v.items) next ≡ next_of (search_views searches.now) []) }
{
    let mut next = Vec::new(alloc);
    for search in searches {
        if !go_on(alloc, search, &mut next)? {
            return Ok(None);
        }
    }
    Ok(Some(next))
}

/// Whether each graph has what is looked for in it.
#[tactic(auto, using(crate::proofs::Found::no_more, crate::proofs::Found::one_more))]
fn all_succeed<'a>(alloc: Global, searches: Vec<Search<'a>>) -> Result<bool, AllocError>
    ensures { IfOk result (λ b. b ≡ all_succeed (search_views searches.entry.items)) }
{
    let mut searches = searches;
    while !searches.is_empty() {
        let Some(next) = next_round(alloc, searches.as_slice())? else {
            return Ok(false);
        };
        searches = next;
    }
    Ok(true)
}

/// Whether a graph has what each of these refinements names. It takes time in proportion to the graph
/// and to the names of the refinements.
pub(super) fn are_named<'a>(
    alloc: Global,
    graph: &'a [GraphItem],
    sought: Vec<Pending<'a>>,
) -> Result<bool, AllocError>
    ensures { IfOk result (λ b.
        b ≡ are_named (graph_view graph.entry.now) (refining_views sought.entry.items)) }
{
    let mut searches = Vec::new(alloc);
    searches.push(Search { graph, sought })?;
    all_succeed(alloc, searches)
}
