//! Rows of states, and the transitions from transition points.
ghost use Rattle.std.specs.Prelude.{◌≡◌, ◌∷◌, true, map, IfOk};
ghost use Rattle.name_tables.specs.name_numbers.Names.{is_among};
ghost use Rattle.chart_model.specs.chart_plan.Same.{Each};
ghost use Rattle.chart_model.specs.Named.{outward};
ghost use Rattle.chart_reader.specs.chart_nodes.Steps.{step_view};
ghost use Rattle.chart_compile.specs.chart_places.Places.{place_view};
ghost use Rattle.chart_compile.specs.chart_places.Groups.{IsGrouped};
ghost use Rattle.chart_compile.specs.chart_parts.Parts.{ArePlaced, HaveShortNumbers, IsPlaced, IsRow, IsShared, IsState, LeadTo, key_of};

use crate::chart_places::Place;
use crate::chart_rows::arrows::arrows_of;
use crate::chart_rows::lookup::{number, state_number, steps_at};
use action_program::copy_program;
use chart_reader::{Step, named_key, plain_key};
use chart_run::{Arrow, Row};
use name_tables::NameIndex;
use room_ast::Name;
use room_kinds::Sequence;
use std::alloc::{AllocError, Global};

/// The numbers of a state and of those that have it, from inner to outer, which have numbers.
fn up_line<'c>(
    alloc: Global,
    states: &NameIndex<'c>,
    name: &Name,
    owner: &[Name],
) -> Result<Vec<u16>, AllocError>
    requires { HaveShortNumbers states.now (name.now ∷ owner.now) }
    ensures { IfOk result (λ up.
        Each (IsState states.now) up.items (outward (name.now ∷ owner.now))) }
{
    let mut up = Vec::new(alloc);
    let own = state_number(alloc, states, name, owner)?;
    up.push(own)?;
    let mut rest = owner;
    'outward: while let Some((outer, others)) = rest.split_first() {
        let next = state_number(alloc, states, outer, others)?;
        up.push(next)?;
        rest = others;
    }
    Ok(up)
}

/// The row of a state.
fn make_row<'b, 's, 'g, 'n, 'p>(
    alloc: Global,
    states: &NameIndex<'s>,
    graphs: &NameIndex<'g>,
    nodes: &NameIndex<'n>,
    steps: &[Step<'b>],
    own: &[Sequence<usize>],
    place: &Place<'p>,
) -> Result<Row, AllocError>
    requires grouped { IsGrouped states.now own.now (map step_view steps.now) }
    requires known { is_among states.now (key_of (place_view place.now)) ≡ true }
    requires placed { IsPlaced states.now graphs.now (place_view place.now) }
    requires lead { LeadTo nodes.now (map step_view steps.now) }
    ensures { IfOk result (λ row.
        IsRow states.now graphs.now nodes.now (map step_view steps.now) row
        (place_view place.now)) }
{
    let state = place.state;
    let owner = place.graph.owner.as_slice();
    let up = up_line(alloc, states, &state.name, owner)?;
    let entry = copy_program(alloc, &state.entry)?;
    let exit = copy_program(alloc, &state.exit)?;
    let key = named_key(alloc, 1, &state.name, owner)?;
    let group = steps_at(states, own, key.as_slice());
    let arrows = arrows_of(alloc, nodes, steps, group)?;
    let graph_key = plain_key(alloc, 2, owner)?;
    let graph = number(graphs, graph_key.as_slice());
    Ok(Row {
        up,
        entry,
        exit,
        own: arrows,
        graph,
    })
}

/// The rows of states, in the order of their numbers.
pub fn rows_of<'b, 's, 'g, 'n, 'p>(
    alloc: Global,
    states: &NameIndex<'s>,
    graphs: &NameIndex<'g>,
    nodes: &NameIndex<'n>,
    steps: &[Step<'b>],
    own: &[Sequence<usize>],
    places: &[Place<'p>],
) -> Result<Vec<Row>, AllocError>
    requires grouped { IsGrouped states.now own.now (map step_view steps.now) }
    requires keyed { states.now ≡ map key_of (map place_view places.now) }
    requires placed { ArePlaced states.now graphs.now (map place_view places.now) }
    requires lead { LeadTo nodes.now (map step_view steps.now) }
    ensures { IfOk result (λ rows.
        Each (IsRow states.now graphs.now nodes.now (map step_view steps.now)) rows.items
        (map place_view places.now)) }
{
    let mut rows = Vec::new(alloc);
    for place in places {
        let row = make_row(alloc, states, graphs, nodes, steps, own, place)?;
        rows.push(row)?;
    }
    Ok(rows)
}

fn make_shared<'b, 'g, 'n>(
    alloc: Global,
    graphs: &NameIndex<'g>,
    nodes: &NameIndex<'n>,
    steps: &[Step<'b>],
    groups: &[Sequence<usize>],
    key: &[u8],
) -> Result<Vec<Arrow>, AllocError>
    requires grouped { IsGrouped graphs.now groups.now (map step_view steps.now) }
    requires known { is_among graphs.now key.now ≡ true }
    requires lead { LeadTo nodes.now (map step_view steps.now) }
    ensures { IfOk result (λ arrows. IsShared nodes.now (map step_view steps.now) arrows key.now) }
{
    let group = steps_at(graphs, groups, key);
    let arrows = arrows_of(alloc, nodes, steps, group)?;
    Ok(arrows)
}

/// For each graph the transitions from its transition points.
pub fn shared_of<'b, 'g, 'n>(
    alloc: Global,
    graphs: &NameIndex<'g>,
    nodes: &NameIndex<'n>,
    steps: &[Step<'b>],
    groups: &[Sequence<usize>],
    keys: &[Sequence<u8>],
) -> Result<Vec<Vec<Arrow>>, AllocError>
    requires grouped { IsGrouped graphs.now groups.now (map step_view steps.now) }
    requires keyed { graphs.now ≡ keys.now }
    requires lead { LeadTo nodes.now (map step_view steps.now) }
    ensures { IfOk result (λ shared.
        Each (IsShared nodes.now (map step_view steps.now)) shared.items keys.now) }
{
    let mut shared = Vec::new(alloc);
    for key in keys {
        let arrows = make_shared(alloc, graphs, nodes, steps, groups, key.as_slice())?;
        shared.push(arrows)?;
    }
    Ok(shared)
}
