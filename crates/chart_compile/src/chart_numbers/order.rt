//! The order of a chart's nodes.
ghost use Rattle.std.specs.Prelude.{◌≡◌, ◌++◌, [], map, not, option_map, slice_get, IfOk, OnOk};
ghost use Rattle.std.specs.List.{cons_option};
ghost use Rattle.name_tables.specs.name_numbers.Names.{is_among, names_of};
ghost use Rattle.number_graphs.specs.class_containment.Containment.{IsContainmentOrder, NoneContainsItself};
ghost use Rattle.chart_reader.specs.chart_nodes.Steps.{step_view};
ghost use Rattle.chart_reader.specs.chart_nodes.Circles.{number_of, parts_of, targets_of};
ghost use Rattle.chart_compile.specs.chart_places.Groups.{picked};
ghost use Rattle.chart_compile.specs.chart_numbers.Order.{AllNumbered, AreNumbered, is_number, numbered, numbering, with_node, with_step};

use chart_reader::{Step, node_order, target_index};
use name_tables::{NameIndex, Numbers};
use std::alloc::{AllocError, Global};

/// The numbers of steps in an order in which each node stands after those that it leads to.
fn ordered(alloc: Global, steps: &[Step]) -> Result<Vec<usize>, AllocError>
    requires { NoneContainsItself (parts_of (map step_view steps.now)) }
    ensures { IfOk result (λ order.
        IsContainmentOrder (parts_of (map step_view steps.now)) order.items) }
{
    match node_order(alloc, steps)? {
        Some(order) => Ok(order),
        None => unreachable!(),
    }
}

/// The step with a number.
fn step_at<'a, 'b>(steps: &'a [Step<'b>], number: usize) -> Option<&'a Step<'b>>
    ensures { option_map (λ s. s.now) result ≡ slice_get steps.entry.now number }
{
    steps.get(number)
}

/// Whether a step is the first that leads to the node with its key.
fn is_first<'a>(first: &NameIndex<'a>, key: &[u8], step: usize) -> bool
    ensures { result ≡ is_number (number_of first.now key.now) step }
{
    match first.place_of(key) {
        Some(number) => number == step,
        None => false,
    }
}

/// Gives the node with a key the next number, if it has none.
#[tactic(auto, unfolding(crate::specs::chart_numbers::Order::with_node))]
fn add_node<'a>(
    keys: &mut Numbers<'a>,
    targets: &mut Vec<usize>,
    key: &'a [u8],
    step: usize,
) -> Result<(), AllocError>
    ensures { OnOk result (numbering keys.new targets.new.items ≡ with_node
        (not (is_among keys.old key.now)) step key.now (numbering keys.old targets.old.items)) }
{
    if keys.add(key)? {
        targets.push(step)?;
    }
    Ok(())
}

/// Gives the node of a step the next number, if the step is the first that leads there.
fn add_step<'a, 'b>(
    steps: &'a [Step<'b>],
    first: &NameIndex<'a>,
    step: usize,
    keys: &mut Numbers<'a>,
    targets: &mut Vec<usize>,
) -> Result<(), AllocError>
    requires { first.now ≡ targets_of (map step_view steps.now) }
    ensures { OnOk result (numbering keys.new targets.new.items
        ≡ with_step (map step_view steps.now) (numbering keys.old targets.old.items) step) }
{
    let Some(leading) = step_at(steps, step) else {
        return Ok(());
    };
    let key = leading.target.as_slice();
    if is_first(first, key, step) {
        add_node(keys, targets, key, step)?;
    }
    Ok(())
}

/// Numbers the nodes of steps in the order in which these are gone through.
fn add_steps<'a, 'b>(
    alloc: Global,
    steps: &'a [Step<'b>],
    first: &NameIndex<'a>,
    order: &[usize],
    keys: &mut Numbers<'a>,
) -> Result<Vec<usize>, AllocError>
    requires empty { keys.old ≡ [] }
    requires indexed { first.now ≡ targets_of (map step_view steps.now) }
    ensures { IfOk result (λ targets.
        numbering keys.new targets.items ≡ numbered (map step_view steps.now) order.now) }
{
    let mut targets = Vec::new(alloc);
    for step in order {
        add_step(steps, first, *step, keys, &mut targets)?;
    }
    Ok(targets)
}

/// Adds the key of the node that the step with a number leads to, if there is such a step.
fn add_key<'a, 'b>(
    steps: &'a [Step<'b>],
    number: usize,
    keys: &mut Vec<&'a [u8]>,
) -> Result<(), AllocError>
    ensures { OnOk result (names_of keys.new.items ≡ names_of keys.old.items
        ++ targets_of (cons_option (slice_get (map step_view steps.now) number) [])) }
{
    let Some(step) = step_at(steps, number) else {
        return Ok(());
    };
    keys.push(step.target.as_slice())?;
    Ok(())
}

/// An index of the keys of the nodes that the steps with some numbers lead to, in their order.
fn target_keys<'a, 'b>(
    alloc: Global,
    steps: &'a [Step<'b>],
    targets: &[usize],
) -> Result<NameIndex<'a>, AllocError>
    ensures { IfOk result (λ keys.
        keys ≡ targets_of (picked (map step_view steps.now) targets.now)) }
{
    let mut keys = Vec::new(alloc);
    for number in targets {
        add_key(steps, *number, &mut keys)?;
    }
    let index = NameIndex::of(alloc, keys)?;
    Ok(index)
}

/// The nodes in the order of their numbers: their keys, and for each the number of the first step that
/// leads to it.
#[derive(Drop)]
pub struct NodeOrder<'a> {
    pub keys: NameIndex<'a>,
    pub targets: Vec<usize>,
}

/// Numbers the nodes to which steps lead, so that each leads to lower ones. It takes time in
/// proportion to the steps and their keys.
pub fn number_nodes<'a, 'b>(
    alloc: Global,
    steps: &'a [Step<'b>],
) -> Result<NodeOrder<'a>, AllocError>
    requires { NoneContainsItself (parts_of (map step_view steps.now)) }
    ensures numbered { IfOk result (λ nodes.
        AreNumbered (map step_view steps.now) nodes.keys nodes.targets.items) }
    ensures all { IfOk result (λ nodes. AllNumbered (map step_view steps.now) nodes.keys) }
{
    let first = target_index(alloc, steps)?;
    let order = ordered(alloc, steps)?;
    let mut seen = Numbers::new(alloc);
    let targets = add_steps(alloc, steps, &first, order.as_slice(), &mut seen)?;
    let keys = target_keys(alloc, steps, targets.as_slice())?;
    Ok(NodeOrder { keys, targets })
}
