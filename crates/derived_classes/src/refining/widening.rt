//! What refinements make of a state's body and of a transition.
ghost use Rattle.std.specs.Prelude.{◌≡◌, ◌++◌, Some, IfOk, OnOk, map, option_map};
ghost use Rattle.room_ast.specs.ChartTree.{body_of, body_view, body_if_view, item_view};
ghost use Rattle.derived_classes.specs.Codes.{texts_of, joined, joined_if};
ghost use Rattle.derived_classes.specs.Refining.{acting_also, actions_for, all_acting, joined_subgraph, new_body, refined_transition, widened};
ghost use Rattle.derived_classes.specs.Views.{IsGrouped, actions_if, of_state, refining_views, subgraph_tree};

use crate::copies::{copy_body, copy_code, copy_item, copy_text};
use crate::refining::grouped::{Group, Grouped};
use room_ast::{Code, CodeText, GraphItem, Name, StateBody, Transition, TransitionBody};
use room_kinds::Sequence;
use std::alloc::{AllocError, Global};

/// Adds copies of the texts of a code.
fn add_texts(alloc: Global, texts: &mut Vec<CodeText>, code: &Code) -> Result<(), AllocError>
    ensures { OnOk result (texts.new.items ≡ texts.old.items ++ texts_of code.now) }
{
    match code {
        Code::Single(text) => {
            let text = copy_text(alloc, text)?;
            texts.push(text)?;
            Ok(())
        }
        Code::Texts(more) => add_copies(alloc, texts, more.as_slice()),
    }
}

fn add_copies(alloc: Global, texts: &mut Vec<CodeText>, more: &[CodeText]) -> Result<(), AllocError>
    ensures { OnOk result (texts.new.items ≡ texts.old.items ++ more.now) }
{
    for text in more {
        let text = copy_text(alloc, text)?;
        texts.push(text)?;
    }
    Ok(())
}

/// The texts of a code. Those that stand in braces are not moved.
fn into_texts(alloc: Global, code: Code) -> Result<Vec<CodeText>, AllocError>
    ensures { IfOk result (λ texts. texts.items ≡ texts_of code) }
{
    match code {
        Code::Single(text) => {
            let mut texts = Vec::new(alloc);
            texts.push(text)?;
            Ok(texts)
        }
        Code::Texts(texts) => Ok(texts.into_vec()),
    }
}

/// The texts of a code and then copies of those of another.
fn joined(alloc: Global, first: Code, second: &Code) -> Result<Code, AllocError>
    ensures { IfOk result (λ c. c ≡ joined first second.now) }
{
    let mut texts = into_texts(alloc, first)?;
    add_texts(alloc, &mut texts, second)?;
    Ok(Code::Texts(Sequence::from(texts)))
}

/// Copies of the texts of a code and then the texts of another.
fn joined_before(alloc: Global, first: &Code, second: Code) -> Result<Code, AllocError>
    ensures { IfOk result (λ c. c ≡ joined first.now second) }
{
    let mut texts = Vec::new(alloc);
    add_texts(alloc, &mut texts, first)?;
    let mut behind = into_texts(alloc, second)?;
    texts.append(&mut behind)?;
    Ok(Code::Texts(Sequence::from(texts)))
}

/// A code, and behind it a copy of another one, where either may be missing.
fn joined_if(
    alloc: Global,
    first: Option<Code>,
    second: &Option<Code>,
) -> Result<Option<Code>, AllocError>
    ensures { IfOk result (λ c. c ≡ joined_if first second.now) }
{
    match (first, second) {
        (Some(first), Some(second)) => Ok(Some(joined(alloc, first, second)?)),
        (Some(first), None) => Ok(Some(first)),
        (None, Some(second)) => Ok(Some(copy_code(alloc, second)?)),
        (None, None) => Ok(None),
    }
}

/// A code, and before it a copy of another one, where either may be missing.
fn joined_before_if(
    alloc: Global,
    first: &Option<Code>,
    second: Option<Code>,
) -> Result<Option<Code>, AllocError>
    ensures { IfOk result (λ c. c ≡ joined_if first.now second) }
{
    match (first, second) {
        (Some(first), Some(second)) => Ok(Some(joined_before(alloc, first, second)?)),
        (Some(first), None) => Ok(Some(copy_code(alloc, first)?)),
        (None, Some(second)) => Ok(Some(second)),
        (None, None) => Ok(None),
    }
}

/// Adds copies of the items of a graph.
pub(crate) fn add_items(
    alloc: Global,
    items: &mut Vec<GraphItem>,
    more: &Vec<GraphItem>,
) -> Result<(), AllocError>
    ensures { OnOk result (map item_view items.new.items
        ≡ map item_view items.old.items ++ map item_view more.now.items) }
{
    for item in more {
        let item = copy_item(alloc, item)?;
        items.push(item)?;
    }
    Ok(())
}

/// The items of a subgraph and then those that a refinement has.
#[tactic(auto, using(crate::proofs::Graphs::followed_lists))]
fn joined_subgraph(
    alloc: Global,
    items: Option<Vec<GraphItem>>,
    more: &Option<Vec<GraphItem>>,
) -> Result<Option<Vec<GraphItem>>, AllocError>
    ensures { IfOk result (λ s.
        subgraph_tree s ≡ joined_subgraph (subgraph_tree items) (subgraph_tree more.now)) }
{
    let Some(more) = more else {
        return Ok(items);
    };
    let mut items = match items {
        Some(items) => items,
        None => Vec::new(alloc),
    };
    add_items(alloc, &mut items, more)?;
    Ok(Some(items))
}

/// A state's body with what a refinement adds.
fn widened_body(alloc: Global, body: StateBody, change: &StateBody) -> Result<StateBody, AllocError>
    ensures { IfOk result (λ b.
        body_of (Some (body_view b))
        ≡ widened (of_state (body_view change.now)) (body_of (Some (body_view body)))) }
{
    let entry = joined_if(alloc, body.entry, &change.entry)?;
    let exit = joined_before_if(alloc, &change.exit, body.exit)?;
    let subgraph = joined_subgraph(alloc, body.subgraph, &change.subgraph)?;
    Ok(StateBody {
        entry,
        exit,
        subgraph,
    })
}

/// A state's body, which may be missing, with what a refinement adds.
pub(super) fn widened(
    alloc: Global,
    body: Option<Box<StateBody>>,
    change: &StateBody,
) -> Result<Option<Box<StateBody>>, AllocError>
    ensures { IfOk result (λ b.
        body_if_view b ≡ widened (of_state (body_view change.now)) (body_if_view body)) }
{
    if let Some(body) = body {
        let body = widened_body(alloc, Box::into_inner(body), change)?;
        return Ok(Some(Box::new(alloc, body)?));
    }
    new_body(alloc, change)
}

/// The body that a state without one gets.
fn new_body(alloc: Global, change: &StateBody) -> Result<Option<Box<StateBody>>, AllocError>
    ensures { IfOk result (λ b.
        body_if_view b ≡ new_body (body_view change.now).entry (body_view change.now).exit
        (body_view change.now).subgraph) }
{
    match (&change.entry, &change.exit, &change.subgraph) {
        (None, None, None) => Ok(None),
        _ => {
            let body = copy_body(alloc, change)?;
            Ok(Some(Box::new(alloc, body)?))
        }
    }
}

/// A transition's body with an action that is added.
fn acting_also(
    alloc: Global,
    body: Option<TransitionBody>,
    code: &Code,
) -> Result<TransitionBody, AllocError>
    ensures { IfOk result (λ b. Some b ≡ acting_also code.now body) }
{
    let Some(body) = body else {
        let action = copy_code(alloc, code)?;
        return Ok(TransitionBody {
            triggers: None,
            condition: None,
            action: Some(action),
        });
    };
    let TransitionBody {
        triggers,
        condition,
        action,
    } = body;
    let action = match action {
        Some(action) => joined(alloc, action, code)?,
        None => copy_code(alloc, code)?,
    };
    Ok(TransitionBody {
        triggers,
        condition,
        action: Some(action),
    })
}

fn actions_for<'s, 'p, 'a>(
    name: &Option<Name>,
    grouped: &'s Grouped<'p, 'a>,
) -> Option<&'s Group<'a>>
    requires { IsGrouped grouped.now }
    ensures { actions_if result
        ≡ actions_for name.now (refining_views grouped.entry.now.pending.now) }
{
    match name {
        Some(name) => grouped.added_actions(name.as_bytes()),
        None => None,
    }
}

/// Adds a code to the action of a transition.
fn act_also(alloc: Global, transition: &mut Transition, code: &Code) -> Result<(), AllocError>
    ensures { OnOk result (transition.new
        ≡ record transition.old { body = acting_also code.now transition.old.body }) }
{
    let body = transition.body.take();
    transition.body = Some(acting_also(alloc, body, code)?);
    Ok(())
}

/// Adds to the action of a transition what refinements add.
pub(super) fn refine_transition<'p, 'a>(
    alloc: Global,
    transition: &mut Transition,
    grouped: &Grouped<'p, 'a>,
) -> Result<(), AllocError>
    requires { IsGrouped grouped.now }
    ensures { OnOk result (transition.new
        ≡ refined_transition (refining_views grouped.now.pending.now) transition.old) }
{
    let Some(group) = actions_for(&transition.name, grouped) else {
        return Ok(());
    };
    for code in &group.actions {
        act_also(alloc, transition, *code)?;
    }
    Ok(())
}
