//! Actor classes.
ghost use Rattle.std.specs.Prelude.{◌≡◌, option_map};
ghost use Rattle.room_lexer.specs.declared.word.Word.TheVariants as words;
ghost use Rattle.room_ast.specs.ChartTree.{graph_view};
ghost use Rattle.room_ast.specs.Trees.{behavior_view, actor_view};
ghost use Rattle.room_tokens.specs.Reader.{Gives, optional};
ghost use Rattle.room_tokens.specs.Single.{left, comes_word as comes_word_at, before_close as before_close_at};
ghost use Rattle.room_parser.specs.chart_parser.Graphs.{machine_at};
ghost use Rattle.room_parser.specs.Classes.{interface_item_at, interface_at, structure_item_at, structure_at, behavior_at, extends_at, actor_at};

use crate::chart_parser::state_machine;
use room_ast::{ActorClass, Behavior, InterfaceItem, Name, StateMachine, StructureItem};
use room_kinds::Sequence;
use room_lexer::{Mark, Word};
use room_tokens::{
    Part, ReadFault, Rest, before_close, braces, comes_word, place, take_mark, take_word,
    word_here, word_if,
};
use std::alloc::Global;
use structure_parser::{
    access, actor_ref, attribute, binding, external_port, implementation, layer, port, provision,
    usercode,
};

#[tactic(auto, unfolding(crate::specs::Classes::interface_item_at))]
fn interface_item<'a>(alloc: Global, rest: Rest<'a>) -> Result<(InterfaceItem, Rest<'a>), ReadFault>
    ensures { Gives (λ x. (x.0, left x.1)) result (interface_item_at (left rest.entry)) }
{
    match word_here(rest) {
        Some(Word::Port | Word::Conjugated) => {
            let (found, rest) = port(alloc, rest)?;
            Ok((InterfaceItem::Port(found), rest))
        }
        Some(Word::Spp) => {
            let (found, rest) = provision(alloc, rest)?;
            Ok((InterfaceItem::Service(found), rest))
        }
        _ => Err(ReadFault::Syntax(place(rest))),
    }
}

/// An item of an interface.
struct InterfaceItems;

impl Part for InterfaceItems {
    type Item = InterfaceItem;

    ghost goes_on = { before_close_at };

    ghost reads = { interface_item_at };

    fn comes(rest: Rest) -> bool {
        before_close(rest)
    }

    fn read<'a>(alloc: Global, rest: Rest<'a>) -> Result<(InterfaceItem, Rest<'a>), ReadFault> {
        interface_item(alloc, rest)
    }
}

/// `Interface` and items in braces, if they come
#[tactic(auto, unfolding(crate::specs::Classes::interface_at, room_tokens::specs::Reader::optional))]
fn interface_if<'a>(
    alloc: Global,
    rest: Rest<'a>,
) -> Result<(Option<Sequence<InterfaceItem>>, Rest<'a>), ReadFault>
    ensures { Gives (λ x. (x.0, left x.1)) result
        (optional (comes_word_at words.Interface) interface_at (left rest.entry)) }
{
    if !comes_word(rest, Word::Interface) {
        return Ok((None, rest));
    }
    let rest = take_word(rest, Word::Interface)?;
    let (items, rest) = braces::<InterfaceItems>(alloc, rest)?;
    Ok((Some(items), rest))
}

#[tactic(auto, unfolding(crate::specs::Classes::structure_item_at))]
fn structure_item<'a>(alloc: Global, rest: Rest<'a>) -> Result<(StructureItem, Rest<'a>), ReadFault>
    ensures { Gives (λ x. (x.0, left x.1)) result (structure_item_at (left rest.entry)) }
{
    match word_here(rest) {
        Some(Word::Usercode | Word::Usercode1 | Word::Usercode2 | Word::Usercode3) => {
            let (found, rest) = usercode(alloc, rest)?;
            Ok((StructureItem::Usercode(found), rest))
        }
        Some(Word::External) => {
            let (found, rest) = external_port(alloc, rest)?;
            Ok((StructureItem::External(found), rest))
        }
        Some(Word::Port | Word::Conjugated) => {
            let (found, rest) = port(alloc, rest)?;
            Ok((StructureItem::Port(found), rest))
        }
        Some(Word::Sap) => {
            let (found, rest) = access(alloc, rest)?;
            Ok((StructureItem::Access(found), rest))
        }
        Some(Word::ServiceImplementation) => {
            let (found, rest) = implementation(alloc, rest)?;
            Ok((StructureItem::Implementation(found), rest))
        }
        Some(Word::Attribute) => {
            let (found, rest) = attribute(alloc, rest)?;
            Ok((StructureItem::Attribute(found), rest))
        }
        Some(Word::ActorRef | Word::Fixed | Word::Optional | Word::Imported) => {
            let (found, rest) = actor_ref(alloc, rest)?;
            Ok((StructureItem::Reference(found), rest))
        }
        Some(Word::Binding) => {
            let (found, rest) = binding(alloc, rest)?;
            Ok((StructureItem::Binding(found), rest))
        }
        Some(Word::LayerConnection) => {
            let (found, rest) = layer(alloc, rest)?;
            Ok((StructureItem::Layer(found), rest))
        }
        _ => Err(ReadFault::Syntax(place(rest))),
    }
}

/// An item of a structure.
struct StructureItems;

impl Part for StructureItems {
    type Item = StructureItem;

    ghost goes_on = { before_close_at };

    ghost reads = { structure_item_at };

    fn comes(rest: Rest) -> bool {
        before_close(rest)
    }

    fn read<'a>(alloc: Global, rest: Rest<'a>) -> Result<(StructureItem, Rest<'a>), ReadFault> {
        structure_item(alloc, rest)
    }
}

/// `Structure` and items in braces, if they come
#[tactic(auto, unfolding(crate::specs::Classes::structure_at, room_tokens::specs::Reader::optional))]
fn structure_if<'a>(
    alloc: Global,
    rest: Rest<'a>,
) -> Result<(Option<Sequence<StructureItem>>, Rest<'a>), ReadFault>
    ensures { Gives (λ x. (x.0, left x.1)) result
        (optional (comes_word_at words.Structure) structure_at (left rest.entry)) }
{
    if !comes_word(rest, Word::Structure) {
        return Ok((None, rest));
    }
    let rest = take_word(rest, Word::Structure)?;
    let (items, rest) = braces::<StructureItems>(alloc, rest)?;
    Ok((Some(items), rest))
}

/// The state machine of a behavior, if it comes.
#[tactic(auto, unfolding(room_tokens::specs::Reader::optional))]
fn machine_if<'a>(
    alloc: Global,
    rest: Rest<'a>,
) -> Result<(Option<StateMachine>, Rest<'a>), ReadFault>
    ensures { Gives (λ x. (option_map (λ m. graph_view m.items.items) x.0, left x.1)) result
        (optional (comes_word_at words.StateMachine) machine_at (left rest.entry)) }
{
    if !comes_word(rest, Word::StateMachine) {
        return Ok((None, rest));
    }
    let (machine, rest) = state_machine(alloc, rest)?;
    Ok((Some(machine), rest))
}

/// `Behavior` and a state machine in braces
#[tactic(auto, unfolding(crate::specs::Classes::behavior_at))]
fn behavior<'a>(alloc: Global, rest: Rest<'a>) -> Result<(Behavior, Rest<'a>), ReadFault>
    ensures { Gives (λ x. (behavior_view x.0, left x.1)) result (behavior_at (left rest.entry)) }
{
    let rest = take_word(rest, Word::Behavior)?;
    let rest = take_mark(rest, Mark::OpenBrace)?;
    let (machine, rest) = machine_if(alloc, rest)?;
    let rest = take_mark(rest, Mark::CloseBrace)?;
    Ok((Behavior { machine }, rest))
}

/// The behavior of a class, if it comes.
#[tactic(auto, unfolding(room_tokens::specs::Reader::optional))]
fn behavior_if<'a>(alloc: Global, rest: Rest<'a>) -> Result<(Option<Behavior>, Rest<'a>), ReadFault>
    ensures { Gives (λ x. (option_map behavior_view x.0, left x.1)) result
        (optional (comes_word_at words.Behavior) behavior_at (left rest.entry)) }
{
    if !comes_word(rest, Word::Behavior) {
        return Ok((None, rest));
    }
    let (found, rest) = behavior(alloc, rest)?;
    Ok((Some(found), rest))
}

/// `extends` and the name of the base, if they come
#[tactic(auto, unfolding(crate::specs::Classes::extends_at, room_tokens::specs::Reader::optional))]
fn base_if<'a>(alloc: Global, rest: Rest<'a>) -> Result<(Option<Name>, Rest<'a>), ReadFault>
    ensures { Gives (λ x. (x.0, left x.1)) result
        (optional (comes_word_at words.Extends) extends_at (left rest.entry)) }
{
    if !comes_word(rest, Word::Extends) {
        return Ok((None, rest));
    }
    let rest = take_word(rest, Word::Extends)?;
    let (base, rest) = room_tokens::name(alloc, rest)?;
    Ok((Some(base), rest))
}

/// `eventdriven`, which may be missing, `ActorClass` name, `extends` base, which may be missing, and
/// `{` interface, structure, behavior `}`
#[tactic(auto, unfolding(crate::specs::Classes::actor_at))]
pub fn actor_class<'a>(alloc: Global, rest: Rest<'a>) -> Result<(ActorClass, Rest<'a>), ReadFault>
    ensures { Gives (λ x. (actor_view x.0, left x.1)) result (actor_at (left rest.entry)) }
{
    let (event_driven, rest) = word_if(rest, Word::EventDriven)?;
    let rest = take_word(rest, Word::ActorClass)?;
    let (name, rest) = room_tokens::name(alloc, rest)?;
    let (base, rest) = base_if(alloc, rest)?;
    let rest = take_mark(rest, Mark::OpenBrace)?;
    let (interface, rest) = interface_if(alloc, rest)?;
    let (structure, rest) = structure_if(alloc, rest)?;
    let (behavior, rest) = behavior_if(alloc, rest)?;
    let rest = take_mark(rest, Mark::CloseBrace)?;
    Ok((
        ActorClass {
            event_driven,
            name,
            base,
            interface,
            structure,
            behavior,
        },
        rest,
    ))
}
