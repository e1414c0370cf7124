//! The texts of the made model.
ghost use Rattle.std.specs.Prelude.{◌≡◌, ◌<◌, ◌++◌, decimal, IfOk, OnOk};
ghost use Rattle.made_model.specs.Texts.{next_of, reference_row, binding_row, mapping_row, injection_row, row_of, rows, model_text, injections_text};

use itoa::Buffer;
use std::alloc::{AllocError, Global};

/// What stands before the rows of the model.
const FRONT: &[u8] = b"RoomModel Made {
LogicalSystem Whole { SubSystemRef ring: Ring }
ProtocolClass Tok { incoming { } outgoing { Message tok(int32) } }
ProtocolClass Go { incoming { Message kick(int32) } outgoing { } }
ActorClass Node {
Interface { Port right: Tok conjugated Port left: Tok }
Structure { external Port right external Port left Port go: Go }
Behavior { StateMachine {
Transition begin: initial -> N
State N
Transition kicked: N -> N { triggers { <kick: go> } action { \"right.tok(data);\" } }
Transition passed: N -> N { triggers { <tok: left> } action { \"if (data > 0) { right.tok(data - 1); }\" } }
} }
}
SubSystemClass Ring {
LogicalThread t0
LogicalThread t1
LogicalThread t2
LogicalThread t3
";

/// The texts of a made model and of its injections.
#[derive(Drop)]
pub struct MadeModel {
    pub model: Vec<u8>,
    pub injections: Vec<u8>,
}

/// What is told of each actor in a line of its own.
#[derive(Clone, Copy)]
enum Row {
    /// That it is one of the subsystem's.
    Reference,
    /// That its right end is joined to the left end of the next one.
    Binding,
    /// The thread that it runs on.
    Mapping,
    /// The message from outside that it is sent.
    Injection,
}

/// Adds a text and a number.
fn push_numbered(text: &mut Vec<u8>, before: &[u8], number: u64) -> Result<(), AllocError>
    ensures { OnOk result (text.new.items ≡ text.old.items ++ (before.now ++ decimal number)) }
{
    text.extend_from_slice(before)?;
    text.extend_from_slice(Buffer::new().format(number).as_bytes())
}

/// The actor behind this one in a ring of so many.
fn next_of(count: u64, actor: u64) -> u64
    requires { actor < count }
    ensures { result ≡ next_of count actor }
{
    if actor + 1 == count { 0 } else { actor + 1 }
}

fn push_reference(text: &mut Vec<u8>, actor: u64) -> Result<(), AllocError>
    ensures { OnOk result (text.new.items ≡ text.old.items ++ reference_row actor) }
{
    push_numbered(text, b"ActorRef r", actor)?;
    text.extend_from_slice(b": Node\n")
}

#[tactic(auto, using(crate::proofs::Rows::five_parts))]
fn push_binding(text: &mut Vec<u8>, count: u64, actor: u64) -> Result<(), AllocError>
    requires { actor < count }
    ensures { OnOk result (text.new.items ≡ text.old.items ++ binding_row count actor) }
{
    push_numbered(text, b"Binding r", actor)?;
    push_numbered(text, b".right and r", next_of(count, actor))?;
    text.extend_from_slice(b".left\n")
}

#[tactic(auto, using(crate::proofs::Rows::five_parts))]
fn push_mapping(text: &mut Vec<u8>, actor: u64) -> Result<(), AllocError>
    ensures { OnOk result (text.new.items ≡ text.old.items ++ mapping_row actor) }
{
    push_numbered(text, b"ActorInstanceMapping r", actor)?;
    push_numbered(text, b" -> t", actor % 4)?;
    text.extend_from_slice(b"\n")
}

fn push_injection(text: &mut Vec<u8>, actor: u64) -> Result<(), AllocError>
    ensures { OnOk result (text.new.items ≡ text.old.items ++ injection_row actor) }
{
    push_numbered(text, b"r", actor)?;
    text.extend_from_slice(b".go kick 7\n")
}

/// Adds a row of an actor in a ring of so many.
fn push_row(text: &mut Vec<u8>, row: Row, count: u64, actor: u64) -> Result<(), AllocError>
    requires { actor < count }
    ensures { OnOk result (text.new.items ≡ text.old.items ++ row_of row count actor) }
{
    match row {
        Row::Reference => push_reference(text, actor),
        Row::Binding => push_binding(text, count, actor),
        Row::Mapping => push_mapping(text, actor),
        Row::Injection => push_injection(text, actor),
    }
}

/// Adds the rows of all actors.
#[tactic(auto, unfolding(crate::specs::Texts::rows))]
fn push_rows(text: &mut Vec<u8>, row: Row, count: u64) -> Result<(), AllocError>
    ensures { OnOk result (text.new.items ≡ text.old.items ++ rows row count) }
{
    for actor in 0..count {
        push_row(text, row, count, actor)?;
    }
    Ok(())
}

#[tactic(auto, unfolding(crate::specs::Texts::model_text))]
fn model_text(alloc: Global, count: u64) -> Result<Vec<u8>, AllocError>
    ensures { IfOk result (λ text. text.items ≡ model_text count) }
{
    let mut text = Vec::from_slice(alloc, FRONT)?;
    push_rows(&mut text, Row::Reference, count)?;
    push_rows(&mut text, Row::Binding, count)?;
    push_rows(&mut text, Row::Mapping, count)?;
    text.extend_from_slice(b"}\n}\n")?;
    Ok(text)
}

#[tactic(auto, unfolding(crate::specs::Texts::injections_text))]
fn injections_text(alloc: Global, count: u64) -> Result<Vec<u8>, AllocError>
    ensures { IfOk result (λ text. text.items ≡ injections_text count) }
{
    let mut text = Vec::new(alloc);
    push_rows(&mut text, Row::Injection, count)?;
    Ok(text)
}

/// The texts of the made model of so many actors, and of the injections that kick each of them.
pub fn made_model(alloc: Global, count: u64) -> Result<MadeModel, AllocError>
    ensures model { IfOk result (λ made. made.model.items ≡ model_text count) }
    ensures injections { IfOk result (λ made. made.injections.items ≡ injections_text count) }
{
    let model = model_text(alloc, count)?;
    let injections = injections_text(alloc, count)?;
    Ok(MadeModel { model, injections })
}
