//! Running a program.
ghost use Rattle.std.specs.Prelude.{◌≡◌, ◌++◌, [], ◌∷◌, IfOk, OnOk, map, option_map, length, ◌≤◌};
ghost use Rattle.action_program.specs.Numbered.{assign_view, choose, frame_view, import_view, expr_view, stmt_view, if_view, send_view, argument_view, stmts_of, program_view};
ghost use Rattle.action_program.specs.Meaning.{value_of, notes_of, carried, payload_of, argument_notes, place_notes, send_command, send_notes, frame_command, ran, asked, noted, assigned, times, run, run_all};

use crate::bound::{
    Argument, Bound, BoundAssign, BoundExpr, BoundFrame, BoundIf, BoundImport, BoundSend, BoundStmt,
};
use crate::evaluation::{test, value};
use crate::moment::{Effects, Moment, Vars};
use crate::operator::FrameVerb;
use room_kinds::{Command, FrameCommand, NameCommand, Notes, Payload};
use std::alloc::{AllocError, Global};

/// The most numbers that a message carries.
const MAX_ARGUMENTS: usize = 64;

/// A message carries at most 64 numbers.
#[tactic(auto, using(crate::proofs::Carried::carried_views))]
fn carried(arguments: &[Argument]) -> &[Argument]
    ensures value { map argument_view result.now ≡ carried (map argument_view arguments.now) }
    ensures short { length result.now ≤ 64 }
{
    &arguments[..arguments.len().min(MAX_ARGUMENTS)]
}

/// The values of a message's numbers, reduced to their types.
fn payload(
    alloc: Global,
    arguments: &[Argument],
    vars: &Vars,
    at: &Moment,
    notes: &mut Notes,
) -> Result<Payload, AllocError>
    requires { length arguments.now ≤ 64 }
    ensures value { IfOk result (λ p. p ≡ payload_of (map argument_view arguments.now) vars.now at.now) }
    ensures notes { OnOk result (notes.new ≡ notes.old ++ argument_notes (map argument_view arguments.now) vars.now at.now) }
{
    let mut payload = Payload::empty(alloc);
    for argument in arguments {
        let number = value(&argument.value, vars, at, notes)?;
        payload.push(argument.kind.reduce(number))?;
    }
    Ok(payload)
}

/// The value of a place, if there is one.
fn place(
    place: &Option<BoundExpr>,
    vars: &Vars,
    at: &Moment,
    notes: &mut Notes,
) -> Result<Option<i64>, AllocError>
    ensures value { IfOk result (λ p. p ≡ option_map (λ e. value_of e vars.now at.now) (option_map expr_view place.now)) }
    ensures notes { OnOk result (notes.new ≡ notes.old ++ place_notes (option_map expr_view place.now) vars.now at.now) }
{
    match place {
        None => Ok(None),
        Some(e) => Ok(Some(value(e, vars, at, notes)?)),
    }
}

fn frame_command(verb: FrameVerb, reference: u16, index: i64) -> FrameCommand
    ensures { result ≡ frame_command verb reference index }
{
    match verb {
        FrameVerb::Incarnate => FrameCommand::Incarnate { reference, index },
        FrameVerb::Destroy => FrameCommand::Destroy { reference, index },
        FrameVerb::Deport => FrameCommand::Deport { reference, index },
    }
}

fn ask(command: Command, out: &mut Effects) -> Result<(), AllocError>
    ensures notes { OnOk result (out.new.notes ≡ out.old.notes) }
    ensures commands { OnOk result (out.new.commands ≡ out.old.commands ++ command ∷ []) }
{
    out.commands.push(command)?;
    Ok(())
}

fn send(
    alloc: Global,
    s: &BoundSend,
    vars: &Vars,
    at: &Moment,
    out: &mut Effects,
) -> Result<(), AllocError>
    ensures { OnOk result (ran vars.now out.new ≡ asked (send_command (send_view s.now) vars.now at.now) (noted (send_notes (send_view s.now) vars.now at.now) (ran vars.now out.old))) }
{
    let place = self::place(&s.place, vars, at, &mut out.notes)?;
    let carried = carried(s.arguments.as_slice());
    let payload = self::payload(alloc, carried, vars, at, &mut out.notes)?;
    ask(
        Command::Send {
            port: s.port,
            place,
            signal: s.signal,
            payload,
            prio: s.prio,
        },
        out,
    )
}

fn assign(
    s: &BoundAssign,
    vars: &mut Vars,
    at: &Moment,
    out: &mut Effects,
) -> Result<(), AllocError>
    ensures { OnOk result (ran vars.new out.new ≡ run (assign_view s.now) at.now (ran vars.old out.old)) }
{
    let x = value(&s.value, vars, at, &mut out.notes)?;
    vars.write(s.attribute, s.kind.reduce(x));
    Ok(())
}

fn frame(s: &BoundFrame, vars: &Vars, at: &Moment, out: &mut Effects) -> Result<(), AllocError>
    ensures { OnOk result (ran vars.now out.new ≡ run (frame_view s.now) at.now (ran vars.now out.old)) }
{
    let index = value(&s.index, vars, at, &mut out.notes)?;
    ask(
        Command::Frame(frame_command(s.verb, s.reference, index)),
        out,
    )
}

fn import(s: &BoundImport, vars: &Vars, at: &Moment, out: &mut Effects) -> Result<(), AllocError>
    ensures { OnOk result (ran vars.now out.new ≡ run (import_view s.now) at.now (ran vars.now out.old)) }
{
    let index = value(&s.index, vars, at, &mut out.notes)?;
    let id = value(&s.id, vars, at, &mut out.notes)?;
    ask(
        Command::Frame(FrameCommand::Import {
            reference: s.reference,
            index,
            id,
        }),
        out,
    )
}

#[cycle(running)]
fn run(
    alloc: Global,
    s: &BoundStmt,
    vars: &mut Vars,
    at: &Moment,
    out: &mut Effects,
) -> Result<(), AllocError>
    ensures { OnOk result (ran vars.new out.new ≡ run (stmt_view s.now) at.now (ran vars.old out.old)) }
{
    match s {
        BoundStmt::Empty => Ok(()),
        BoundStmt::Assign(s) => assign(s, vars, at, out),
        BoundStmt::If(choice) => choose(alloc, choice, vars, at, out),
        BoundStmt::Repeat(s) => repeat(alloc, s.times, &s.body, vars, at, out),
        BoundStmt::Send(s) => send(alloc, s, vars, at, out),
        BoundStmt::Defer => ask(Command::Defer, out),
        BoundStmt::Recall => ask(Command::Recall, out),
        BoundStmt::RecallAll => ask(Command::RecallAll, out),
        BoundStmt::Frame(s) => frame(s, vars, at, out),
        BoundStmt::Import(s) => import(s, vars, at, out),
        BoundStmt::Register { port, name } => ask(
            Command::Name(NameCommand::Register {
                port: *port,
                name: *name,
            }),
            out,
        ),
        BoundStmt::Withdraw { port } => {
            ask(Command::Name(NameCommand::Withdraw { port: *port }), out)
        }
    }
}

#[cycle(running)]
fn run_all(
    alloc: Global,
    statements: &Vec<BoundStmt>,
    vars: &mut Vars,
    at: &Moment,
    out: &mut Effects,
) -> Result<(), AllocError>
    ensures { OnOk result (ran vars.new out.new ≡ run_all (stmts_of (map stmt_view statements.now.items)) at.now (ran vars.old out.old)) }
{
    for s in statements {
        run(alloc, s, vars, at, out)?;
    }
    Ok(())
}

#[cycle(running)]
#[tactic(auto, using(crate::proofs::Times::times_step, crate::proofs::Times::times_end))]
fn repeat(
    alloc: Global,
    count: u64,
    body: &Vec<BoundStmt>,
    vars: &mut Vars,
    at: &Moment,
    out: &mut Effects,
) -> Result<(), AllocError>
    ensures { OnOk result (ran vars.new out.new ≡ times count (λ r. run_all (stmts_of (map stmt_view body.now.items)) at.now r) (ran vars.old out.old)) }
{
    for _ in 0..count {
        run_all(alloc, body, vars, at, out)?;
    }
    Ok(())
}

#[cycle(running)]
fn choose(
    alloc: Global,
    choice: &BoundIf,
    vars: &mut Vars,
    at: &Moment,
    out: &mut Effects,
) -> Result<(), AllocError>
    ensures { OnOk result (ran vars.new out.new ≡ run (choose (if_view choice.now).0 (if_view choice.now).1) at.now (ran vars.old out.old)) }
{
    for branch in &choice.branches {
        if test(&branch.condition, vars, at, out)? {
            return run_all(alloc, &branch.body, vars, at, out);
        }
    }
    run_all(alloc, &choice.otherwise, vars, at, out)
}

/// Runs a program: its attributes are changed, and its notes and commands go to the end, as its
/// meaning says. It takes memory only for notes and commands. After a refusal the attributes and
/// the effects are of no use.
pub fn eval(
    alloc: Global,
    p: &Bound,
    vars: &mut Vars,
    at: &Moment,
    out: &mut Effects,
) -> Result<(), AllocError>
    ensures { OnOk result (ran vars.new out.new ≡ run_all (program_view p.now) at.now (ran vars.old out.old)) }
{
    run_all(alloc, &p.statements, vars, at, out)
}
