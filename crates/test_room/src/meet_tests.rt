//! Controllers of a run meet, and look at each other's mail while they work.
//!
//! Two copies of the model's asker and answerer, each asker with one message from outside. The gate holds the
//! first turn of each of the two controllers until the other has entered its own: one after another they would
//! never meet.
use crate::case::Case;
use crate::rows::EXCHANGE;
use room_outside::MeetGate;
use room_run::Status;
use std::process::Abort;
use std::test::Fail;
use std::thread::Threads;

/// How often a controller looks for the other one before it goes on alone.
const TRIES: u64 = 50_000_000;

/// The parts of the model's subsystem. Did its text not have them so, there would be no `top2`, and the injections
/// would be refused.
const PARTS: &str = "ActorRef top: T }";

/// Each pair of actors on a thread of its own.
const APART: &str = "ActorRef top: T ActorRef top2: T LogicalThread t0 LogicalThread t1
ActorInstanceMapping top -> t0 ActorInstanceMapping top2 -> t1 }";

/// The same, with the threads in the other order.
const EXCHANGED: &str = "ActorRef top: T ActorRef top2: T LogicalThread t1 LogicalThread t0
ActorInstanceMapping top -> t0 ActorInstanceMapping top2 -> t1 }";

/// Each pair of actors across both threads: the asker of one is on the thread of the other's answerer.
const ACROSS: &str = "ActorRef top: T ActorRef top2: T LogicalThread t0 LogicalThread t1
ActorInstanceMapping top -> t0 ActorInstanceMapping top/b -> t1
ActorInstanceMapping top2 -> t1 ActorInstanceMapping top2/b -> t0 }";

/// The run of the model twice, as `top` and `top2`, with these parts, at a gate at which two controllers meet. It
/// tells whether one of them entered its second turn.
fn meets<R: Abort + AllocGlobal + Threads + Sync>(rt: &R, parts: &str) -> Result<bool, Fail> {
    let gate = MeetGate::new(TRIES);
    let model = EXCHANGE.model.replace(rt.alloc(), PARTS, parts)?;
    let case = Case {
        model: model.as_str(),
        injections: "top/a.go kick\ntop2/a.go kick\n",
        ..EXCHANGE
    };
    let told = case.run_at(rt, rt.alloc(), &gate)?;
    assert_eq!(rt; told.status, Status::Done);
    assert!(rt; gate.met());
    Ok(gate.second())
}

#[test]
fn two_controllers_meet(rt: HostRuntime) -> Result<(), Fail> {
    meets(&rt, APART)?;
    meets(&rt, EXCHANGED)?;
    Ok(())
}

/// Each first turn asks the other controller. The worker that asks later finds the other's message when it
/// looks for mail next, and takes a second turn before the workers are joined.
#[test]
fn mail_of_the_other_comes_while_both_work(rt: HostRuntime) -> Result<(), Fail> {
    assert!(rt; meets(&rt, ACROSS)?);
    Ok(())
}
