//! Want of memory on the worked runs. `rt try --test --fail-alloc N` refuses the Nth allocation of each test;
//! where it is the test's own, there is nothing to see. Where none is refused, a run tells its journals.
use crate::case::{Case, Told};
use crate::rows::{EXCHANGE, IMPORT, NAMES};
use room_run::Status;
use std::alloc::AllocError;
use std::process::Abort;
use std::thread::Threads;

/// Whether the program told its journals, or want of memory and nothing else.
fn is_whole(told: &Told, journals: &str) -> bool {
    match told.status {
        Status::Done => told.out.bytes() == journals.as_bytes() && told.notes.bytes().is_empty(),
        Status::Memory => {
            told.out.bytes().is_empty() && told.notes.bytes() == b"room: memory\n".as_slice()
        }
        _ => false,
    }
}

fn tells_whole<R: Abort + AllocGlobal + Threads + Sync>(rt: &R, run: &Case) {
    match run.run(rt, rt.alloc()) {
        Ok(told) => assert!(rt; is_whole(&told, run.journals), "{:?}", told.status),
        Err(AllocError) => {}
    }
}

#[test]
fn an_exchange_is_whole_or_refused(rt: HostRuntime) {
    tells_whole(&rt, &EXCHANGE);
}

#[test]
fn an_import_is_whole_or_refused(rt: HostRuntime) {
    tells_whole(&rt, &IMPORT);
}

#[test]
fn names_are_whole_or_refused(rt: HostRuntime) {
    tells_whole(&rt, &NAMES);
}
