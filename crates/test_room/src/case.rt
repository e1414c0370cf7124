//! A call of the program in memory.
use room_outside::{MeetGate, MemShelf, MemSink};
use room_run::{Status, room_top};
use std::alloc::{AllocError, Global};
use std::process::Abort;
use std::test::Fail;
use std::thread::Threads;

/// What the program is given: words, the texts of a model, of injections and of journals under the names
/// `model.room`, `inject.txt` and `journals.txt`, which call of each kind fails, counted from 1, and how
/// many bytes the output takes.
#[derive(Clone, Copy)]
pub(crate) struct Case<'a> {
    pub(crate) words: &'a [&'a str],
    pub(crate) model: &'a str,
    pub(crate) injections: &'a str,
    pub(crate) journals: &'a str,
    pub(crate) failing_read: Option<u64>,
    pub(crate) failing_write: Option<u64>,
    pub(crate) failing_note: Option<u64>,
    pub(crate) room: usize,
}

/// What the program answered and wrote.
#[derive(Drop)]
pub(crate) struct Told {
    pub(crate) status: Status,
    pub(crate) out: MemSink,
    pub(crate) notes: MemSink,
}

/// The files and sinks of a call.
#[derive(Drop)]
struct Outside {
    shelf: MemShelf,
    out: MemSink,
    notes: MemSink,
}

fn words_of(alloc: Global, words: &[&str]) -> Result<Vec<String>, AllocError> {
    let mut all = Vec::new(alloc);
    for word in words {
        all.push(String::from_str(alloc, word)?)?;
    }
    Ok(all)
}

fn file(alloc: Global, name: &str, text: &str) -> Result<(String, Vec<u8>), AllocError> {
    let name = String::from_str(alloc, name)?;
    Ok((name, Vec::from_slice(alloc, text.as_bytes())?))
}

/// The calls that fail.
fn calls(alloc: Global, failing: Option<u64>) -> Result<Vec<u64>, AllocError> {
    let mut calls = Vec::new(alloc);
    if let Some(call) = failing {
        calls.push(call)?;
    }
    Ok(calls)
}

fn shelf_of(alloc: Global, case: &Case) -> Result<MemShelf, AllocError> {
    let mut files = Vec::new(alloc);
    files.push(file(alloc, "model.room", case.model)?)?;
    files.push(file(alloc, "inject.txt", case.injections)?)?;
    files.push(file(alloc, "journals.txt", case.journals)?)?;
    MemShelf::new(alloc, files, calls(alloc, case.failing_read)?)
}

fn sink_of(alloc: Global, room: usize, failing: Option<u64>) -> Result<MemSink, AllocError> {
    MemSink::new(alloc, room, calls(alloc, failing)?)
}

fn outside_of(alloc: Global, case: &Case) -> Result<Outside, AllocError> {
    Ok(Outside {
        shelf: shelf_of(alloc, case)?,
        out: sink_of(alloc, case.room, case.failing_write)?,
        notes: sink_of(alloc, 10_000, case.failing_note)?,
    })
}

/// What the program answers to words.
fn ask<R: Threads + Sync>(
    rt: &R,
    alloc: Global,
    words: &[String],
    outside: Outside,
    gate: &MeetGate,
) -> Told {
    let Outside {
        mut shelf,
        mut out,
        mut notes,
    } = outside;
    let status = room_top(rt, alloc, words, &mut shelf, &mut out, &mut notes, gate);
    Told { status, out, notes }
}

impl Case<'_> {
    /// Runs the program at a gate.
    pub(crate) fn run_at<R: Threads + Sync>(
        &self,
        rt: &R,
        alloc: Global,
        gate: &MeetGate,
    ) -> Result<Told, AllocError> {
        let words = words_of(alloc, self.words)?;
        let outside = outside_of(alloc, self)?;
        Ok(ask(rt, alloc, words.as_slice(), outside, gate))
    }

    /// Runs the program at a gate that holds nobody, of the kind that holds two: the program is compiled once for
    /// all tests.
    pub(crate) fn run<R: Threads + Sync>(&self, rt: &R, alloc: Global) -> Result<Told, AllocError> {
        self.run_at(rt, alloc, &MeetGate::new(0))
    }
}

/// A case has this status, and just this output and these notes.
pub(crate) fn tells(
    rt: &(impl Abort + AllocGlobal + Threads + Sync),
    case: &Case,
    status: Status,
    out: &str,
    notes: &str,
) -> Result<(), Fail> {
    let told = case.run(rt, rt.alloc())?;
    assert_eq!(rt; told.status, status);
    assert_eq!(rt; told.out.bytes(), out.as_bytes());
    assert_eq!(rt; told.notes.bytes(), notes.as_bytes());
    Ok(())
}
