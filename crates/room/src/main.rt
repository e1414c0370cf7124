//! The program `room`: runs models of real-time actors and prints their journals.
#![tactic(auto)]

use room_outside::{Failed, OpenGate, OutSink, ReadBefore, TextFile, read_file, write_whole};
use room_run::{NamedFiles, Status, named_files, room_top, stack_of};
use std::alloc::AllocError;
use std::process::ExitCode;
use std::rt::Env;
use std::thread::{Builder, Threads};
use std::{env, io};

/// The words behind the program's name; none at all where one of them is no text, which belongs to no
/// command.
fn words_of<R: Env + AllocGlobal>(rt: &R) -> io::Result<Vec<String>> {
    let mut words = match env::args(rt) {
        Ok(words) => words,
        Err(e) if e.kind() == io::ErrorKind::InvalidData => return Ok(Vec::new(rt.alloc())),
        Err(e) => return Err(e),
    };
    let _ = words.next();
    Ok(words.collect(rt.alloc())?)
}

/// Tells that there was no memory for the work.
fn without_memory(rt: HostRuntime) -> Status {
    let mut notes = OutSink::errors(rt.stderr());
    match write_whole(&mut notes, b"room: memory\n") {
        Ok(()) => Status::Memory,
        Err(_) => Status::WriteFault,
    }
}

/// The files of these names that can be read, in their order: none behind one that can't, since
/// after a failed read nothing more is read. The others are read when the work comes to them.
fn read_before(rt: HostRuntime, named: NamedFiles<'_>) -> Result<Vec<TextFile>, AllocError> {
    let mut read = Vec::new(rt.alloc());
    for path in [named.model, named.injections].into_iter().flatten() {
        match read_file(rt, path) {
            Some(file) => read.push(file)?,
            None => break,
        }
    }
    Ok(read)
}

/// The work that words ask for, on the stack of the thread that calls it, over files that were read
/// before; the controllers of a run work on threads of their own.
fn work<R: Threads + Sync>(
    rt: HostRuntime,
    threads: &R,
    words: &[String],
    read: Vec<TextFile>,
) -> Status {
    let mut out = OutSink::gathered(rt.alloc(), rt.stdout());
    let mut notes = OutSink::errors(rt.stderr());
    let mut shelf = ReadBefore::new(rt, read);
    let status = room_top(
        threads,
        rt.alloc(),
        words,
        &mut shelf,
        &mut out,
        &mut notes,
        &OpenGate,
    );
    match out.finish() {
        Ok(()) => status,
        Err(Failed) => Status::WriteFault,
    }
}

/// Reads what words of a listed form name, and does the work on a thread of its own, whose stack the
/// model's text can't exhaust. Where the system gives no such thread, nothing is done. Other words
/// are refused without either.
fn answer<R: Threads + Copy + Send + Sync + 'static>(
    rt: HostRuntime,
    threads: R,
    words: Vec<String>,
) -> Status {
    let Some(named) = named_files(&words) else {
        return work(rt, &threads, &words, Vec::new(rt.alloc()));
    };
    let Ok(read) = read_before(rt, named) else {
        return without_memory(rt);
    };
    // Where a file was read, the first one is the model.
    let stack = read
        .first()
        .map_or(stack_of(&[]), |model| stack_of(&model.1));
    let thread = Builder::new().stack_size(stack);
    match thread.spawn(&threads, move || work(rt, &threads, &words, read)) {
        Ok(thread) => thread.join(&threads),
        Err(_) => without_memory(rt),
    }
}

/// Without memory for the words nothing is written.
fn main(rt: HostRuntime) -> ExitCode {
    let status = match words_of(&rt) {
        Ok(words) => answer(rt, rt, words),
        Err(_) => Status::Memory,
    };
    ExitCode::from(status.number())
}
