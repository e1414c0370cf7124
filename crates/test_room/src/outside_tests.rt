//! Shelves, sinks and gates of each kind, and calls that fail.
use room_outside::{
    Failed, FileShelf, Gate, MeetGate, MemShelf, MemSink, OpenGate, OutSink, ReadRefused, Shelf,
    Sink, SureShelf, SureSink, WriteFault, read_whole, write_whole,
};
use std::alloc::{AllocError, Global};
use std::fs;
use std::process::Abort;
use std::test::Fail;

/// Two pieces in a row.
fn write_both<K: Sink>(sink: &mut K, first: &[u8], second: &[u8]) -> Result<(), WriteFault> {
    write_whole(sink, first)?;
    write_whole(sink, second)
}

fn file(alloc: Global, name: &str, text: &[u8]) -> Result<(String, Vec<u8>), AllocError> {
    let name = String::from_str(alloc, name)?;
    let text = Vec::from_slice(alloc, text)?;
    Ok((name, text))
}

/// A shelf with the texts `short` and `long`, of which these calls fail.
fn shelf(alloc: Global, long: &[u8], fail: &[u64]) -> Result<MemShelf, AllocError> {
    let mut files = Vec::new(alloc);
    files.push(file(alloc, "short", b"abc")?)?;
    files.push(file(alloc, "long", long)?)?;
    MemShelf::new(alloc, files, fail.to_vec(alloc)?)
}

/// A sink with room for so many bytes, of which these calls fail.
fn sink(alloc: Global, room: usize, fail: &[u64]) -> Result<MemSink, AllocError> {
    MemSink::new(alloc, room, fail.to_vec(alloc)?)
}

/// A text that is read in two pieces.
fn long_text(alloc: Global) -> Result<Vec<u8>, AllocError> {
    vec![in alloc; 7u8; 5_000]
}

#[test]
fn a_whole_text_is_read_in_pieces(rt: HostRuntime) -> Result<(), Fail> {
    let alloc = rt.alloc();
    let long = long_text(alloc)?;
    let mut shelf = shelf(alloc, &long, &[])?;
    let short = read_whole(alloc, &mut shelf, "short")?;
    assert_eq!(rt; short.as_slice(), b"abc".as_slice());
    let read = read_whole(alloc, &mut shelf, "long")?;
    assert_eq!(rt; read.as_slice(), long.as_slice());
    assert_eq!(rt; shelf.faults("long"), 0);
    Ok(())
}

/// A read that fails is told and counted, and the next one isn't.
fn fails_once(rt: &impl Abort, alloc: Global, call: u64) -> Result<(), Fail> {
    let long = long_text(alloc)?;
    let mut shelf = shelf(alloc, &long, &[call])?;
    let first = read_whole(alloc, &mut shelf, "long");
    assert!(rt;
        matches!(&first, Err(ReadRefused::ReadFault)),
        "call {call}"
    );
    assert_eq!(rt; shelf.faults("long"), 1);
    assert_eq!(rt; shelf.faults("short"), 0);
    let again = read_whole(alloc, &mut shelf, "long")?;
    assert_eq!(rt; again.as_slice(), long.as_slice());
    Ok(())
}

#[test]
fn a_read_that_fails_in_mid_stream_is_told_and_counted(rt: HostRuntime) -> Result<(), Fail> {
    // The reads of the long text are calls 1 to 3, of 4,096 bytes, of 904 and of none.
    fails_once(&rt, rt.alloc(), 1)?;
    fails_once(&rt, rt.alloc(), 2)?;
    fails_once(&rt, rt.alloc(), 3)
}

#[test]
fn a_name_without_a_file_is_a_failed_read_of_that_name(rt: HostRuntime) -> Result<(), Fail> {
    let mut shelf = shelf(rt.alloc(), b"abc", &[])?;
    let read = read_whole(rt.alloc(), &mut shelf, "elsewhere");
    assert!(rt; matches!(&read, Err(ReadRefused::ReadFault)));
    assert_eq!(rt; shelf.faults("elsewhere"), 1);
    assert_eq!(rt; shelf.faults("long"), 0);
    Ok(())
}

#[test]
fn a_sure_outside_never_fails(rt: HostRuntime) -> Result<(), Fail> {
    let alloc = rt.alloc();
    let mut shelf = SureShelf::new(Vec::new(alloc));
    assert!(rt; read_whole(alloc, &mut shelf, "nowhere")?.is_empty());
    let mut sink = SureSink::new();
    assert_eq!(rt; write_both(&mut sink, b"abc", b""), Ok(()));
    OpenGate.enter(3, 10);
    Ok(())
}

/// A gate stands between threads.
fn enter_all<G: Gate + Sync>(gate: &G, turns: &[(u8, u64)]) {
    for (controller, turn) in turns {
        gate.enter(*controller, *turn);
    }
}

#[test]
fn controllers_that_run_one_after_another_do_not_meet(rt: HostRuntime) {
    let gate = MeetGate::new(3);
    enter_all(&gate, &[(0, 0), (1, 0), (2, 1)]);
    assert!(rt; !gate.met());
    assert!(rt; !gate.second());
    enter_all(&gate, &[(1, 1)]);
    assert!(rt; gate.second());
    enter_all(&OpenGate, &[(0, 0), (1, 0)]);
}

#[test]
fn a_sink_in_memory_takes_what_it_has_room_for(rt: HostRuntime) -> Result<(), Fail> {
    let alloc = rt.alloc();
    let mut sink = sink(alloc, 5, &[])?;
    assert_eq!(rt; write_whole(&mut sink, b"abc"), Ok(()));
    assert_eq!(rt;
        write_whole(&mut sink, b"defg"),
        Err(WriteFault { taken: 2 })
    );
    assert_eq!(rt; sink.bytes(), b"abcde".as_slice());
    assert_eq!(rt; sink.faults(), 1);
    assert_eq!(rt; write_whole(&mut sink, b""), Ok(()));
    Ok(())
}

#[test]
fn a_write_that_fails_in_mid_stream_is_told_and_counted(rt: HostRuntime) -> Result<(), Fail> {
    let alloc = rt.alloc();
    let mut sink = sink(alloc, 20, &[2])?;
    assert_eq!(rt;
        write_both(&mut sink, b"ab", b"cd"),
        Err(WriteFault { taken: 0 })
    );
    assert_eq!(rt; sink.bytes(), b"ab".as_slice());
    assert_eq!(rt; sink.faults(), 1);
    assert_eq!(rt; write_both(&mut sink, b"ef", b"gh"), Ok(()));
    assert_eq!(rt; sink.bytes(), b"abefgh".as_slice());
    assert_eq!(rt; sink.faults(), 1);
    Ok(())
}

#[test]
fn files_are_read_by_their_paths(rt: HostRuntime) -> Result<(), Fail> {
    let alloc = rt.alloc();
    let path = "text_that_is_read";
    let long = long_text(alloc)?;
    fs::write(&rt, path, long.as_slice())?;
    let mut shelf = FileShelf::new(rt);
    let read = read_whole(alloc, &mut shelf, path);
    fs::remove_file(&rt, path)?;
    assert_eq!(rt; read?.as_slice(), long.as_slice());
    assert_eq!(rt; shelf.faults(), 0);

    // A file that isn't there, and a folder, which can be opened but not read.
    for name in [path, "."] {
        let read = read_whole(alloc, &mut shelf, name);
        assert!(rt; matches!(&read, Err(ReadRefused::ReadFault)), "{name}");
    }
    assert_eq!(rt; shelf.faults(), 2);
    Ok(())
}

#[test]
fn a_file_stays_open_between_its_pieces(rt: HostRuntime) -> Result<(), Fail> {
    let path = "text_that_is_removed";
    let other = "text_that_stays";
    fs::write(&rt, path, b"abcdef".as_slice())?;
    fs::write(&rt, other, b"xyz".as_slice())?;
    let mut shelf = FileShelf::new(rt);
    let mut piece = [0u8; 4];
    assert_eq!(rt; shelf.read_at(path, 0, &mut piece), Ok(4));
    fs::remove_file(&rt, path)?;
    assert_eq!(rt; shelf.read_at(path, 4, &mut piece), Ok(2));
    assert_eq!(rt; piece, *b"efcd");
    assert_eq!(rt; shelf.read_at(path, 1, &mut piece), Ok(4));
    assert_eq!(rt; piece, *b"bcde");

    // Another path closes it, and so does the end of a text.
    assert_eq!(rt; shelf.read_at(other, 0, &mut piece), Ok(3));
    assert_eq!(rt; shelf.read_at(path, 0, &mut piece), Err(Failed));
    assert_eq!(rt; shelf.read_at(other, 1, &mut piece), Ok(2));
    fs::remove_file(&rt, other)?;
    assert_eq!(rt; shelf.read_at(other, 3, &mut piece), Ok(0));
    assert_eq!(rt; shelf.read_at(other, 0, &mut piece), Err(Failed));
    assert_eq!(rt; shelf.faults(), 2);
    Ok(())
}

#[test]
fn a_full_writer_is_a_fault(rt: HostRuntime) {
    let mut space = [0u8; 5];
    let mut sink = OutSink::new(space.as_mut_slice());
    assert_eq!(rt; write_whole(&mut sink, b"abc"), Ok(()));
    assert_eq!(rt;
        write_whole(&mut sink, b"defg"),
        Err(WriteFault { taken: 2 })
    );
    assert_eq!(rt; sink.write(b"h"), Err(Failed));
    assert_eq!(rt; sink.faults(), 2);
}
