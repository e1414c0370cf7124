//! Each front of a model, of its injections, and of its journals in both forms, with its answer.
use crate::case::{Case, tells};
use crate::rows::EXCHANGE;
use room_run::Status;
use std::alloc::{AllocError, Global};
use std::process::Abort;
use std::test::Fail;
use std::thread::Threads;

/// The journals of the exchange in form 1.
const FIRST_FORM: &str = "room-journal 1
controller 0 default
start top#1 -
start top/a#1 Wait
start top/b#1 Up
2 fetch env@1 3 - top/a#0.go[0] kick
3 turn env@1 handled top/a#1 Wait
4 post 0 3 top/a#1.p[0] top/b#1.p[0] ping 1
5 fetch 0@4 3 top/a#1.p[0] top/b#1.p[0] ping 1
6 turn 0@4 handled top/b#1 Up
7 post 0 3 top/b#1.p[0] top/a#1.p[0] pong 2
8 fetch 0@7 3 top/b#1.p[0] top/a#1.p[0] pong 2
9 turn 0@7 handled top/a#1 Wait
environment
1 post 0 3 - top/a#0.go[0] kick
done
";

/// What a run over no messages prints.
const STILL: &str = "room-journal 2
controller 0 default
start top#1 -
start top/a#1 Wait
start top/b#1 Up
environment
done
";

fn front_of(text: &str, len: usize) -> &str {
    text.get(..len).unwrap_or(text)
}

/// Where the string opens that isn't closed in a text.
fn open_string(text: &str) -> Option<usize> {
    let mut open = None;
    for (at, byte) in text.as_bytes().iter().enumerate() {
        if *byte == b'"' {
            open = match open {
                None => Some(at),
                Some(_) => None,
            };
        }
    }
    open
}

/// How many lines of a text have an end.
fn whole_lines(text: &str) -> usize {
    text.as_bytes()
        .iter()
        .filter(|byte| **byte == b'\n')
        .count()
}

/// The note on a front of the model: the place of the string that it leaves open, else its last line.
fn note_of(alloc: Global, front: &str) -> Result<String, AllocError> {
    match open_string(front) {
        Some(at) => format!(in alloc; "room: model refused: byte {at}\n"),
        None => {
            let line = whole_lines(front).saturating_add(1);
            format!(in alloc; "room: model refused: syntax {line}\n")
        }
    }
}

#[test]
fn each_front_of_a_model_is_refused(rt: HostRuntime) -> Result<(), Fail> {
    for len in 0..EXCHANGE.model.len() {
        let front = front_of(EXCHANGE.model, len);
        let note = note_of(rt.alloc(), front)?;
        let case = Case {
            model: front,
            ..EXCHANGE
        };
        tells(&rt, &case, Status::ModelRefused, "", note.as_str())?;
    }
    Ok(())
}

#[test]
fn each_front_of_injections_has_its_answer(rt: HostRuntime) -> Result<(), Fail> {
    let still = Case {
        injections: "",
        ..EXCHANGE
    };
    tells(&rt, &still, Status::Done, STILL, "")?;
    for len in 1..13usize {
        let case = Case {
            injections: front_of(EXCHANGE.injections, len),
            ..EXCHANGE
        };
        // Up to the blank behind the port the line has no form, and then its signal is unknown.
        let note = if len < 10 {
            "room: injections refused: line 1 1\n"
        } else {
            "room: injections refused: line 1 4\n"
        };
        tells(&rt, &case, Status::InjectionsRefused, "", note)?;
    }
    let without_end = Case {
        injections: front_of(EXCHANGE.injections, 13),
        ..EXCHANGE
    };
    tells(&rt, &without_end, Status::Done, EXCHANGE.journals, "")
}

/// The place that a note on malformed journals tells.
fn told_place(note: &[u8]) -> Option<usize> {
    let digits = note
        .strip_prefix(b"room: journals refused: malformed ".as_slice())?
        .strip_suffix(b"\n".as_slice())?;
    std::str::from_utf8(digits).ok()?.parse::<usize>().ok()
}

/// The least place that may be told of a front: where its last line begins, or the title of the last controller
/// where the environment's isn't whole, since this journal is then taken for the environment's.
fn least_place(front: &str) -> usize {
    let mut whole = 0;
    let mut title = None;
    for (at, byte) in front.as_bytes().iter().enumerate() {
        if *byte == b'\n' {
            let line = front.get(whole..at).unwrap_or("");
            if line.starts_with("controller ") {
                title = Some(whole);
            } else if line == "environment" {
                title = None;
            }
            whole = at.saturating_add(1);
        }
    }
    title.unwrap_or(whole)
}

/// A front of journals is refused, and the place that is told of it stands in what is no whole line.
fn is_malformed<R: Abort + AllocGlobal + Threads + Sync>(rt: &R, front: &str) -> Result<(), Fail> {
    let case = Case {
        words: &["convert", "model.room", "journals.txt"],
        journals: front,
        ..EXCHANGE
    };
    let told = case.run(rt, rt.alloc())?;
    assert_eq!(rt; told.status, Status::JournalsRefused);
    assert!(rt; told.out.bytes().is_empty());
    let place = told_place(told.notes.bytes());
    let least = least_place(front);
    assert!(rt;
        place.is_some_and(|place| least <= place && place <= front.len()),
        "{place:?} of a front of {} bytes",
        front.len()
    );
    Ok(())
}

fn are_cut<R: Abort + AllocGlobal + Threads + Sync>(rt: &R, text: &str) -> Result<(), Fail> {
    for len in 0..text.len() {
        is_malformed(rt, front_of(text, len))?;
    }
    let whole = Case {
        words: &["convert", "model.room", "journals.txt"],
        journals: text,
        ..EXCHANGE
    };
    tells(rt, &whole, Status::Done, EXCHANGE.journals, "")
}

#[test]
fn each_front_of_journals_in_form_1_is_malformed(rt: HostRuntime) -> Result<(), Fail> {
    are_cut(&rt, FIRST_FORM)
}

#[test]
fn each_front_of_journals_in_form_2_is_malformed(rt: HostRuntime) -> Result<(), Fail> {
    are_cut(&rt, EXCHANGE.journals)
}
