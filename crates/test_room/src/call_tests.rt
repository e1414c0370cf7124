//! Calls of the outside that fail: each read, each write of a line, notes, and an output without room.
use crate::case::{Case, tells};
use crate::rows::{EXCHANGE, EXCHANGE_JOURNAL};
use room_run::Status;
use std::process::Abort;
use std::test::Fail;
use std::thread::Threads;

/// What words ask for of the exchange: how often they read, and in which lines they are answered.
struct Asked {
    words: &'static [&'static str],
    reads: u64,
    lines: usize,
    answer: &'static str,
}

/// Each text takes two reads.
const ASKED: [Asked; 6] = [
    Asked {
        words: &["run", "model.room", "inject.txt"],
        reads: 4,
        lines: 16,
        answer: EXCHANGE_JOURNAL,
    },
    Asked {
        words: &["convert", "model.room", "journals.txt"],
        reads: 4,
        lines: 16,
        answer: EXCHANGE_JOURNAL,
    },
    Asked {
        words: &VERIFY,
        reads: 6,
        lines: 1,
        answer: "lawful\n",
    },
    Asked {
        words: &SHOW,
        reads: 6,
        lines: 8,
        answer: SNAPSHOT,
    },
    Asked {
        words: &["tree", "model.room"],
        reads: 2,
        lines: 4,
        answer: TREE,
    },
    Asked {
        words: &["check", "model.room"],
        reads: 2,
        lines: 1,
        answer: "ok\n",
    },
];

const VERIFY: [&str; 4] = ["verify", "model.room", "inject.txt", "journals.txt"];

const SHOW: [&str; 6] = [
    "show",
    "model.room",
    "inject.txt",
    "journals.txt",
    "--at",
    "9",
];

/// The system at the end of the exchange.
const SNAPSHOT: &str = "at 9
controller 0 9 3
actor top#1 -
actor top/a#1 Wait
bind p[0] top/b#1.p[0]
actor top/b#1 Up
bind p[0] top/a#1.p[0]
end
";

const TREE: &str = "slot 0 0 fixed top T
slot 1 0 fixed top/a A
slot 2 0 fixed top/b B
join top/a.p[0] top/b.p[0]
";

/// So many lines at the front of a text.
fn first_lines(text: &str, lines: usize) -> &str {
    let mut left = lines;
    for (at, byte) in text.as_bytes().iter().enumerate() {
        if left == 0 {
            return text.get(..at).unwrap_or(text);
        }
        if *byte == b'\n' {
            left -= 1;
        }
    }
    text
}

fn reads_may_fail<R: Abort + AllocGlobal + Threads + Sync>(
    rt: &R,
    asked: &Asked,
) -> Result<(), Fail> {
    for call in 1..=asked.reads {
        let case = Case {
            words: asked.words,
            failing_read: Some(call),
            ..EXCHANGE
        };
        tells(rt, &case, Status::ReadFault, "", "room: read fault\n")?;
    }
    Ok(())
}

/// Each line is written in one piece, and those before the one that fails stand there.
fn lines_may_fail<R: Abort + AllocGlobal + Threads + Sync>(
    rt: &R,
    asked: &Asked,
) -> Result<(), Fail> {
    for whole in 0..asked.lines {
        let case = Case {
            words: asked.words,
            failing_write: Some((whole as u64).saturating_add(1)),
            ..EXCHANGE
        };
        let front = first_lines(asked.answer, whole);
        tells(rt, &case, Status::WriteFault, front, "")?;
    }
    Ok(())
}

/// No read comes behind the last one, and no write.
fn no_more_fails<R: Abort + AllocGlobal + Threads + Sync>(
    rt: &R,
    asked: &Asked,
) -> Result<(), Fail> {
    let case = Case {
        words: asked.words,
        failing_read: Some(asked.reads.saturating_add(1)),
        failing_write: Some((asked.lines as u64).saturating_add(1)),
        ..EXCHANGE
    };
    tells(rt, &case, Status::Done, asked.answer, "")
}

#[test]
fn each_read_and_each_write_may_fail(rt: HostRuntime) -> Result<(), Fail> {
    for asked in ASKED.as_slice() {
        reads_may_fail(&rt, asked)?;
        lines_may_fail(&rt, asked)?;
        no_more_fails(&rt, asked)?;
    }
    Ok(())
}

#[test]
fn an_output_without_room_has_a_front(rt: HostRuntime) -> Result<(), Fail> {
    let text = EXCHANGE.journals;
    for room in [0, 1, 20, 300, text.len().saturating_sub(1)] {
        let case = Case { room, ..EXCHANGE };
        let front = text.get(..room).unwrap_or(text);
        tells(&rt, &case, Status::WriteFault, front, "")?;
    }
    Ok(())
}

/// A note is written in one piece, and it may not be.
fn note_may_fail<R: Abort + AllocGlobal + Threads + Sync>(
    rt: &R,
    case: &Case,
    status: Status,
    note: &str,
) -> Result<(), Fail> {
    let untold = Case {
        failing_note: Some(1),
        ..*case
    };
    tells(rt, &untold, Status::WriteFault, "", "")?;
    let told = Case {
        failing_note: Some(2),
        ..*case
    };
    tells(rt, &told, status, "", note)
}

/// Behind what is refused, or isn't read, nothing more is read: the next read would fail.
#[test]
fn each_note_may_fail(rt: HostRuntime) -> Result<(), Fail> {
    let words = Case {
        words: &["run", "model.room"],
        failing_read: Some(1),
        ..EXCHANGE
    };
    note_may_fail(&rt, &words, Status::WordsRefused, "room: words refused\n")?;
    let unread = Case {
        model: "$",
        failing_read: Some(2),
        ..EXCHANGE
    };
    note_may_fail(&rt, &unread, Status::ReadFault, "room: read fault\n")?;
    let model = Case {
        model: "$",
        failing_read: Some(3),
        ..EXCHANGE
    };
    let note = "room: model refused: byte 0\n";
    note_may_fail(&rt, &model, Status::ModelRefused, note)
}

/// What is wrong with injections and journals of verdicts and of the system at a stamp.
#[test]
fn each_note_of_a_verdict_may_fail(rt: HostRuntime) -> Result<(), Fail> {
    for words in [VERIFY.as_slice(), SHOW.as_slice()] {
        let lines = Case {
            words,
            injections: "advance 1\n",
            failing_read: Some(5),
            ..EXCHANGE
        };
        let note = "room: injections refused: line 1 7\n";
        note_may_fail(&rt, &lines, Status::InjectionsRefused, note)?;
        let early = Case {
            words,
            journals: EARLY,
            ..EXCHANGE
        };
        note_may_fail(&rt, &early, Status::Unlawful, "room: unlawful: entry 0 2\n")?;
    }
    Ok(())
}

/// Journals in which a turn comes before its fetch.
const EARLY: &str = "room-journal 2
controller 0 default
start top#1 -
start top/a#1 Wait
start top/b#1 Up
2 turn env@1 handled top/a#1 Wait
environment
1 post 0 3 - top/a#0.go[0] kick
done
";
