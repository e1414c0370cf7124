//! Lines of an injection text.
ghost use Rattle.std.specs.Prelude.{◌≡◌, ◌≤◌, drop, length, IfOk};
ghost use Rattle.model_run.specs.fixed_lines.Fixed.{message_line};
ghost use Rattle.room_timer.specs.Expansion.{settle};
ghost use Rattle.timed_runs.specs.Passed.{messages_in_front};

use inject_reader::inject_lines::{Line, What};
use std::alloc::{AllocError, Global};

/// Whether a line asks for a message.
fn is_message(line: &Line) -> bool
    ensures { result ≡ message_line line.now }
{
    match &line.what {
        What::Settle | What::Advance(_) => false,
        What::Message { .. } => true,
    }
}

/// How many messages stand in front.
#[tactic(auto, using(crate::proofs::Passing::front_within))]
pub(crate) fn messages_in_front(lines: &[Line]) -> usize
    ensures number { result ≡ messages_in_front lines.now }
    ensures bound { result ≤ length lines.now }
{
    lines.iter().take_while(|line| is_message(line)).count()
}

/// The lines behind so many.
#[tactic(auto, using(std::proofs::lemmas::List::drop_min))]
pub(crate) fn lines_behind(lines: &[Line], to: usize) -> &[Line]
    ensures { result.now ≡ drop to lines.now }
{
    let (_, behind) = lines.split_at(to.min(lines.len()));
    behind
}

/// `settle` under a number.
pub(crate) fn settle(number: u32) -> Line
    ensures { result ≡ settle number }
{
    Line {
        number,
        what: What::Settle,
    }
}

/// What a line asks for, once more.
fn copy_of_what(alloc: Global, what: &What) -> Result<What, AllocError>
    ensures { IfOk result (λ w. w ≡ what.now) }
{
    match what {
        What::Settle => Ok(What::Settle),
        What::Advance(time) => Ok(What::Advance(*time)),
        What::Message {
            target,
            signal,
            payload,
            prio,
        } => {
            let payload = payload.copy(alloc)?;
            Ok(What::Message {
                target: *target,
                signal: *signal,
                payload,
                prio: *prio,
            })
        }
    }
}

/// A line equal to this one.
fn copy_of(alloc: Global, line: &Line) -> Result<Line, AllocError>
    ensures { IfOk result (λ l. l ≡ line.now) }
{
    let what = copy_of_what(alloc, &line.what)?;
    Ok(Line {
        number: line.number,
        what,
    })
}

/// Lines equal to these.
pub(crate) fn copies_of(alloc: Global, lines: &[Line]) -> Result<Vec<Line>, AllocError>
    ensures { IfOk result (λ copies. copies.items ≡ lines.now) }
{
    let mut copies = Vec::new(alloc);
    for line in lines {
        copies.push(copy_of(alloc, line)?)?;
    }
    Ok(copies)
}
