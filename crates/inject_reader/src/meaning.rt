//! What a line asks for.
ghost use Rattle.std.specs.Prelude.{◌≡◌, ◌≤◌, length, IfOk};
ghost use Rattle.inject_reader.specs.inject_lines.Views.{wanted_view};
ghost use Rattle.inject_reader.specs.Gives.{Gives};
ghost use Rattle.inject_reader.specs.Meaning.{reduced_all, payload_meant, message_meant, advance_meant, line_meant};

use crate::directory::Directory;
use crate::fault::InjectFault;
use crate::inject_lines::{Advances, Form, Wanted, What, read_form};
use crate::line_fault::LineFault;
use room_kinds::{Endpoint, Generation, NumberType, Payload};
use std::alloc::{AllocError, Global};

/// The numbers of a message, if there is one for each type.
#[tactic(auto, unfolding(crate::specs::Meaning::payload_meant))]
fn payload(
    alloc: Global,
    types: &[NumberType],
    numbers: &[i64],
) -> Result<Option<Payload>, AllocError>
    ensures { IfOk result (λ p. p ≡ payload_meant types.now numbers.now) }
{
    if numbers.len() != types.len() || numbers.len() > Payload::MAX_LEN {
        return Ok(None);
    }
    let mut payload = Payload::empty(alloc);
    for (kind, number) in types.iter().zip(numbers) {
        payload.push(kind.reduce(*number))?;
    }
    Ok(Some(payload))
}

#[tactic(auto, unfolding(crate::specs::Meaning::message_meant))]
fn message(
    alloc: Global,
    directory: &Directory<'_>,
    line: u32,
    wanted: &Wanted<'_>,
) -> Result<What, InjectFault>
    ensures { Gives (λ w. w) result (message_meant directory.now line (wanted_view wanted.now)) }
{
    let target = wanted.target;
    let Some(slot) = directory.slot(target.path) else {
        return Err(InjectFault::Code {
            line,
            fault: LineFault::NoSlot,
        });
    };
    let Some(end) = directory.end(slot, target.port, target.place) else {
        return Err(InjectFault::Code {
            line,
            fault: LineFault::NoEnd,
        });
    };
    let Some((signal, names)) = directory.signal(slot, end.port, end.names, wanted.signal) else {
        return Err(InjectFault::Code {
            line,
            fault: LineFault::NoSignal,
        });
    };
    let numbers = wanted.load.numbers.as_slice();
    let Some(payload) = payload(alloc, names.numbers.as_slice(), numbers)? else {
        return Err(InjectFault::Code {
            line,
            fault: LineFault::OtherNumbers,
        });
    };
    Ok(What::Message {
        target: Endpoint {
            slot,
            generation: Generation(0),
            port: end.port,
            place: end.place,
        },
        signal,
        payload,
        prio: wanted.load.prio,
    })
}

fn advance(advances: Advances, line: u32, time: u32) -> Result<What, InjectFault>
    ensures { Gives (λ w. w) result (advance_meant advances line time) }
{
    match advances {
        Advances::Taken => Ok(What::Advance(time)),
        Advances::Refused => Err(InjectFault::Code {
            line,
            fault: LineFault::NoTime,
        }),
    }
}

/// What the line of this number asks for.
#[tactic(auto, unfolding(crate::specs::Meaning::line_meant))]
pub fn read_line(
    alloc: Global,
    advances: Advances,
    directory: &Directory<'_>,
    line: u32,
    text: &[u8],
) -> Result<What, InjectFault>
    ensures { Gives (λ w. w) result (line_meant advances directory.now line text.now) }
{
    let Some(form) = read_form(alloc, text)? else {
        return Err(InjectFault::Code {
            line,
            fault: LineFault::NoForm,
        });
    };
    match form {
        Form::Settle => Ok(What::Settle),
        Form::Advance(time) => advance(advances, line, time),
        Form::Message(wanted) => message(alloc, directory, line, &wanted),
    }
}
