//! Messages.
ghost use Rattle.std.specs.Prelude.{◌≤◌, All, length};
ghost use Rattle.journal_reader.specs.journal_texts.InRange.{InRangeEndpoint, InRangeMsg, InRangeSource, IsSigned64};

use room_kinds::{Endpoint, Msg};

/// An endpoint.
fn look_at_endpoint(endpoint: Endpoint)
    ensures { InRangeEndpoint endpoint }
{}

/// The source of a message, if it has one.
fn look_at_source(source: Option<Endpoint>)
    ensures { InRangeSource source }
{
    match source {
        Some(endpoint) => look_at_endpoint(endpoint),
        None => {}
    }
}

/// A number that a message carries.
fn look_at_number(number: i64)
    ensures { IsSigned64 number }
{}

/// The numbers that a message carries.
fn look_at_numbers(numbers: &[i64])
    ensures { All IsSigned64 numbers.now }
{
    for number in numbers {
        look_at_number(*number);
    }
}

/// A message.
pub(crate) fn look_at_message(msg: &Msg)
    ensures { InRangeMsg msg.now }
{
    let (_from, _to, _prio) = (msg.from.0, msg.to.0, msg.prio.0);
    let (_stamp, _signal) = (msg.stamp.0, msg.signal);
    look_at_source(msg.source);
    look_at_endpoint(msg.target);
    look_at_numbers(msg.payload.numbers());
}
