//! The summary of a run of the made model.
ghost use Rattle.std.specs.Prelude.{◌≡◌, decimal, OnOk, IfErr};
ghost use Rattle.room_outside.specs.Written.{Appends, BreaksOffAfter, Writes};
ghost use Rattle.made_model.specs.Summaries.{end_word, lines_of, summary_text};

use crate::counts::Counts;
use itoa::Buffer;
use room_outside::{Part, Sink, WriteFault, write_only_line};

/// What is told of a run of the made model.
#[derive(Clone, Copy, PartialEq, Eq)]
pub struct Summary {
    /// How many actors stand in the ring.
    pub actors: u64,
    pub counts: Counts,
    /// Whether all was quiet in the end, and not the fuel at its end.
    pub done: bool,
}

fn end_word(done: bool) -> &'static [u8]
    ensures { result.now ≡ end_word done }
{
    if done { b"done" } else { b"spent" }
}

/// Writes the eight lines of these texts in one piece.
#[tactic(auto, using(crate::proofs::Pieces::in_one_piece))]
fn write_lines<'a, K: Sink>(
    sink: &mut K,
    actors: u64,
    posts: &'a [u8],
    fetches: &'a [u8],
    handled: &'a [u8],
    unhandled: &'a [u8],
    end: &'a [u8],
) -> Result<(), WriteFault>
    ensures { Writes result (K.written sink.old) (K.written sink.new)
        (lines_of (decimal actors) posts.now fetches.now handled.now unhandled.now end.now) }
{
    let parts = [
        Part::Text(b"made "),
        Part::Number(actors),
        Part::Text(b"\ncontrollers 4\nslots "),
        Part::Number(actors),
        Part::Text(b"\nposts "),
        Part::Text(posts),
        Part::Text(b"\nfetches "),
        Part::Text(fetches),
        Part::Text(b"\nhandled "),
        Part::Text(handled),
        Part::Text(b"\nunhandled "),
        Part::Text(unhandled),
        Part::Text(b"\n"),
        Part::Text(end),
    ];
    write_only_line(sink, &parts)
}

/// Writes what is told in decimal digits.
#[tactic(auto, unfolding(crate::specs::Summaries::summary_text))]
fn write_digits<K: Sink>(sink: &mut K, summary: &Summary) -> Result<(), WriteFault>
    ensures { Writes result (K.written sink.old) (K.written sink.new)
        (summary_text summary.now) }
{
    let counts = summary.counts;
    let mut posts = Buffer::new();
    let mut fetches = Buffer::new();
    let mut handled = Buffer::new();
    let mut unhandled = Buffer::new();
    write_lines(
        sink,
        summary.actors,
        posts.format(counts.posts).as_bytes(),
        fetches.format(counts.fetches).as_bytes(),
        handled.format(counts.handled).as_bytes(),
        unhandled.format(counts.unhandled).as_bytes(),
        end_word(summary.done),
    )
}

/// Writes the summary of a run of the made model. It takes no memory.
pub fn write_summary<K: Sink>(summary: &Summary, sink: &mut K) -> Result<(), WriteFault>
    ensures ok { OnOk result (Appends (K.written sink.old) (K.written sink.new)
        (summary_text summary.now)) }
    ensures fault { IfErr result (λ fault. BreaksOffAfter fault.taken
        (K.written sink.old) (K.written sink.new) (summary_text summary.now)) }
{
    write_digits(sink, summary)
}
