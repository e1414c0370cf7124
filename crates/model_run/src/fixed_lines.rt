//! Lines that are all known, as a source of parts.
ghost use Rattle.std.specs.Prelude.{◌≡◌, ◌≤◌, drop, length};
ghost use Rattle.std.specs.List.{prefix_len};
ghost use Rattle.model_run.specs.fixed_lines.Fixed.{message_line, settle_line};

use crate::part_source::PartSource;
use controller::{Controller, Environment};
use inject_reader::inject_lines::{Line, What};
use std::alloc::{AllocError, Global};

/// Whether a line asks for a message.
fn is_message(line: &Line) -> bool
    ensures { result ≡ message_line line.now }
{
    match &line.what {
        What::Settle | What::Advance(_) => false,
        What::Message { .. } => true,
    }
}

/// How many lines in front ask for none, as `settle` does.
fn leading_settles(lines: &[Line]) -> usize
    ensures { result ≡ prefix_len settle_line lines.now }
{
    lines.iter().take_while(|line| !is_message(line)).count()
}

/// How many lines in front ask for a message.
fn leading_messages(lines: &[Line]) -> usize
    ensures { result ≡ prefix_len message_line lines.now }
{
    lines.iter().take_while(|line| is_message(line)).count()
}

/// The lines of an injection text. A part ends at a line that asks for no message, or at the end.
#[derive(Drop)]
pub struct FixedLines<'l> {
    lines: &'l [Line],
    /// The end of the part.
    to: usize,
    part: &'l [Line],
    ghost within: { to ≤ length lines.now },
    ghost ends: { prefix_len message_line (drop to lines.now) ≡ 0 },
}

impl<'l> FixedLines<'l> {
    ghost use Rattle.std.specs.Prelude.{take};
    ghost use Rattle.room_wiring.specs.declared.tables.Tables.{Tables};
    ghost use Rattle.inject_reader.specs.Fitting.{LinesFit};
    ghost use Rattle.model_run.specs.part_source.Parts.{IsPart};

    /// These lines, at their first part.
    pub fn new(lines: &'l [Line]) -> FixedLines<'l>
        ensures lines { result.lines.now ≡ lines.now }
        ensures part { result.part.now ≡ take result.to lines.now }
        ensures of { IsPart result.part.now }
        ensures fits { (wiring : Tables) → LinesFit wiring lines.now
            → LinesFit wiring result.part.now }
    {
        let to = leading_messages(lines);
        let (part, _) = lines.split_at(to);
        FixedLines { lines, to, part }
    }
}

impl<'l> PartSource for FixedLines<'l> {
    ghost use Rattle.std.specs.Prelude.{take, map};
    ghost use Rattle.room_wiring.specs.declared.tables.Tables.{Tables};
    ghost use Rattle.inject_reader.specs.declared.inject_lines.accepted.Line.{Line as Accepted};
    ghost use Rattle.inject_reader.specs.Fitting.{LinesFit};

    ghost given = { λ s. take s.to s.lines.now };

    ghost stands_at = { λ s. s.part.now };

    ghost left = { λ s. map (λ (l : Accepted). l.number) (drop s.to s.lines.now) };

    ghost fits = { λ wiring s. LinesFit wiring s.lines.now × LinesFit wiring s.part.now };

    ghost part_fits = { λ wiring s fit. fit.1 };

    ghost goes_on = { λ old journals new. new.lines.now ≡ old.lines.now };

    fn part(&self) -> &[Line] {
        self.part
    }

    fn next_part(
        &mut self,
        alloc: Global,
        controllers: &[Controller],
        environment: &Environment,
    ) -> Result<bool, AllocError> {
        let (_, behind) = self.lines.split_at(self.to);
        let settles = leading_settles(behind);
        let (_, after) = behind.split_at(settles);
        let messages = leading_messages(after);
        let (part, _) = after.split_at(messages);
        *self = FixedLines {
            lines: self.lines,
            to: self.to + settles + messages,
            part,
        };
        Ok(0 < messages)
    }

    fn numbers_left(&self, alloc: Global) -> Result<Vec<u32>, AllocError> {
        let (_, behind) = self.lines.split_at(self.to);
        behind.iter().map(|line| line.number).collect(alloc)
    }
}
