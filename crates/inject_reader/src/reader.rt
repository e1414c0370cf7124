//! Injections from their text.
ghost use Rattle.std.specs.Prelude.{◌≡◌, ◌≤◌, length, IfOk};
ghost use Rattle.std.specs.Str.Lines.{lines};
ghost use Rattle.inject_reader.specs.Gives.{Gives, Adds};
ghost use Rattle.inject_reader.specs.declared.inject_lines.accepted.Advances.TheVariants.{Taken, Refused};
ghost use Rattle.inject_reader.specs.Fitting.{FitLines, AreUntimed};
ghost use Rattle.inject_reader.specs.Answer.{is_passed_over, entry_at, entries_from, answer};

use crate::directory::Directory;
use crate::fault::InjectFault;
use crate::inject_lines::{Advances, Line};
use crate::line_fault::LineFault;
use crate::lines::{first_line, line_count};
use crate::meaning::read_line;
use room_wiring::Wiring;
use std::alloc::Global;

/// The most lines.
const MOST_LINES: usize = 10_000;

/// Whether a line is empty or begins with `#`.
fn is_passed_over(text: &[u8]) -> bool
    ensures { result ≡ is_passed_over text.now }
{
    match text {
        [first, ..] => *first == b'#',
        [] => true,
    }
}

/// Adds the line of this number, unless it is passed over.
#[tactic(auto, unfolding(crate::specs::Answer::entry_at))]
fn add_line(
    alloc: Global,
    advances: Advances,
    directory: &Directory<'_>,
    found: &mut Vec<Line>,
    number: u32,
    text: &[u8],
) -> Result<(), InjectFault>
    ensures { Adds result found.old.items found.new.items
        (entry_at advances directory.now number text.now) }
{
    if is_passed_over(text) {
        return Ok(());
    }
    let what = read_line(alloc, advances, directory, number, text)?;
    found.push(Line { number, what })?;
    Ok(())
}

fn read_lines(
    alloc: Global,
    advances: Advances,
    directory: &Directory<'_>,
    bytes: &[u8],
) -> Result<Vec<Line>, InjectFault>
    requires { length (lines bytes.now) ≤ 10000 }
    ensures { Gives (λ v. v.items) result
        (entries_from advances directory.now 1 (lines bytes.now)) }
{
    let mut found = Vec::new(alloc);
    let mut number = 1;
    let mut rest = bytes;
    while let Some((text, behind)) = first_line(rest) {
        add_line(alloc, advances, directory, &mut found, number, text)?;
        rest = behind;
        number += 1;
    }
    Ok(found)
}

#[tactic(auto, unfolding(crate::specs::Answer::answer))]
fn read(
    alloc: Global,
    advances: Advances,
    bytes: &[u8],
    wiring: &Wiring,
) -> Result<Vec<Line>, InjectFault>
    ensures { Gives (λ v. v.items) result (answer advances wiring.now bytes.now) }
{
    if line_count(bytes) > MOST_LINES {
        return Err(InjectFault::Code {
            line: 10_001,
            fault: LineFault::TooManyLines,
        });
    }
    let directory = Directory::of(alloc, wiring)?;
    read_lines(alloc, advances, &directory, bytes)
}

/// Reads injections: the accepted lines of a text with their numbers, or the first fault.
///
/// A line is `settle`, `advance <time>` or `<path>.<port>[<place>] <signal> <numbers> at <prio>`,
/// in which the place (then 0), the numbers and the last two words (then `at general`) may be
/// missing; fields stand between blanks and tabs. A time is 1 to 2,147,483,647, without a sign or a
/// leading zero. Numbers are reduced to the types of the message's numbers. Empty lines and lines
/// that begin with `#` are passed over, and counted. Of equal names of a wiring the first is meant.
///
/// It takes time and memory in proportion to the text and to the tables of the wiring, where the
/// names of the wiring tell things apart (`IsWellNamed`).
pub fn read_injections(
    alloc: Global,
    bytes: &[u8],
    wiring: &Wiring,
) -> Result<Vec<Line>, InjectFault>
    // The lines, or the fault, are those of the definition, unless memory runs out.
    ensures exact { Gives (λ v. v.items) result (answer Taken wiring.now bytes.now) }
    // Each line names what the wiring has.
    ensures fit { IfOk result (λ v. FitLines wiring.now v.items) }
{
    read(alloc, Advances::Taken, bytes, wiring)
}

/// The same for who knows no virtual time: a line `advance <time>` is refused with code 7.
pub fn read_untimed(alloc: Global, bytes: &[u8], wiring: &Wiring) -> Result<Vec<Line>, InjectFault>
    // The lines, or the fault, are those of the definition, unless memory runs out.
    ensures exact { Gives (λ v. v.items) result (answer Refused wiring.now bytes.now) }
    // Each line names what the wiring has.
    ensures fit { IfOk result (λ v. FitLines wiring.now v.items) }
    // No line moves virtual time on.
    ensures untimed { IfOk result (λ v. AreUntimed v.items) }
{
    read(alloc, Advances::Refused, bytes, wiring)
}
