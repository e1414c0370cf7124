//! Reading, and judging what was read.
ghost use Rattle.std.specs.Prelude.{◌≡◌, ◌↔◌, IfOk, IsTrue};
ghost use Rattle.room_wiring.specs.Consistent.{IsConsistent};
ghost use Rattle.room_wiring.specs.WellNamed.{IsWellNamed};
ghost use Rattle.journal.specs.declared.entry.Journals.{Journals};
ghost use Rattle.journal.specs.Fits.{Fits};
ghost use Rattle.journal.specs.Text.{text_of};
ghost use Rattle.journal_reader.specs.journal_texts.InRange.{IsInRange};
ghost use Rattle.journal_reader.specs.Answer.{Answers, Differs, IsTiedText, IsTextOf, is_second_form};
ghost use Rattle.tied_journals.specs.Tied.{Tied};
ghost use Rattle.tied_journals.specs.Text.{tied_text_of};

use crate::fault::ReadFaultOf;
use crate::fill::fill;
use crate::full_sink::FullSink;
use crate::journal_fits::fits;
use crate::journal_lines::read;
use journal::{Journals, text_to};
use room_wiring::Wiring;
use room_wiring::wiring_names::Names;
use std::alloc::{AllocError, Global};
use tied_journals::{first_untied, lines_to};

/// How many bytes at the front of two texts are the same.
fn same_front(a: &[u8], b: &[u8]) -> usize {
    a.iter().zip(b).take_while(|(x, y)| x == y).count()
}

/// The first byte at which two texts differ, if they do.
fn first_difference(text: &[u8], bytes: &[u8]) -> Option<usize>
    ensures { Differs result text.now bytes.now }
{
    if text == bytes {
        None
    } else {
        Some(same_front(text, bytes))
    }
}

/// The first byte at which the text of the journals differs from this one, if it does. It takes as
/// much memory as the text has bytes.
fn difference(
    alloc: Global,
    wiring: &Wiring,
    journals: &Journals,
    bytes: &[u8],
) -> Result<Option<usize>, AllocError>
    ensures { IfOk result (λ offset. Differs offset (text_of wiring.now journals.now) bytes.now) }
{
    let mut sink = FullSink::new(alloc, bytes.len())?;
    match text_to(journals, wiring, &mut sink) {
        Ok(()) => Ok(first_difference(sink.bytes(), bytes)),
        // The sink is full, so the text is longer.
        Err(_) => Ok(Some(same_front(sink.bytes(), bytes))),
    }
}

/// The first byte at which the text of the journals in form 2 differs from this one, if it does. It
/// takes as much memory as the text has bytes.
fn tied_difference(
    alloc: Global,
    wiring: &Wiring,
    journals: &Journals,
    bytes: &[u8],
) -> Result<Option<usize>, AllocError>
    ensures { IfOk result (λ offset. Differs offset
        (tied_text_of wiring.now journals.now) bytes.now) }
{
    let mut sink = FullSink::new(alloc, bytes.len())?;
    match lines_to(journals, wiring, &mut sink) {
        Ok(()) => Ok(first_difference(sink.bytes(), bytes)),
        // The sink is full, so the text is longer.
        Err(_) => Ok(Some(same_front(sink.bytes(), bytes))),
    }
}

/// Whether a text has the title of form 2, if it has the title of a form.
fn is_second_form(bytes: &[u8]) -> bool
    ensures { result ≡ is_second_form bytes.now }
{
    match bytes.get(13) {
        Some(form) => *form == b'2',
        None => false,
    }
}

/// The journals with this text in form 1.
fn read_first_form(
    alloc: Global,
    names: &Names<'_>,
    wiring: &Wiring,
    bytes: &[u8],
) -> Result<Journals, ReadFaultOf>
    requires { names.now ≡ wiring.now }
    ensures text { IfOk result (λ j. text_of wiring.now j ≡ bytes.now) }
    ensures fits { IfOk result (λ j. Fits wiring.now j) }
    ensures in_range { IfOk result (λ j. IsInRange j) }
    ensures only { IsWellNamed wiring.now → (j : Journals) → Fits wiring.now j → IsInRange j
        → text_of wiring.now j ≡ bytes.now → Answers result j }
{
    let journals = read(alloc, names, bytes)?;
    let fitting = fits(wiring, &journals);
    match difference(alloc, wiring, &journals, bytes)? {
        Some(offset) => Err(ReadFaultOf::Malformed { offset }),
        None => {
            if fitting {
                Ok(journals)
            } else {
                Err(ReadFaultOf::Malformed {
                    offset: bytes.len(),
                })
            }
        }
    }
}

/// Whether journals fit the wiring and are tied.
fn is_tied_and_fits(alloc: Global, wiring: &Wiring, journals: &Journals) -> Result<bool, AllocError>
    ensures judged { IfOk result (λ r. IsTrue r
        ↔ (Fits wiring.now journals.now × Tied journals.now)) }
    ensures consistent { IsConsistent wiring.now }
{
    let fitting = fits(wiring, journals);
    let untied = first_untied(alloc, journals)?;
    Ok(fitting && untied.is_none())
}

/// The journals with this text in form 2: each message that a controller fetched is that of the
/// post that it names, which may stand anywhere in the text.
fn read_second_form(
    alloc: Global,
    names: &Names<'_>,
    wiring: &Wiring,
    bytes: &[u8],
) -> Result<Journals, ReadFaultOf>
    requires { names.now ≡ wiring.now }
    ensures text { IfOk result (λ j. IsTiedText wiring.now j bytes.now) }
    ensures fits { IfOk result (λ j. Fits wiring.now j) }
    ensures in_range { IfOk result (λ j. IsInRange j) }
    ensures only { IsWellNamed wiring.now → (j : Journals) → Fits wiring.now j → IsInRange j
        → IsTiedText wiring.now j bytes.now → Answers result j }
{
    let outlines = read(alloc, names, bytes)?;
    let journals = fill(alloc, outlines)?;
    let fitting = is_tied_and_fits(alloc, wiring, &journals)?;
    match tied_difference(alloc, wiring, &journals, bytes)? {
        Some(offset) => Err(ReadFaultOf::Malformed { offset }),
        None => {
            if fitting {
                Ok(journals)
            } else {
                Err(ReadFaultOf::Malformed {
                    offset: bytes.len(),
                })
            }
        }
    }
}

/// The journals with this text, in form 1 or in form 2, which fit the wiring.
///
/// They are read leniently, written again and compared; so a text is accepted exactly where it is,
/// byte for byte, what `journal::text_to` writes of journals that fit, or what
/// `tied_journals::text_to` writes of journals that fit and are tied. At a wiring whose names tell
/// things apart at most one has it (`texts_differ`, `tied_texts_differ`). It takes time and memory
/// in proportion to the text and to the tables of the wiring.
pub fn read_journals(alloc: Global, bytes: &[u8], wiring: &Wiring) -> Result<Journals, ReadFaultOf>
    // What is read fits, has its numbers in the ranges of their types, and has this text.
    ensures text { IfOk result (λ j. IsTextOf wiring.now j bytes.now) }
    ensures fits { IfOk result (λ j. Fits wiring.now j) }
    ensures in_range { IfOk result (λ j. IsInRange j) }
    // Where journals that fit have this text, they are what is read.
    ensures only { IsWellNamed wiring.now → (j : Journals) → Fits wiring.now j → IsInRange j
        → IsTextOf wiring.now j bytes.now → Answers result j }
{
    let names = Names::of(alloc, wiring)?;
    if is_second_form(bytes) {
        read_second_form(alloc, &names, wiring, bytes)
    } else {
        read_first_form(alloc, &names, wiring, bytes)
    }
}
