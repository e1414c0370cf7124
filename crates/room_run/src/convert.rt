//! From the texts of a model and of journals to these journals.
ghost use Rattle.std.specs.Prelude.{◌≡◌, ◌≤◌, length, IfOk, IfErr, IfSome};
ghost use Rattle.journal.specs.Fits.{Fits};
ghost use Rattle.room_outside.specs.Shown.{Keeps};
ghost use Rattle.room_wiring.specs.WellNamed.{IsWellNamed};
ghost use Rattle.tied_journals.specs.Tied.{Tied};
ghost use Rattle.room_run.specs.Words.{record_view};
ghost use Rattle.room_run.specs.Conversions.{HasJournals, HasTiedJournals};
ghost use Rattle.room_run.specs.Causes.{ConvertCauses, JournalsCauses, ReadingCauses, RecordedCauses, TextIs, TiedCauses, UnreadRecord, refusal_of_journals};
ghost use Rattle.room_run.specs.Outcome.{AreRecorded};

use crate::asked::Record;
use crate::prepare::{Recorded, read_wiring};
use crate::refusal::Refusal;
use journal::Journals;
use journal_reader::{ReadFaultOf, read_journals};
use room_outside::{ReadRefused, Shelf, read_limit};
use room_wiring::Wiring;
use std::alloc::{AllocError, Global};
use tied_journals::first_untied;

/// The most bytes of a text of journals.
const MOST_JOURNAL_BYTES: u64 = 268_435_456;

/// Why journals are refused whose text can't be read.
fn refusal_of_journals(fault: ReadFaultOf) -> Refusal
    ensures { result ≡ refusal_of_journals fault }
{
    match fault {
        ReadFaultOf::Malformed { offset } => Refusal::JournalsMalformed { offset },
        ReadFaultOf::Memory => Refusal::Memory,
    }
}

/// The journals of a text over the names of a wiring, where it has some.
fn some_journals(alloc: Global, text: &[u8], wiring: &Wiring) -> Result<Journals, Refusal>
    requires short { length text.now ≤ 268435456 }
    requires named { IsWellNamed wiring.now }
    ensures ok { IfOk result (λ j. HasJournals wiring.now text.now j) }
    ensures err { IfErr result (λ why. ReadingCauses wiring.now text.now why) }
{
    match read_journals(alloc, text, wiring) {
        Ok(journals) => Ok(journals),
        Err(fault) => Err(refusal_of_journals(fault)),
    }
}

/// The journals of a text over the names of a wiring, where it has some and they are tied.
fn tied_journals(alloc: Global, text: &[u8], wiring: &Wiring) -> Result<Journals, Refusal>
    requires short { length text.now ≤ 268435456 }
    requires named { IsWellNamed wiring.now }
    ensures ok { IfOk result (λ j. HasTiedJournals wiring.now text.now j) }
    ensures err { IfErr result (λ why. RecordedCauses wiring.now text.now why) }
{
    let journals = match some_journals(alloc, text, wiring) {
        Ok(journals) => journals,
        Err(why) => return Err(why),
    };
    match first_untied(alloc, &journals) {
        Ok(None) => Ok(journals),
        Ok(Some((controller, stamp))) => Err(Refusal::JournalsUntied { controller, stamp }),
        Err(AllocError) => Err(Refusal::Memory),
    }
}

/// The text of journals under a name.
fn read_journals_text<S: Shelf>(
    alloc: Global,
    shelf: &mut S,
    name: &str,
) -> Result<Vec<u8>, Refusal>
    ensures short { IfOk result (λ v. length v.items ≤ 268435456) }
    ensures ok { IfOk result (λ v.
        IfSome ((S.shown shelf.old).text name.now) (λ text. v.items ≡ text)) }
    ensures err { IfErr result (λ why.
        UnreadRecord (S.shown shelf.old) (S.shown shelf.new) name.now why) }
    ensures keeps { Keeps (S.shown shelf.old) (S.shown shelf.new) }
{
    match read_limit(alloc, shelf, name, MOST_JOURNAL_BYTES) {
        Ok(text) => Ok(text),
        Err(ReadRefused::ReadFault) => Err(Refusal::ReadFault),
        Err(ReadRefused::TooLong) => Err(Refusal::JournalsTooLong),
        Err(ReadRefused::Memory) => Err(Refusal::Memory),
    }
}

/// The journals whose text stands under a name.
pub(crate) fn read_any_record<S: Shelf>(
    alloc: Global,
    shelf: &mut S,
    name: &str,
    wiring: &Wiring,
) -> Result<Journals, Refusal>
    requires { IsWellNamed wiring.now }
    ensures ok { IfOk result (λ j. TextIs (S.shown shelf.old) name.now
        (λ text. HasJournals wiring.now text j)) }
    ensures fits { IfOk result (λ j. Fits wiring.now j) }
    ensures err { IfErr result (λ why. JournalsCauses (S.shown shelf.old) (S.shown shelf.new)
        name.now wiring.now why) }
    ensures keeps { Keeps (S.shown shelf.old) (S.shown shelf.new) }
{
    let text = match read_journals_text(alloc, shelf, name) {
        Ok(text) => text,
        Err(why) => return Err(why),
    };
    some_journals(alloc, text.as_slice(), wiring)
}

/// The journals whose text stands under a name, where they are tied.
fn read_record<S: Shelf>(
    alloc: Global,
    shelf: &mut S,
    name: &str,
    wiring: &Wiring,
) -> Result<Journals, Refusal>
    requires { IsWellNamed wiring.now }
    ensures ok { IfOk result (λ j. TextIs (S.shown shelf.old) name.now
        (λ text. HasTiedJournals wiring.now text j)) }
    ensures tied { IfOk result (λ j. Tied j) }
    ensures err { IfErr result (λ why. TiedCauses (S.shown shelf.old) (S.shown shelf.new)
        name.now wiring.now why) }
    ensures keeps { Keeps (S.shown shelf.old) (S.shown shelf.new) }
{
    let text = match read_journals_text(alloc, shelf, name) {
        Ok(text) => text,
        Err(why) => return Err(why),
    };
    tied_journals(alloc, text.as_slice(), wiring)
}

/// The journals of a model of which two files tell, in form 1 or in form 2.
pub(crate) fn convert<S: Shelf>(
    alloc: Global,
    shelf: &mut S,
    files: Record,
) -> Result<Recorded, Refusal>
    ensures ok { IfOk result (λ r. AreRecorded (S.shown shelf.old) (record_view files.entry)
        r.wiring r.journals) }
    ensures tied { IfOk result (λ r. Tied r.journals) }
    ensures err { IfErr result (λ why. ConvertCauses (S.shown shelf.old) (S.shown shelf.new)
        (record_view files.entry) why) }
    ensures keeps { Keeps (S.shown shelf.old) (S.shown shelf.new) }
{
    let wiring = match read_wiring(alloc, shelf, files.model) {
        Ok(wiring) => wiring,
        Err(why) => return Err(why),
    };
    match read_record(alloc, shelf, files.journals, &wiring) {
        Ok(journals) => Ok(Recorded { wiring, journals }),
        Err(why) => Err(why),
    }
}
