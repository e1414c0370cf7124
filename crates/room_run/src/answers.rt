//! That a call has one answer: the laws of what a call answers.
//!
//! No code: the laws.
ghost use Rattle.room_run.specs.Conversions.{ConversionsKeepJournals};
ghost use Rattle.room_run.specs.OneAnswer.{AcceptedCallsEnd, CallsHaveOneAnswer};
ghost use Rattle.room_run.specs.Snapshots.{PrintedRunsAreShown, ShowsAreExact};
ghost use Rattle.room_run.specs.Verified.{PrintedRunsAreLawful, VerdictsAreExact};

/// Of the words and the texts that they name at most one refusal holds besides want of memory, and none
/// where they have an answer, where the texts are told and no read of them failed.
pub fn one_answer()
    ensures { CallsHaveOneAnswer }
{}

/// A call whose words ask for something and whose texts are accepted ends as done, spent, or for want of
/// memory, where no read of a named file and no write failed.
pub fn accepted_calls_end()
    ensures { AcceptedCallsEnd }
{}

/// What is written of journals that were read, in form 2, is the text of these journals and of no others, so
/// who reads it gets them again.
pub fn conversions_keep_journals()
    ensures { ConversionsKeepJournals }
{}

/// Where the texts that a call names are told and accepted, and no read and no write fails, it is done exactly where
/// the journals are lawful, prompt and ended by the charts of the model, over the lines and with the fuel, and
/// unlawful exactly where they aren't; unless it ends for want of memory.
pub fn verdicts_are_exact()
    ensures { VerdictsAreExact }
{}

/// What a run printed, over lines that don't move virtual time on, is answered as lawful with the same fuel.
pub fn printed_runs_are_lawful()
    ensures { PrintedRunsAreLawful }
{}

/// Where the texts that a call names are told and accepted, and no read and no write fails, it is done exactly where
/// the journals have a snapshot at the stamp by the charts of the model, and unlawful exactly where they have none;
/// unless it ends for want of memory.
pub fn shows_are_exact()
    ensures { ShowsAreExact }
{}

/// Of what a run printed, over lines that don't move virtual time on, each stamp is shown.
pub fn printed_runs_are_shown()
    ensures { PrintedRunsAreShown }
{}
