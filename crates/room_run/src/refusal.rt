//! Why a call was refused.
ghost use Rattle.std.specs.Prelude.{◌≡◌};
ghost use Rattle.room_run.specs.Causes.{status_of};

use crate::model_fault::ModelFault;
use crate::status::Status;
use inject_reader::LineFault;
use room_kinds::{ControllerId, Stamp};
use room_verify::Verdict;

/// Why a call was refused, before anything was written.
#[derive(Drop)]
pub enum Refusal {
    Words,
    ModelTooLong,
    /// The text of the model is refused.
    Model(ModelFault),
    InjectionsTooLong,
    /// The line of this number, from 1, is the first of the injections that is faulty, and this is its
    /// first fault.
    InjectionsLine {
        line: u32,
        fault: LineFault,
    },
    JournalsTooLong,
    /// No journals have this text. The offset is that of the first byte, from 0, at which it differs from the
    /// text of the journals as which it can be read; the text's length where these don't fit the model.
    JournalsMalformed {
        offset: usize,
    },
    /// The journals are told by their posts only in part: this fetch is the first, by controller and then in
    /// order of the journal, that isn't that of the one post which it names, or is stamped out of turn.
    JournalsUntied {
        controller: ControllerId,
        stamp: Stamp,
    },
    /// The verdict on the journals is this one, and not that they are lawful. The model has so many
    /// controllers; the party with this number is the environment.
    Unlawful {
        verdict: Verdict,
        controllers: u8,
    },
    ReadFault,
    Memory,
}

impl Refusal {
    pub(crate) fn status(&self) -> Status
        ensures { result ≡ status_of self.now }
    {
        match self {
            Refusal::Words => Status::WordsRefused,
            Refusal::ModelTooLong => Status::ModelRefused,
            Refusal::Model(fault) => fault.status(),
            Refusal::InjectionsTooLong => Status::InjectionsRefused,
            Refusal::InjectionsLine { .. } => Status::InjectionsRefused,
            Refusal::JournalsTooLong => Status::JournalsRefused,
            Refusal::JournalsMalformed { .. } => Status::JournalsRefused,
            Refusal::JournalsUntied { .. } => Status::JournalsRefused,
            Refusal::Unlawful { .. } => Status::Unlawful,
            Refusal::ReadFault => Status::ReadFault,
            Refusal::Memory => Status::Memory,
        }
    }
}
