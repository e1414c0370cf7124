//! How a call ended.
ghost use Rattle.std.specs.Prelude.{◌≡◌};
ghost use Rattle.room_run.specs.Statuses.{number_of};

/// How a call of the program ended. The program's exit status is its number.
#[derive(Clone, Copy, Debug, PartialEq, Eq)]
pub enum Status {
    Done,
    WordsRefused,
    ModelRefused,
    InjectionsRefused,
    Spent,
    Memory,
    ReadFault,
    WriteFault,
    /// The journals aren't those of a run that has ended.
    Unlawful,
    JournalsRefused,
}

impl Status {
    /// The exit status.
    pub fn number(self) -> u8
        ensures { result ≡ number_of self }
    {
        match self {
            Status::Done => 0,
            Status::WordsRefused => 1,
            Status::ModelRefused => 2,
            Status::InjectionsRefused => 3,
            Status::Spent => 4,
            Status::Memory => 5,
            Status::ReadFault => 6,
            Status::WriteFault => 7,
            Status::Unlawful => 8,
            Status::JournalsRefused => 9,
        }
    }
}
