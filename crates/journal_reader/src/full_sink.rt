//! A sink with room for as many bytes as a text has.
ghost use Rattle.std.specs.Prelude.{◌≡◌, [], IfOk};

use room_outside::{Failed, MemSink, Sink};
use std::alloc::{AllocError, Global};
use std::marker::Model;

/// A sink in memory that refuses bytes only where it is full.
///
/// What it tells as written begins with its room. A call that writes to any sink only adds to what
/// is told, so the room is still known after it.
#[derive(Drop)]
pub(crate) struct FullSink {
    sink: MemSink,
}

impl Model for FullSink {
    ghost use Rattle.room_outside.specs.MemSink.{SinkState};
    ghost use Rattle.journal_reader.specs.FullSink.{FailsIfFull};

    ghost Value = { SinkState };

    ghost view = { λ s. s.sink };

    ghost invariant = { λ s. FailsIfFull s.sink };
}

impl FullSink {
    /// An empty sink with room for so many bytes.
    pub(crate) fn new(alloc: Global, room: usize) -> Result<FullSink, AllocError>
        ensures { IfOk result (λ s. s ≡ record {
          bytes = [];
          room = room;
          calls = record { made = 0; fail = [] };
          faults = 0;
        }) }
    {
        let sink = MemSink::new(alloc, room, Vec::new(alloc))?;
        Ok(FullSink { sink })
    }

    /// The bytes that were taken so far.
    pub(crate) fn bytes(&self) -> &[u8]
        ensures { result.now ≡ self.now.bytes }
    {
        self.sink.bytes()
    }
}

impl Sink for FullSink {
    ghost use Rattle.journal_reader.specs.FullSink.{written_of};

    ghost written = { written_of };

    #[tactic(auto, using(crate::proofs::FullSinkSteps::full_sink_steps))]
    fn write(&mut self, piece: &[u8]) -> Result<usize, Failed> {
        self.sink.write(piece)
    }
}
