//! A sink in memory.
ghost use Rattle.std.specs.Prelude.{◌≡◌, ◌<◌, ◌≤◌, [], length, take, Ok, IfOk, OnOk, OnErr, true, false};
ghost use Rattle.room_outside.specs.Faults.{Rose};
ghost use Rattle.room_outside.specs.Written.{Appends};

use crate::calls::Calls;
use crate::{Failed, Sink};
use std::alloc::{AllocError, Global};
use std::marker::Model;

/// A sink that keeps its bytes. It has room for so many bytes in all, which it takes when it is
/// made, and some of its calls can be made to fail.
#[derive(Drop, Debug)]
pub struct MemSink {
    bytes: Vec<u8>,
    room: usize,
    calls: Calls,
    faults: u64,
}

impl Model for MemSink {
    ghost use Rattle.std.specs.Prelude.{◌≤◌, vec_len, vec_capacity};
    ghost use Rattle.room_outside.specs.MemSink.{SinkState};

    ghost Value = { SinkState };

    ghost view = { λ s. record { bytes = s.bytes.items; room = s.room; calls = s.calls; faults = s.faults } };

    ghost invariant = { λ s. (vec_len s.bytes ≤ s.room) × (s.room ≤ vec_capacity s.bytes) };
}

impl MemSink {
    /// An empty sink with room for `room` bytes. `fail` holds the numbers, from 1, of the calls
    /// that fail.
    pub fn new(alloc: Global, room: usize, fail: Vec<u64>) -> Result<MemSink, AllocError>
        ensures { IfOk result (λ s. s ≡ record { bytes = []; room = room; calls = record { made = 0; fail = fail.items }; faults = 0 }) }
    {
        let bytes = Vec::with_capacity(alloc, room)?;
        Ok(MemSink {
            bytes,
            room,
            calls: Calls::new(fail),
            faults: 0,
        })
    }

    /// The bytes that were taken so far.
    pub fn bytes(&self) -> &[u8]
        ensures { result.now ≡ self.now.bytes }
    {
        self.bytes.as_slice()
    }

    /// How many writes have failed.
    pub fn faults(&self) -> u64
        ensures { result ≡ self.now.faults }
    {
        self.faults
    }
}

impl Sink for MemSink {
    ghost use Rattle.room_outside.specs.MemSink.{written_of, refuses, that_fit, after_write};

    ghost written = { written_of };

    /// Takes as many bytes as there is room for. It takes no memory. A call that is made to fail
    /// takes none, nor does a piece that has bytes where there is room for none: both fail.
    fn write(&mut self, piece: &[u8]) -> Result<usize, Failed>
        ensures within { IfOk result (λ n. n ≤ length piece.now) }
        ensures taken { IfOk result (λ n. Appends (written_of self.old) (written_of self.new) (take n piece.now)) }
        ensures failed { OnErr result (Appends (written_of self.old) (written_of self.new) []) }
        ensures fault { OnErr result (Rose self.old.faults self.new.faults) }
        ensures none { result ≡ Ok 0 → 0 < length piece.now → Rose self.old.faults self.new.faults }
        ensures answer { IfOk result (λ n. n ≡ that_fit self.old piece.now) }
        ensures state { self.new ≡ after_write self.old piece.now }
        ensures refused { OnErr result (refuses self.old piece.now ≡ true) }
        ensures accepted { OnOk result (refuses self.old piece.now ≡ false) }
    {
        let fails = self.calls.next_fails();
        let n = piece.len().min(self.room - self.bytes.len());
        if fails || (n == 0 && !piece.is_empty()) {
            self.faults = self.faults.saturating_add(1);
            return Err(Failed);
        }
        // The room was taken when the sink was made.
        self.bytes.extend_from_slice(&piece[..n]).unwrap();
        Ok(n)
    }
}
