ghost use Rattle.std.specs.Prelude.{◌≡◌, ℕ, ◌<◌, ◌++◌, length, List, [], IfOk, OnErr, Some, false, take};
ghost use Rattle.lane_gate.specs.Writes.{count_taken, is_failed};

use crate::sink::{Sink, SinkFault};
use std::alloc::Global;
use std::marker::Model;

/// A sink in memory of which no call fails.
#[derive(Drop)]
pub struct HonestSink {
    taken: Vec<u8>,
}

impl Model for HonestSink {
    ghost Value = { List ℕ };

    ghost view = { λ sink. sink.taken.items };
}

impl HonestSink {
    /// Has taken nothing.
    pub fn new(alloc: Global) -> HonestSink
        ensures { result ≡ [] }
    {
        HonestSink {
            taken: Vec::new(alloc),
        }
    }

    /// All bytes that it took.
    pub fn taken(&self) -> &[u8]
        ensures { result.now ≡ self.now }
    {
        self.taken.as_slice()
    }
}

impl Sink for HonestSink {
    ghost taken = { λ sink. Some sink };

    ghost faults = { λ _. 0 };

    /// Takes the whole piece, unless there is no memory. Never Failed.
    fn write(&mut self, piece: &[u8]) -> Result<u64, SinkFault>
        requires { 0 < length piece.now }
        ensures never_failed { is_failed result ≡ false }
        ensures exactly_counted { IfOk result (λ n. n ≡ length piece.now) }
        ensures took { self.new ≡ self.old ++ take (count_taken result) piece.now }
    {
        self.taken.extend_from_slice(piece)?;
        Ok(piece.len() as u64)
    }
}
