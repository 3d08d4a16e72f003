ghost use Rattle.std.specs.Prelude.{◌≡◌, ℕ, ◌<◌, ◌≤◌, ◌++◌, length, List, [], IfOk, Some, min, take};
ghost use Rattle.lane_gate.specs.Causes.{counting, one_more};
ghost use Rattle.lane_gate.specs.Failing.{is_failing};
ghost use Rattle.lane_gate.specs.MemSink.{FailingSink};
ghost use Rattle.lane_gate.specs.Writes.{count_taken, is_failed, CountsFront};

use crate::sink::{Sink, SinkFault};
use std::alloc::Global;
use std::marker::Model;

/// A sink in memory that takes a few bytes a call, and of which chosen calls fail.
#[derive(Drop)]
pub struct MemSink {
    taken: Vec<u8>,
    most: u64,
    failing: Vec<u64>,
    calls: u64,
    faults: u64,
}

impl Model for MemSink {
    ghost Value = { FailingSink };

    ghost view = { λ sink. record {
      taken = sink.taken.items;
      most = sink.most;
      failing = sink.failing.items;
      calls = sink.calls;
      faults = sink.faults;
    } };

    ghost invariant = { λ sink. 0 < sink.most };
}

impl MemSink {
    /// Takes at most `most` bytes a call. Call number k fails where k stands in `failing`, counted
    /// from 0.
    pub fn new(alloc: Global, most: u64, failing: Vec<u64>) -> MemSink
        requires { 0 < most }
        ensures { result ≡ record {
          taken = [];
          most = most;
          failing = failing.items;
          calls = 0;
          faults = 0;
        } }
    {
        MemSink {
            taken: Vec::new(alloc),
            most,
            failing,
            calls: 0,
            faults: 0,
        }
    }

    /// All bytes that it took.
    pub fn taken(&self) -> &[u8]
        ensures { result.now ≡ self.now.taken }
    {
        self.taken.as_slice()
    }
}

impl Sink for MemSink {
    ghost taken = { λ sink. Some sink.taken };

    ghost faults = { λ sink. sink.faults };

    /// Fails exactly where its number stands among those that are to fail; every other call takes
    /// the smaller of `most` and the piece's length, unless there is no memory.
    fn write(&mut self, piece: &[u8]) -> Result<u64, SinkFault>
        requires { 0 < length piece.now }
        ensures exactly_failed { is_failed result ≡ is_failing self.old.failing self.old.calls }
        ensures exactly_counted { IfOk result (λ n. n ≡ min self.old.most (length piece.now)) }
        ensures counts { self.new ≡ record self.old {
          taken = self.old.taken ++ take (count_taken result) piece.now;
          calls = one_more self.old.calls;
          faults = counting (is_failed result) self.old.faults;
        } }
        ensures counted { CountsFront piece.now result }
        ensures faults_last { self.old.faults ≤ self.new.faults }
    {
        let fails = self.failing.contains(&self.calls);
        self.calls = self.calls.saturating_add(1);
        if fails {
            self.faults = self.faults.saturating_add(1);
            return Err(SinkFault::Failed);
        }
        let count = self.most.min(piece.len() as u64);
        self.taken.extend_from_slice(&piece[..count as usize])?;
        Ok(count)
    }
}
