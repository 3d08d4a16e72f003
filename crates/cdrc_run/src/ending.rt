//! The end of a run with an output, and of one without.
ghost use Rattle.std.specs.Prelude.{◌≡◌};
ghost use Rattle.cdrc_run.specs.Ends.{IsRefusedEnd, IsWritingEnd, ShowsSeat, kept_evidence};

use crate::outcome::{End, Output, RefusedSeat, Why};
use crate::output::{Unwritten, write_all};
use std::alloc::Global;
use words_work::{Refused, Sink};

/// The end of a run that has no output.
pub(crate) fn refused_end(alloc: Global, refusal: Refused<RefusedSeat>) -> End
    ensures { IsRefusedEnd refusal result }
{
    match refusal {
        Refused::Read => end_without(3),
        Refused::TooLarge => end_without(5),
        Refused::Full(seat) => End {
            status: 6,
            why: seat_evidence(alloc, seat),
        },
        Refused::Spent(seat) => End {
            status: 7,
            why: seat_evidence(alloc, seat),
        },
        Refused::OutOfMemory => end_without(9),
    }
}

/// The evidence of a refusal with this seat.
fn seat_evidence(alloc: Global, seat: RefusedSeat) -> Why
    ensures { ShowsSeat seat result }
{
    match seat {
        RefusedSeat::Words(seat) => Why::Words(seat, Vec::new(alloc)),
        RefusedSeat::Epoch(seat) => Why::Epoch(seat),
    }
}

/// The end with this status, and no evidence.
pub(crate) fn end_without(status: u8) -> End
    ensures status { result.status ≡ status }
    ensures why { result.why ≡ Why.Nothing }
{
    End {
        status,
        why: Why::Nothing,
    }
}

/// The evidence of a run whose sink failed.
fn kept_evidence(why: Why) -> Why
    ensures { result ≡ kept_evidence why }
{
    match why {
        Why::Nothing => Why::Nothing,
        Why::Words(root, tallies) => Why::Words(root, tallies),
        Why::Epoch(root) => Why::Epoch(root),
        Why::Script(_) => Why::Nothing,
    }
}

/// The end of a run with this output, which is offered to the sink.
pub(crate) fn written_end<K: Sink>(output: Output, sink: &mut K) -> End
    ensures { IsWritingEnd output (record {
      before = K.taken sink.old;
      now = K.taken sink.new;
      faults = K.faults sink.old;
      faults_now = K.faults sink.new;
    }) result }
{
    match write_all(sink, &output.text) {
        Ok(()) => End {
            status: if output.refused { 8 } else { 0 },
            why: output.why,
        },
        Err(Unwritten::Failed) => End {
            status: 4,
            why: kept_evidence(output.why),
        },
        Err(Unwritten::OutOfMemory) => end_without(9),
    }
}
