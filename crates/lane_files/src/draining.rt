//! The items that are left are popped, and their words counted.
ghost use Rattle.std.specs.Prelude.{◌≡◌, ◌^◌, ◌+◌, ◌≤◌, ◌<◌, [], IfErr, IfOk};
ghost use Rattle.words_protocol.specs.cdrc_text.Tally.{total_of};
ghost use Rattle.lane_files.specs.Passed.{Takes, UsesInterns};
ghost use Rattle.lane_files.specs.Draining.{IsWhyNotDrained, StopsAtNone};
ghost use Rattle.lane_files.specs.Ready.{IsReady, Owns};

use crate::refusal::LaneError;
use crate::shared::Shared;
use crate::taking::take_one;
use control_word::{Domain, PayloadKind, Seat};
use std::sync::Wait;
use words_protocol::{NodeKind, PairKind, RecordKind, Tally, WordsLaw};

/// Pops items until it finds none linked, `most` at most, and counts their words. The answer is how many they were. A
/// refusal is that of one `take_one`, after some that counted. It makes one `take_one` more than the answer, or `most`.
/// No make. It may wait for other threads.
pub fn drain<R: Wait>(
    rt: &R,
    domain: &Domain<WordsLaw>,
    seat: &mut Seat<WordsLaw>,
    shared: &Shared,
    most: u64,
    tally: &mut Tally,
) -> Result<u64, LaneError>
    requires ready { IsReady domain.now shared.now seat.old }
    requires few { total_of tally.old + most ≤ 2 ^ 63 }
    ensures takes { IfOk result (λ taken. Takes [] taken seat.old.view.client
        seat.new.view.client tally.old tally.new) }
    ensures most { IfOk result (λ taken. taken ≤ most) }
    ensures none { IfOk result (λ taken. taken < most
        → StopsAtNone ⟦<PairKind<NodeKind, RecordKind> as PayloadKind>⟧.fits domain.now
        seat.old seat.new) }
    ensures why { IfErr result (λ error. IsWhyNotDrained most error seat.old seat.new
        tally.old tally.new) }
    ensures makes { seat.new.view.core.makes ≡ seat.old.view.core.makes }
    ensures interns { UsesInterns 0 seat.old.view.client seat.new.view.client }
    ensures owns { Owns seat.old.view.core.owned seat.old seat.new }
    ensures ready { IsReady domain.now shared.now seat.new }
{
    let mut room = [0; 4096];
    for taken in 0..most {
        if !take_one(rt, domain, seat, shared, tally, &mut room)? {
            return Ok(taken);
        }
    }
    Ok(most)
}
