//! How a lane destroys what ended.
ghost use Rattle.std.specs.Prelude.{◌≡◌, ◌≤◌, ◌+◌};
ghost use Rattle.hand_queues.specs.deleter.Weighing.{Weighs};
ghost use Rattle.lane_files.specs.Ready.{IsReady, Owns};
ghost use Rattle.lane_files.specs.Scans.{scans_of};

use crate::Shared;
use control_word::{Domain, PayloadKind, Seat};
use hand_queues::{Deleter, collect, reap};
use words_protocol::{NodeKind, PairKind, RecordKind, WordsLaw};

/// The most objects that a lane destroys after one piece.
const MOST_REAPS: u32 = 4;

/// How many seats a domain has whose words one lane counts: seat 0's and the lane's.
const SEATS_OF_ONE_LANE: u32 = 2;

/// Collects, which is a whole scan, and then destroys what is dying, four objects at most. Where other lanes work too,
/// a collect follows each: a node that was popped holds the next one, so that this one can end only then, and what one
/// lane pops, another may have to destroy. A collect is at most a step for each announcement word and three for each
/// retired entry, and each object at most 21 steps and four collects.
pub fn tidy<F: Fn(&[u64; 16]) -> u64>(
    domain: &Domain<WordsLaw>,
    seat: &mut Seat<WordsLaw>,
    shared: &Shared,
    weigh: &Deleter<PairKind<NodeKind, RecordKind>, F>,
)
    requires ready { IsReady domain.now shared.now seat.old }
    requires weighs { Weighs ⟦<PairKind<NodeKind, RecordKind> as PayloadKind>⟧.fits
        ⟦<PairKind<NodeKind, RecordKind> as PayloadKind>⟧.weight F.Fn weigh.now }
    ensures client { seat.new.view.client ≡ seat.old.view.client }
    ensures owns { Owns seat.old.view.core.owned seat.old seat.new }
    ensures makes { seat.new.view.core.makes ≡ seat.old.view.core.makes }
    ensures scans { scans_of seat.old + 1 ≤ scans_of seat.new }
    ensures ready { IsReady domain.now shared.now seat.new }
{
    collect(domain, seat);
    for _turn in 0..MOST_REAPS {
        if !destroy_next(domain, seat, shared, weigh) {
            return;
        }
    }
}

/// Destroys what is dying next, and collects then where other lanes work too. False where nothing is dying.
fn destroy_next<F: Fn(&[u64; 16]) -> u64>(
    domain: &Domain<WordsLaw>,
    seat: &mut Seat<WordsLaw>,
    shared: &Shared,
    weigh: &Deleter<PairKind<NodeKind, RecordKind>, F>,
) -> bool
    requires ready { IsReady domain.now shared.now seat.old }
    requires weighs { Weighs ⟦<PairKind<NodeKind, RecordKind> as PayloadKind>⟧.fits
        ⟦<PairKind<NodeKind, RecordKind> as PayloadKind>⟧.weight F.Fn weigh.now }
    ensures client { seat.new.view.client ≡ seat.old.view.client }
    ensures owns { Owns seat.old.view.core.owned seat.old seat.new }
    ensures makes { seat.new.view.core.makes ≡ seat.old.view.core.makes }
    ensures scans { scans_of seat.old ≤ scans_of seat.new }
    ensures ready { IsReady domain.now shared.now seat.new }
{
    if reap(domain, seat, weigh).is_none() {
        return false;
    }
    if domain.shape().seats > SEATS_OF_ONE_LANE {
        collect(domain, seat);
    }
    true
}
