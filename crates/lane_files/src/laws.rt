//! Which makes are refused to lanes, and what a lane has done until then.
ghost use Rattle.std.specs.Prelude.{◌≡◌, ◌≢◌, ◌<◌, [], Some};
ghost use Rattle.control_word.specs.plain_state.declared.slot.SlotId.{SlotId};
ghost use Rattle.control_word.specs.plain_state.Lists.{times};
ghost use Rattle.control_word.specs.acquire_retire.Domains.{DomainState};
ghost use Rattle.control_word.specs.acquire_retire.Seats.{SeatState};
ghost use Rattle.hand_queues.specs.claim_law.Claims.{makes_given};
ghost use Rattle.hand_queues.specs.slot_store.declared.making.MakeError.TheVariants as unmade;
ghost use Rattle.words_protocol.specs.words_law.Views.{View};
ghost use Rattle.words_protocol.specs.declared.law.WordsLaw.{WordsLaw};
ghost use Rattle.lane_files.specs.lane_work.declared.lane.Lane.{Lane};
ghost use Rattle.lane_files.specs.declared.refusal.LaneStop.{LaneStop};
ghost use Rattle.lane_files.specs.lane_work.declared.work.Work.{Work};
ghost use Rattle.lane_files.specs.Lanes.{StopsLane};
ghost use Rattle.lane_files.specs.Makes.{GrantsMakes, HasItsMakes, cause_of};
ghost use Rattle.lane_files.specs.Missing.{HasMissed};
ghost use Rattle.lane_files.specs.Owning.{OwnsNoNode};
ghost use Rattle.lane_files.specs.Scans.{HasScanned};

use control_word::PayloadKind;
use words_protocol::{NodeKind, PairKind, RecordKind};

/// Where each ticket grants the makes for its file, no lane stops for want of a make.
pub fn lanes_have_makes()
    ensures { (d : DomainState WordsLaw) (work : Work) (stop : LaneStop)
        (old new : SeatState View) (before after : Lane) → GrantsMakes d.terms.grants work
        → HasItsMakes d old
        → StopsLane ⟦<PairKind<NodeKind, RecordKind> as PayloadKind>⟧.fits d work stop old new
        before after → cause_of stop ≢ Some unmade.MakesSpent }
{}

/// Where a lane stops since each slot was found taken, the domain was given more makes than it has slots.
pub fn full_domains_lack_slots()
    ensures { (d : DomainState WordsLaw) (work : Work) (stop : LaneStop)
        (old new : SeatState View) (before after : Lane)
        → StopsLane ⟦<PairKind<NodeKind, RecordKind> as PayloadKind>⟧.fits d work stop old new
        before after → cause_of stop ≡ Some unmade.Full → d.shape.slots < makes_given d.terms }
{}

/// Where a lane stops since each slot was found taken, it is its own seat that found that: the seat's trail has the
/// search, in which each slot of the domain was shown taken.
pub fn full_lanes_have_missed()
    ensures { (d : DomainState WordsLaw) (work : Work) (stop : LaneStop)
        (old new : SeatState View) (before after : Lane)
        → StopsLane ⟦<PairKind<NodeKind, RecordKind> as PayloadKind>⟧.fits d work stop old new
        before after → cause_of stop ≡ Some unmade.Full → HasMissed d.shape new }
{}

/// Where a lane that had pushed nothing stops since each slot was found taken, it has made at least as many whole scans
/// as it pushed items.
pub fn full_lanes_have_scanned()
    ensures { (d : DomainState WordsLaw) (work : Work) (stop : LaneStop)
        (old new : SeatState View) (before after : Lane) → old.view.client.0.pushed ≡ []
        → StopsLane ⟦<PairKind<NodeKind, RecordKind> as PayloadKind>⟧.fits d work stop old new
        before after → cause_of stop ≡ Some unmade.Full → HasScanned new }
{}

/// Where a lane that owned nothing stops since each slot was found taken, it owns no node of the queue.
pub fn full_lanes_own_no_node()
    ensures { (d : DomainState WordsLaw) (work : Work) (stop : LaneStop)
        (old new : SeatState View) (before after : Lane)
        → ((s : SlotId) → times s old.view.core.owned ≡ 0) → old.view.core.weaks ≡ []
        → StopsLane ⟦<PairKind<NodeKind, RecordKind> as PayloadKind>⟧.fits d work stop old new
        before after → cause_of stop ≡ Some unmade.Full → OwnsNoNode new }
{}
