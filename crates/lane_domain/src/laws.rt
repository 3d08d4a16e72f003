//! What is so of lanes in a domain that was opened for their work: their seats can begin, and which makes are refused.
ghost use Rattle.std.specs.Prelude.{ℕ, ◌≤◌, All, ◌≡◌, ◌≢◌, ◌<◌, ◌+◌, ◌*◌, Some};
ghost use Rattle.lane_files.specs.plain_state.Limits.{most_slots};
ghost use Rattle.lane_files.specs.acquire_retire.Domains.{DomainState};
ghost use Rattle.lane_files.specs.acquire_retire.Seats.{SeatState};
ghost use Rattle.lane_files.specs.queue_law.declared.view.Form.{Form};
ghost use Rattle.lane_files.specs.words_law.Views.{View};
ghost use Rattle.lane_files.specs.words_protocol.declared.law.WordsLaw.{WordsLaw};
ghost use Rattle.lane_files.specs.declared.shared.Shared.{Shared};
ghost use Rattle.lane_files.specs.Ready.{IsReady};
ghost use Rattle.lane_files.specs.lane_work.declared.work.Work.{Work};
ghost use Rattle.lane_domain.specs.Opened.{IsDomainFor, fresh_lanes, fresh_seat};
ghost use Rattle.lane_domain.specs.Sizes.{IsWithinLimits, all_parts, all_pieces, most_lanes};
ghost use Rattle.lane_domain.specs.Beginning.{CanBegin};
ghost use Rattle.lane_files.specs.linked_queue.Leaving.{Leaves};
ghost use Rattle.lane_files.specs.slot_store.declared.making.MakeError.TheVariants as unmade;
ghost use Rattle.lane_files.specs.Whys.{of_queue};
ghost use Rattle.lane_files.specs.lane_work.declared.lane.Lane.{Lane};
ghost use Rattle.lane_files.specs.declared.refusal.LaneStop.{LaneStop};
ghost use Rattle.lane_files.specs.Lanes.{StopsLane};
ghost use Rattle.lane_files.specs.Makes.{HasItsMakes, cause_of};

use lane_files::{NodeKind, PairKind, PayloadKind, RecordKind};

/// The seats of the lanes as `open_lanes` answers them can begin, on what it answers with them.
pub fn opened_seats_can_begin()
    ensures { (work : Work) (lanes slots : ℕ) (form : Form) (d : DomainState WordsLaw)
        (on : Shared) (root : SeatState View) → IsWithinLimits work → lanes ≤ most_lanes
        → 1 ≤ slots → slots ≤ most_slots → IsDomainFor work lanes slots form d → IsReady d on root
        → All (CanBegin d on) (fresh_lanes d lanes) }
{}

/// A seat of the domain as it was opened, which attached since then and made nothing, has its makes.
pub fn attached_seats_have_makes()
    ensures { (d : DomainState WordsLaw) (n : ℕ) (begun : SeatState View)
        → Leaves (fresh_seat d n).view.core.owned (of_queue (fresh_seat d n)) (of_queue begun)
        → begun.view.core.makes ≡ (fresh_seat d n).view.core.makes → HasItsMakes d begun }
{}

/// No lane that began with its makes stops for want of a make.
pub fn lanes_have_makes()
    ensures { (work : Work) (lanes slots : ℕ) (form : Form) (d : DomainState WordsLaw)
        (stop : LaneStop) (begun seat : SeatState View) (before after : Lane)
        → IsDomainFor work lanes slots form d → HasItsMakes d begun
        → StopsLane ⟦<PairKind<NodeKind, RecordKind> as PayloadKind>⟧.fits d work stop begun seat
        before after → cause_of stop ≢ Some unmade.MakesSpent }
{}

/// Where a lane stops since each slot was found taken, there are fewer slots than makes: those of all tickets, and two.
pub fn full_domains_lack_slots()
    ensures { (work : Work) (lanes slots : ℕ) (form : Form) (d : DomainState WordsLaw)
        (stop : LaneStop) (begun seat : SeatState View) (before after : Lane)
        → IsDomainFor work lanes slots form d
        → StopsLane ⟦<PairKind<NodeKind, RecordKind> as PayloadKind>⟧.fits d work stop begun seat
        before after → cause_of stop ≡ Some unmade.Full
        → slots < work.rounds * (all_pieces work + all_parts work) + 2 }
{}
