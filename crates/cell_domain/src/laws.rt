//! Why no lane stops for want of a make, and when one stops for want of a slot.
ghost use Rattle.std.specs.Prelude.{ℕ, ◌≡◌, ◌≢◌, ◌<◌, ◌*◌, Err, List};
ghost use Rattle.cell_lanes.specs.cell_calls.cell_law.Views.{AreDistinct, texts_of};
ghost use Rattle.cell_lanes.specs.cell_calls.cell_law.declared.view.View.{View};
ghost use Rattle.cell_lanes.specs.cell_calls.cell_protocol.declared.law.CellLaw.{CellLaw};
ghost use Rattle.cell_lanes.specs.declared.refusal.LaneStop.TheVariants as stopped;
ghost use Rattle.epoch_refs.specs.epoch_domain.Domains.{DomainState};
ghost use Rattle.epoch_refs.specs.epoch_domain.Seats.{SeatState};
ghost use Rattle.lane_work.specs.Sizes.{all_parts, slots_of_words, texts_in};
ghost use Rattle.lane_work.specs.Work.{IsWork};
ghost use Rattle.lane_work.specs.cdrc_text.Fold.{AreDistinct as AreAllWords};
ghost use Rattle.lane_work.specs.declared.work.Work.{Work};
ghost use Rattle.cell_domain.specs.Ending.{EndsLane};
ghost use Rattle.cell_domain.specs.Opened.{CanBegin, IsDomainFor};
ghost use Rattle.cell_domain.specs.declared.ending.LaneEnd.{LaneEnd};

/// No lane of a domain that was opened for its work stops for want of a make.
pub fn lanes_have_makes()
    ensures { (work : Work) (lanes slots i : ℕ) (d : DomainState CellLaw) (seat : SeatState View)
        (ending : LaneEnd) → IsDomainFor work lanes slots d → i < lanes → CanBegin d i seat
        → EndsLane d work lanes i seat ending → ending.end ≢ Err stopped.MakesSpent }
{}

/// Where a lane of such a domain stops since each slot was found taken, there are fewer slots than the records of all
/// pieces in all rounds have, if no two pieces share one.
pub fn full_domains_lack_slots()
    ensures { (work : Work) (lanes slots i : ℕ) (d : DomainState CellLaw) (seat : SeatState View)
        (ending : LaneEnd) → IsDomainFor work lanes slots d → i < lanes → CanBegin d i seat
        → EndsLane d work lanes i seat ending → ending.end ≡ Err stopped.Full
        → slots < work.rounds * all_parts work }
{}

/// Where the only lane of such a domain stops since each slot was found taken, there are fewer slots than the records
/// of the distinct words of all files have; provided the heads that it put into cells have different texts, as the law
/// of `cell_law` has it of each state.
pub fn one_lane_lacks_slots()
    ensures { (work : Work) (slots : ℕ) (d : DomainState CellLaw) (seat : SeatState View)
        (ending : LaneEnd) (words : List (List ℕ)) → IsWork work → IsDomainFor work 1 slots d
        → CanBegin d 0 seat → EndsLane d work 1 0 seat ending → ending.end ≡ Err stopped.Full
        → AreDistinct (texts_of ending.seat.view.client.bound)
        → AreAllWords (texts_in work) words → slots < slots_of_words words }
{}
