//! What lanes that have run tell.
ghost use Rattle.std.specs.Prelude.{ℕ, List};
ghost use Rattle.std.specs.List.{flat_map};
ghost use Rattle.domain_audit.specs.acquire_retire.Domains.{DomainState};
ghost use Rattle.domain_audit.specs.acquire_retire.Seats.{SeatState};
ghost use Rattle.words_rest.specs.words_law.Views.{View};
ghost use Rattle.lane_domain.specs.words_protocol.declared.law.WordsLaw.{WordsLaw};
ghost use Rattle.lane_domain.specs.lane_files.Ready.{IsReady};
ghost use Rattle.lane_domain.specs.lane_files.declared.shared.Shared.{Shared};
ghost use Rattle.lane_domain.specs.lane_files.lane_work.declared.lane.Lane.{Lane};
ghost use Rattle.lane_domain.specs.lane_files.lane_work.declared.work.Work.{Work};
ghost use Rattle.lane_domain.specs.lane_files.Keeping.{slots_of};
ghost use Rattle.lane_domain.specs.lane_files.Lanes.{RunsLane};
ghost use Rattle.lane_domain.specs.lane_files.Work.{kept_files};
ghost use Rattle.ticket_shares.specs.Tickets.{together};
ghost use Rattle.lane_reports.specs.declared.done.Done.{Done};
ghost use Rattle.lane_reports.specs.Deeds.{IsFresh, IsNew, LaneDeeds, LaneDid};
ghost use Rattle.lane_reports.specs.Gathering.{KeptAlike, TellsLanes, kept_by, shares_of};
ghost use Rattle.lane_reports.specs.Kept.{lives_in};
ghost use Rattle.words_rest.specs.Kept.{TellsFiles};

/// A lane that has run from a fresh seat and a new `Lane` tells by these alone what it did.
pub fn runs_tell_deeds()
    ensures { (work : Work) (d : DomainState WordsLaw) (on : Shared) (n : ℕ)
        (begun seat : SeatState View) (before after : Lane) → IsFresh n begun → IsNew before
        → RunsLane work begun seat before after → IsReady d on seat
        → LaneDid work d n seat after }
{}

/// Where a seat has the slots of all that lanes keep in the lives in which the lanes' seats had them, and its view
/// tells of each lane what that keeps, it tells the words of all files together, in the lives in which it has the
/// slots.
pub fn lanes_keep_files()
    ensures { (work : Work) (lanes : List LaneDeeds) (done : List Done) (seat : SeatState View)
        → TellsLanes work lanes done seat.view.client.1 → KeptAlike done seat
        → TellsFiles (lives_in seat) (kept_files work (together (shares_of lanes)))
        (slots_of (flat_map kept_by done)) seat.view.client.1 }
{}
