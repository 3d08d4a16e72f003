//! What calls on a map leave of a seat, one after another.
ghost use Rattle.std.specs.Prelude.{◌≡◌, ℕ, [], false};
ghost use Rattle.version_making.specs.map_law.Views.{first_view};
ghost use Rattle.version_making.specs.map_law.declared.view.View.{View};
ghost use Rattle.version_making.specs.map_protocol.declared.law.MapLaw.{MapLaw as Maps};
ghost use Rattle.version_making.specs.slot_store.core_events.Steps.{HasRoom};
ghost use Rattle.version_making.specs.slot_store.core_events.Views.{no_notes};
ghost use Rattle.version_making.specs.slot_store.acquire_retire.Domains.{DomainState};
ghost use Rattle.version_making.specs.slot_store.acquire_retire.Seats.{SeatState};
ghost use Rattle.version_making.specs.slot_store.control_word.Resting.{IsAtRest};
ghost use Rattle.version_making.specs.Keeping.{IsReadyFor};
ghost use Rattle.version_reading.specs.Reading.{Reads};
ghost use Rattle.version_map.specs.Maps.{CanRead};
ghost use Rattle.version_map.specs.Playing.{Plays};
ghost use Rattle.version_map.specs.Retrying.{HasTried, LeavesSome};
ghost use Rattle.version_map.specs.Updating.{Leaves};

/// What the calls `try_update` and `update` leave of a seat but for its entries, and that several of them in turn leave
/// the same. The call does nothing.
pub fn updates_leave_the_rest()
    ensures one { (d : DomainState Maps) (c : ℕ) (old new : SeatState View) → Leaves d c old new
        → LeavesSome old new }
    ensures last { (d : DomainState Maps) (c : ℕ) (old mid new : SeatState View)
        → HasTried d c old mid → Leaves d c mid new → LeavesSome old new }
    ensures more { (old mid new : SeatState View) → LeavesSome old mid → LeavesSome mid new
        → LeavesSome old new }
{}

/// A seat that owns nothing plays once it has joined, and may read then; after a read and after an update it plays
/// still. So it may go from call to call. The call does nothing.
pub fn a_seat_plays_on()
    ensures begins { (d : DomainState Maps) (seat : SeatState View) (n : ℕ) → IsAtRest d seat
        → HasRoom seat.view.core → seat.view.core.notes ≡ no_notes
        → seat.view.core.owned ≡ [] → seat.view.core.weaks ≡ []
        → seat.view.client ≡ first_view n → Plays d seat }
    ensures reads { (d : DomainState Maps) (seat : SeatState View) → Plays d seat
        → CanRead seat }
    ensures read { (d : DomainState Maps) (old new : SeatState View) → Plays d old
        → Reads old.view.core old new → IsAtRest d new → Plays d new }
    ensures updated { (d : DomainState Maps) (old new : SeatState View) → Plays d old
        → LeavesSome old new → new.view.client.cleared ≡ false → IsReadyFor d new
        → Plays d new }
{}
