//! What a lane does for one piece of its text.
ghost use Rattle.std.specs.Prelude.{◌≡◌, ◌^◌, ◌<◌, ◌≤◌, ◌+◌, [], ◌∷◌, Bool, true, IfErr, IfOk, OnOk, cond, length};
ghost use Rattle.std.specs.Int.{div_ceil};
ghost use Rattle.control_word.specs.plain_state.Lists.{times};
ghost use Rattle.words_protocol.specs.cdrc_text.Tally.{total_of};
ghost use Rattle.weak_intern.specs.directory_calls.Directories.{CanCount};
ghost use Rattle.weak_intern.specs.directory_calls.Steps.{handle_by, with_found};
ghost use Rattle.words_protocol.specs.directory_law.Bytes.{text_bytes};
ghost use Rattle.words_protocol.specs.directory_law.Payloads.{Text};
ghost use Rattle.weak_intern.specs.Knowing.{Knows, KnowsRecord};
ghost use Rattle.words_protocol.specs.words_law.Views.{View};
ghost use Rattle.lane_files.specs.Passed.{Takes, UsesInterns};
ghost use Rattle.lane_files.specs.PieceMakes.{LacksMake, cause_in};
ghost use Rattle.lane_files.specs.Pieces.{CountsPiece, IsWhyNotCounted, IsWhyNotPassed, PassesOn, used_by};
ghost use Rattle.lane_files.specs.Ready.{IsReady, Owns};

use crate::copying::offer_copy;
use crate::interning::intern_piece;
use crate::refusal::PieceError;
use crate::shared::Shared;
use crate::taking::take_one;
use control_word::{Domain, PayloadKind, Seat, Strong, drop_strong};
use std::sync::Wait;
use words_protocol::{NodeKind, PairKind, RecordKind, Tally, WordsLaw};

/// Counts a piece of 1 to 4,096 bytes beside others: it interns the piece, pushes one reference to its record, and pops
/// an item, if one is linked, whose word, read into `room`, the tally counts once more. The answer is a reference to
/// the record, which lives on with it. It uses one intern.
///
/// `Interning` comes with the cause of an intern, and then no intern is used and nothing pushed. `Offering` comes with
/// the cause of `offer_copy`, and nothing is pushed then. `Taking` comes with the cause of `take_one`, and the piece
/// was pushed then. After each the tally is as it was, and the seat owns what it owned. One make for each 120 bytes
/// and one more, at most; the last of these isn't used where a make is refused. Where that is `MakesSpent` no make is
/// left, and where it is `Full` the domain was given more makes than it has slots. Its steps are those of an intern,
/// an `offer_copy` and a `take_one`. It may wait for other threads.
pub fn count_piece<R: Wait>(
    rt: &R,
    domain: &Domain<WordsLaw>,
    seat: &mut Seat<WordsLaw>,
    shared: &Shared,
    piece: &[u8],
    tally: &mut Tally,
    room: &mut [u8; 4096],
) -> Result<Strong, PieceError>
    requires ready { IsReady domain.now shared.now seat.old }
    requires quota { CanCount true seat.old.view.client.1 }
    requires piece { (1 ≤ length piece.now) × (length piece.now ≤ 4096) }
    requires few { total_of tally.old < 2 ^ 63 }
    ensures counts { OnOk result ((one : Bool) × Takes (piece.now ∷ []) (cond one 1 0)
        seat.old.view.client seat.new.view.client tally.old tally.new) }
    ensures steps { IfOk result (λ strong. CountsPiece
        ⟦<PairKind<NodeKind, RecordKind> as PayloadKind>⟧.fits domain.now piece.now strong.slot
        seat.old seat.new tally.old tally.new) }
    ensures knows { IfOk result (λ strong. KnowsRecord (λ (v : View). v.1) piece.now strong.slot
        seat.new) }
    ensures owned { IfOk result (λ strong. 0 < times strong.slot seat.new.view.core.owned) }
    ensures why { IfErr result (λ error. IsWhyNotCounted
        ⟦<PairKind<NodeKind, RecordKind> as PayloadKind>⟧.fits domain.now piece.now error
        seat.old seat.new tally.old tally.new) }
    ensures makes { seat.new.view.core.makes
        ≤ seat.old.view.core.makes + div_ceil (length piece.now) 120 + 1 }
    ensures lacks { IfErr result (λ error. LacksMake domain.now (div_ceil (length piece.now) 120)
        (cause_in error) seat.old.view.core seat.new.view.core) }
    ensures interns { UsesInterns (used_by result) seat.old.view.client seat.new.view.client }
    ensures owns { Owns (with_found (handle_by result) seat.old.view.core.owned)
        seat.old seat.new }
    ensures ready { IsReady domain.now shared.now seat.new }
{
    let handle = match intern_piece(rt, domain, seat, shared, piece) {
        Ok(handle) => handle,
        Err(why) => return Err(PieceError::Interning(why)),
    };
    match pass_on(rt, domain, seat, shared, &handle, tally, room) {
        Ok(()) => Ok(handle),
        Err(error) => {
            drop_strong(domain, seat, handle);
            Err(error)
        }
    }
}

/// Pushes one reference more to a record whose text the seat knows. Then it pops an item, if one is linked, and counts
/// its word.
fn pass_on<R: Wait>(
    rt: &R,
    domain: &Domain<WordsLaw>,
    seat: &mut Seat<WordsLaw>,
    shared: &Shared,
    handle: &Strong,
    tally: &mut Tally,
    room: &mut [u8; 4096],
) -> Result<(), PieceError>
    requires ready { IsReady domain.now shared.now seat.old }
    requires owned { 0 < times handle.now.slot seat.old.view.core.owned }
    requires known { (text : Text) × Knows (λ (v : View). v.1) handle.now.slot text seat.old }
    requires few { total_of tally.old < 2 ^ 63 }
    ensures passes { OnOk result ((text : Text)
        → Knows (λ (v : View). v.1) handle.now.slot text seat.old
        → PassesOn ⟦<PairKind<NodeKind, RecordKind> as PayloadKind>⟧.fits domain.now
        (text_bytes text) seat.old seat.new tally.old tally.new) }
    ensures why { IfErr result (λ error. (text : Text)
        → Knows (λ (v : View). v.1) handle.now.slot text seat.old
        → IsWhyNotPassed ⟦<PairKind<NodeKind, RecordKind> as PayloadKind>⟧.fits domain.now
        (text_bytes text) handle.now.slot error seat.old seat.new tally.old tally.new) }
    ensures makes { seat.new.view.core.makes ≤ seat.old.view.core.makes + 1 }
    ensures lacks { IfErr result (λ error. LacksMake domain.now 0 (cause_in error)
        seat.old.view.core seat.new.view.core) }
    ensures interns { UsesInterns 0 seat.old.view.client seat.new.view.client }
    ensures owns { Owns seat.old.view.core.owned seat.old seat.new }
    ensures ready { IsReady domain.now shared.now seat.new }
{
    if let Err(why) = offer_copy(rt, domain, seat, shared, handle) {
        return Err(PieceError::Offering(why));
    }
    match take_one(rt, domain, seat, shared, tally, room) {
        Ok(_one) => Ok(()),
        Err(why) => Err(PieceError::Taking(why)),
    }
}
