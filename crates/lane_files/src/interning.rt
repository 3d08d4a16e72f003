//! The record of a piece.
ghost use Rattle.std.specs.Prelude.{◌<◌, ◌≤◌, ◌+◌, [], true, IfErr, IfOk, length};
ghost use Rattle.std.specs.Int.{div_ceil};
ghost use Rattle.control_word.specs.plain_state.Lists.{times};
ghost use Rattle.weak_intern.specs.directory_calls.Directories.{CanCount};
ghost use Rattle.weak_intern.specs.directory_calls.Steps.{handle_by, with_found};
ghost use Rattle.weak_intern.specs.Interning.{interned_by};
ghost use Rattle.weak_intern.specs.Knowing.{KnowsRecord};
ghost use Rattle.words_protocol.specs.words_law.Views.{View};
ghost use Rattle.lane_files.specs.Passed.{Counts, UsesInterns};
ghost use Rattle.lane_files.specs.Pieces.{InternsFirst, IsWhyNotInterned};
ghost use Rattle.lane_files.specs.Ready.{IsReady, Owns};

use crate::shared::Shared;
use control_word::{Domain, PayloadKind, Seat, Strong};
use hand_queues::MakeError;
use std::sync::Wait;
use weak_intern::{intern, pairs_have_pieces};
use words_protocol::{NodeKind, PairKind, RecordKind, Right, WordsLaw};

/// A strong reference to the live record of a piece, which it makes where the piece has none. It is refused as an
/// intern is, and uses one intern where it isn't. It pushes and pops nothing. It may wait for other threads.
pub(crate) fn intern_piece<R: Wait>(
    rt: &R,
    domain: &Domain<WordsLaw>,
    seat: &mut Seat<WordsLaw>,
    shared: &Shared,
    piece: &[u8],
) -> Result<Strong, MakeError>
    requires ready { IsReady domain.now shared.now seat.old }
    requires quota { CanCount true seat.old.view.client.1 }
    requires piece { (1 ≤ length piece.now) × (length piece.now ≤ 4096) }
    ensures first { IfOk result (λ strong. InternsFirst domain.now piece.now strong.slot
        seat.old seat.new) }
    ensures knows { IfOk result (λ strong. KnowsRecord (λ (v : View). v.1) piece.now strong.slot
        seat.new) }
    ensures owned { IfOk result (λ strong. 0 < times strong.slot seat.new.view.core.owned) }
    ensures why { IfErr result (λ why. IsWhyNotInterned
        ⟦<PairKind<NodeKind, RecordKind> as PayloadKind>⟧.fits domain.now piece.now why
        seat.old seat.new) }
    ensures counts { Counts [] [] seat.old.view.client seat.new.view.client }
    ensures makes { seat.new.view.core.makes
        ≤ seat.old.view.core.makes + div_ceil (length piece.now) 120 }
    ensures interns { UsesInterns (interned_by result) seat.old.view.client
        seat.new.view.client }
    ensures owns { Owns (with_found (handle_by result) seat.old.view.core.owned)
        seat.old seat.new }
    ensures ready { IsReady domain.now shared.now seat.new }
{
    pairs_have_pieces::<NodeKind>();
    intern::<R, Right, WordsLaw>(rt, domain, seat, &shared.directory, piece)
}
