//! What a lane does for a file.
ghost use Rattle.std.specs.Prelude.{◌≡◌, ◌^◌, ◌<◌, ◌≤◌, ◌+◌, IfErr, OnOk, length, true};
ghost use Rattle.words_protocol.specs.cdrc_text.Tally.{total_of};
ghost use Rattle.hand_queues.specs.deleter.Weighing.{Weighs};
ghost use Rattle.weak_intern.specs.directory_calls.Directories.{CanCount};
ghost use Rattle.control_word.specs.plain_state.declared.slot.SlotId.{SlotId};
ghost use Rattle.control_word.specs.plain_state.Lists.{times};
ghost use Rattle.words_protocol.specs.cdrc_text.Text.{slots_of_word};
ghost use Rattle.lane_files.specs.PieceMakes.{LacksMake};
ghost use Rattle.lane_files.specs.Ready.{IsReady, Owns};
ghost use Rattle.lane_files.specs.Counting.{CountsFile, IsWhyStopped, StopsInFile};
ghost use Rattle.lane_files.specs.FilePieces.{HasPieces, pieces_in};
ghost use Rattle.lane_files.specs.Keeping.{IsSameKeeper, has};
ghost use Rattle.lane_files.specs.Makes.{cause_at};
ghost use Rattle.lane_files.specs.Next.{CountsNext};

use crate::keeper::keep;
use crate::refusal::FileError;
use crate::tidying::tidy;
use crate::{Shared, count_piece};
use control_word::{Domain, PayloadKind, Seat};
use hand_queues::Deleter;
use lane_gate::Gate;
use lane_work::{FileText, Lane};
use std::sync::Wait;
use words_protocol::{NodeKind, PairKind, RecordKind, WordsLaw};

/// Counts the pieces of a file, each of 1 to 4,096 bytes, beside other lanes: for each it passes the gate, interns the
/// piece, pushes a reference to its record, pops one and counts its word, and destroys some of what ended. It keeps one
/// reference to the record of each word of the file, and uses an intern for each piece. It uses at most a make for each
/// piece, and one for each 120 bytes of a piece.
///
/// It is refused at the first piece that isn't counted, with the cause of `count_piece`, or where there is no memory
/// for one reference more. The pieces before it are counted then, and their records kept. Where a make was refused, at
/// least one of those for that piece isn't used. It may wait for other threads.
pub fn count_file<R: Wait, G: Gate, F: Fn(&[u64; 16]) -> u64>(
    rt: &R,
    domain: &Domain<WordsLaw>,
    seat: &mut Seat<WordsLaw>,
    shared: &Shared,
    gate: &G,
    weigh: &Deleter<PairKind<NodeKind, RecordKind>, F>,
    lane: &mut Lane,
    file: &FileText,
) -> Result<(), FileError>
    requires ready { IsReady domain.now shared.now seat.old }
    requires weighs { Weighs ⟦<PairKind<NodeKind, RecordKind> as PayloadKind>⟧.fits
        ⟦<PairKind<NodeKind, RecordKind> as PayloadKind>⟧.weight F.Fn weigh.now }
    requires pieces { HasPieces file.now }
    requires quota { seat.old.view.client.1.used + length (pieces_in file.now)
        ≤ seat.old.view.client.1.quota }
    requires few { total_of lane.old.tally + length (pieces_in file.now) ≤ 2 ^ 63 }
    requires turns { lane.old.turn + length (pieces_in file.now) < 2 ^ 64 }
    ensures counts { OnOk result (CountsFile (pieces_in file.now) seat.old seat.new
        lane.old lane.new) }
    ensures why { IfErr result (λ error. StopsInFile
        ⟦<PairKind<NodeKind, RecordKind> as PayloadKind>⟧.fits domain.now (pieces_in file.now)
        error seat.old seat.new lane.old lane.new) }
    ensures turn { OnOk result (lane.new.turn ≡ lane.old.turn + length (pieces_in file.now)) }
    ensures number { lane.new.number ≡ lane.old.number }
    ensures ready { IsReady domain.now shared.now seat.new }
{
    lane.keeper.begin_file();
    let mut room = [0; 4096];
    for number in 0..file.pieces.len() {
        gate.pass(rt, lane.number, lane.turn);
        lane.turn += 1;
        count_next(
            rt,
            domain,
            seat,
            shared,
            weigh,
            lane,
            file.piece(number),
            &mut room,
        )?;
    }
    Ok(())
}

/// Counts one piece, and keeps a reference to its record where none is kept for the file.
fn count_next<R: Wait, F: Fn(&[u64; 16]) -> u64>(
    rt: &R,
    domain: &Domain<WordsLaw>,
    seat: &mut Seat<WordsLaw>,
    shared: &Shared,
    weigh: &Deleter<PairKind<NodeKind, RecordKind>, F>,
    lane: &mut Lane,
    piece: &[u8],
    room: &mut [u8; 4096],
) -> Result<(), FileError>
    requires ready { IsReady domain.now shared.now seat.old }
    requires weighs { Weighs ⟦<PairKind<NodeKind, RecordKind> as PayloadKind>⟧.fits
        ⟦<PairKind<NodeKind, RecordKind> as PayloadKind>⟧.weight F.Fn weigh.now }
    requires piece { (1 ≤ length piece.now) × (length piece.now ≤ 4096) }
    requires quota { CanCount true seat.old.view.client.1 }
    requires few { total_of lane.old.tally < 2 ^ 63 }
    requires held { (s : SlotId) → has lane.old.keeper s ≡ true
        → 0 < times s seat.old.view.core.owned }
    ensures counts { OnOk result (CountsNext piece.now seat.old seat.new lane.old lane.new) }
    ensures why { IfErr result (λ error. IsWhyStopped
        ⟦<PairKind<NodeKind, RecordKind> as PayloadKind>⟧.fits domain.now piece.now error
        seat.old seat.new lane.old lane.new
        × IsSameKeeper lane.old.keeper lane.new.keeper
        × Owns seat.old.view.core.owned seat.old seat.new) }
    ensures makes { seat.new.view.core.makes
        ≤ seat.old.view.core.makes + slots_of_word piece.now + 1 }
    ensures lacks { IfErr result (λ error. LacksMake domain.now (slots_of_word piece.now)
        (cause_at error) seat.old.view.core seat.new.view.core) }
    ensures turn { lane.new.turn ≡ lane.old.turn }
    ensures number { lane.new.number ≡ lane.old.number }
    ensures ready { IsReady domain.now shared.now seat.new }
{
    let handle = count_piece(rt, domain, seat, shared, piece, &mut lane.tally, room)?;
    keep(&mut lane.keeper, domain, seat, shared, handle)?;
    tidy(domain, seat, shared, weigh);
    Ok(())
}
