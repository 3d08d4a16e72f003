//! Whether a record has a text, and that it is noted as found.
ghost use Rattle.std.specs.Prelude.{◌≡◌, ◌+◌, ◌*◌, true, false, [], ◌∷◌, length};
ghost use Rattle.cell_calls.specs.cell_law.directory_law.Payloads.{IsText, Text};
ghost use Rattle.epoch_domain.specs.epoch_core.Views.{IsInside};
ghost use Rattle.epoch_refs.specs.Walks.{IsAtRest};
ghost use Rattle.record_texts.specs.Texts.{parts_after, text_of};
ghost use Rattle.cell_finding.specs.Comparing.{IsAlong, IsWhole, sighted};
ghost use Rattle.cell_finding.specs.Finding.{IsFound, IsOwnIfAlone, IsPast};
ghost use Rattle.cell_finding.specs.Looking.{OnlyLooks};
ghost use Rattle.cell_finding.specs.Sought.{IsSought};

use crate::comparing::is_payload;
use crate::seeing::part_behind;
use crate::sought::Sought;
use cell_calls::{CellLaw, FindText};
use epoch_refs::{EpochDomain, EpochSeat, Place, SlotId, e_look};
use record_texts::part_at;

/// Whether the record whose head was seen last has the text. It stops at the first word that differs. At most 16 events
/// for the head and 17 for each part.
pub(crate) fn has_text(
    domain: &EpochDomain<CellLaw>,
    seat: &mut EpochSeat<CellLaw>,
    head: SlotId,
    sought: &Sought<'_>,
) -> bool
    requires rest { IsAtRest domain.now seat.old }
    requires inside { IsInside seat.old.view.core }
    requires along { IsAlong head head seat.old }
    requires one { (sighted seat.old).slots ≡ head ∷ [] }
    requires sought { IsSought sought.now.text.now sought.now.head sought.now.hash }
    ensures whole { result ≡ true → IsWhole (text_of sought.now.text.now) head seat.new }
    ensures other { result ≡ false
        → IsPast seat.new (text_of sought.now.text.now) (sighted seat.old).cell }
    ensures looks { OnlyLooks (16 + 17 * parts_after (length sought.now.text.now))
        seat.old seat.new }
    ensures rest { IsAtRest domain.now seat.new }
{
    if !is_payload(domain, seat, head, &sought.head) {
        return false;
    }
    let mut last = head;
    for part in 0..(sought.text.len() - 1) / 120 {
        last = part_behind(domain, seat, head, last);
        if !is_payload(domain, seat, last, &part_at(sought.text, part)) {
            return false;
        }
    }
    true
}

/// Notes the record as found: at this step it is the record of its text, which the seat has compared. One event.
pub(crate) fn note_found(domain: &EpochDomain<CellLaw>, seat: &mut EpochSeat<CellLaw>, head: SlotId)
    requires rest { IsAtRest domain.now seat.old }
    requires inside { IsInside seat.old.view.core }
    requires whole { (text : Text) × IsWhole text head seat.old × IsText text }
    ensures found { (text : Text) → IsWhole text head seat.old
        → IsFound domain.now text head seat.old seat.new
        × IsOwnIfAlone domain.now text head seat.new }
    ensures looks { OnlyLooks 1 seat.old seat.new }
    ensures rest { IsAtRest domain.now seat.new }
{
    // Field 1 of a record is read at a step that changes nothing, whatever it holds.
    e_look(domain, seat, Place::Field(head, 1), FindText);
}
