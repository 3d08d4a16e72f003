//! How the walk of a text, and what it found, stay over other calls.
ghost use Rattle.std.specs.Prelude.{ℕ, ◌≡◌, ◌+◌, ◌%◌, false, List};
ghost use Rattle.cell_law.specs.declared.view.View.{View};
ghost use Rattle.cell_calls.specs.Cells.{IsOver, area_of};
ghost use Rattle.cell_calls.specs.Keeping.{Keeps};
ghost use Rattle.cell_calls.specs.cell_law.Views.{IsWord};
ghost use Rattle.cell_calls.specs.cell_law.Walks.{SawAll, Walked};
ghost use Rattle.cell_calls.specs.cell_law.directory_law.Cells.{on};
ghost use Rattle.cell_calls.specs.cell_law.directory_law.Payloads.{Text};
ghost use Rattle.cell_calls.specs.cell_law.directory_law.Views.{In};
ghost use Rattle.directory_law.specs.declared.view.Rope.{Rope};
ghost use Rattle.cell_calls.specs.cell_protocol.declared.law.CellLaw.{CellLaw};
ghost use Rattle.epoch_domain.specs.plain_protocol.plain_state.declared.slot.SlotId.{SlotId};
ghost use Rattle.epoch_domain.specs.epoch_rule.Views.{own_of};
ghost use Rattle.epoch_domain.specs.Domains.{DomainState};
ghost use Rattle.epoch_domain.specs.Seats.{SeatState};
ghost use Rattle.record_texts.specs.Texts.{text_of};
ghost use Rattle.cell_finding.specs.Finding.{IsFound, IsNullOn, IsOnWalk};
ghost use Rattle.cell_finding.specs.Looking.{AtStep};
ghost use Rattle.cell_finding.specs.Sought.{IsSought};

/// A walk begins with no cell passed. It stays where it is over every call that keeps what its region has seen, forgets
/// no sight and doesn't clear cells: so a seat may make a record, or lose an exchange, and go on. What such a walk has
/// passed the law of cells takes as passed. The call does nothing.
pub fn walks_stay_over_calls()
    ensures begins { (d : DomainState CellLaw) (text : Text) (seat : SeatState View)
        → seat.view.client.cleared ≡ false → IsOnWalk d text 0 seat }
    ensures stays { (d : DomainState CellLaw) (text : Text) (passed makes adds : ℕ)
        (owned : List SlotId) (old new : SeatState View) → IsOnWalk d text passed old
        → Keeps makes adds owned old new → SawAll old.view.client new.view.client
        → new.view.client.cleared ≡ false → IsOnWalk d text passed new }
    ensures walked { (d : DomainState CellLaw) (text : Text) (passed : ℕ) (seat : SeatState View)
        → IsOnWalk d text passed seat
        → Walked (area_of d.protocol) (own_of seat.view) seat.view.client text passed }
{}

/// What was found in a part of a call was found in the call: other calls may come before that part, and after it, where
/// they keep what the region has seen and forget no record that was found. The same holds of a cell that was null at a
/// step. The call does nothing.
pub fn finds_stay_over_calls()
    ensures before { (d : DomainState CellLaw) (makes adds : ℕ) (owned : List SlotId)
        (text : Text) (s : SlotId) (old mid new : SeatState View)
        → Keeps makes adds owned old mid → IsFound d text s mid new → IsFound d text s old new }
    ensures after { (d : DomainState CellLaw) (makes adds : ℕ) (owned : List SlotId)
        (text : Text) (s : SlotId) (old mid new : SeatState View)
        → IsFound d text s old mid → Keeps makes adds owned mid new
        → ((e : Rope) → In e mid.view.client.found → In e new.view.client.found)
        → IsFound d text s old new }
    ensures null_before { (d : DomainState CellLaw) (makes adds : ℕ) (owned : List SlotId)
        (text : Text) (passed : ℕ) (old mid new : SeatState View)
        → Keeps makes adds owned old mid
        → AtStep d (IsNullOn (area_of d.protocol) text passed) mid new
        → AtStep d (IsNullOn (area_of d.protocol) text passed) old new }
    ensures null_after { (d : DomainState CellLaw) (makes adds : ℕ) (owned : List SlotId)
        (text : Text) (passed : ℕ) (old mid new : SeatState View)
        → AtStep d (IsNullOn (area_of d.protocol) text passed) old mid
        → Keeps makes adds owned mid new
        → AtStep d (IsNullOn (area_of d.protocol) text passed) old new }
{}

/// What is looked for is a text of the law of cells, and the cell that is worked out for it is on its walk. The call
/// does nothing.
pub fn sought_texts_are_words()
    ensures word { (bytes head : List ℕ) (hash : ℕ) → IsSought bytes head hash
        → IsWord (text_of bytes) }
    ensures cell { (d : DomainState CellLaw) (bytes head : List ℕ) (hash passed cell : ℕ)
        → IsOver d → IsSought bytes head hash → cell ≡ (hash + passed) % d.shape.cells
        → cell ≡ on (area_of d.protocol) (text_of bytes) passed }
{}
