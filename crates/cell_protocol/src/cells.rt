//! The deeds that look at cells, read what stands there, and clear them.
ghost use Rattle.cell_law.specs.Cells.{range};
ghost use Rattle.cell_law.specs.Lessons.{ClearReady, ClearTells, FindReady, FindTells, LookReady, LookTells, ReadReady, ReadTells, clear_next, find_next, look_next, read_next};
ghost use Rattle.cell_law.proofs.Clearing.{clear_keeps};
ghost use Rattle.cell_law.proofs.Looks.{find_keeps, look_keeps, read_keeps};

use crate::law::CellLaw;
use plain_protocol::Deed;

/// What a cell of the range holds is seen: it stands there until cells are cleared. Where it is null and the walk of a
/// text ends here, no cell holds a record of the text.
#[derive(Clone, Copy, Drop)]
pub struct LookCell;

impl Deed<CellLaw> for LookCell {
    ghost ready = { λ it of. LookReady (range of.first of.cells of.grants.items) };

    ghost next = { λ it of. look_next (range of.first of.cells of.grants.items) };

    ghost allows = { λ it of. LookTells (range of.first of.cells of.grants.items) };

    ghost keeps = { λ it of. look_keeps (range of.first of.cells of.grants.items) };
}

/// Field 1 of the slot that was seen last: the part that it holds is seen behind that one, until cells are cleared.
#[derive(Clone, Copy, Drop)]
pub struct ReadPart;

impl Deed<CellLaw> for ReadPart {
    ghost ready = { λ it of. ReadReady };

    ghost next = { λ it of. read_next };

    ghost allows = { λ it of. ReadTells (range of.first of.cells of.grants.items) };

    ghost keeps = { λ it of. read_keeps (range of.first of.cells of.grants.items) };
}

/// A calm step, at which the seat has the slots that it saw last and their payloads are a whole text: the view notes
/// the head as found, with this text, which is that of the record, for good.
#[derive(Clone, Copy, Drop)]
pub struct FindText;

impl Deed<CellLaw> for FindText {
    ghost ready = { λ it of. FindReady };

    ghost next = { λ it of. find_next };

    ghost allows = { λ it of. FindTells (range of.first of.cells of.grants.items) };

    ghost keeps = { λ it of. find_keeps (range of.first of.cells of.grants.items) };
}

/// Seat 0, when it is alone, puts null into a cell. No record can be bound from then on.
#[derive(Clone, Copy, Drop)]
pub struct ClearCell;

impl Deed<CellLaw> for ClearCell {
    ghost ready = { λ it of. ClearReady (range of.first of.cells of.grants.items) };

    ghost next = { λ it of. clear_next };

    ghost allows = { λ it of. ClearTells (range of.first of.cells of.grants.items) };

    ghost keeps = { λ it of. clear_keeps (range of.first of.cells of.grants.items) };
}
