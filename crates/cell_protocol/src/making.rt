//! The deeds that make a record.
ghost use Rattle.cell_law.specs.Cells.{range};
ghost use Rattle.cell_law.specs.Making.{BindReady, BindTells, LinkReady, LinkTells, MakeReady, MakeTells, bind_next, link_next, make_next};
ghost use Rattle.cell_law.proofs.BindDeed.{bind_keeps};
ghost use Rattle.cell_law.proofs.Making.{link_keeps, make_keeps};

use crate::law::CellLaw;
use plain_protocol::Deed;

/// The slot that the seat is filling becomes a head or a part, which stands nowhere and is noted. The last part comes
/// first.
#[derive(Clone, Copy, Drop)]
pub struct MakePiece;

impl Deed<CellLaw> for MakePiece {
    ghost ready = { λ it of. MakeReady };

    ghost next = { λ it of. make_next };

    ghost allows = { λ it of. MakeTells (range of.first of.cells of.grants.items) };

    ghost keeps = { λ it of. make_keeps (range of.first of.cells of.grants.items) };
}

/// Field 1 of the slot that was made last gets the part that was noted before it, and takes over its note. No other
/// slot changes.
#[derive(Clone, Copy, Drop)]
pub struct LinkPart;

impl Deed<CellLaw> for LinkPart {
    ghost ready = { λ it of. LinkReady };

    ghost next = { λ it of. link_next };

    ghost allows = { λ it of. LinkTells (range of.first of.cells of.grants.items) };

    ghost keeps = { λ it of. link_keeps (range of.first of.cells of.grants.items) };
}

/// The first null cell on the walk of a text gets the head that was noted last, where it is still null: the view lists
/// it as bound, and it is the record of its text, which had none before. Else the view has seen what stands there. The
/// seat has walked over the cells before.
#[derive(Clone, Copy, Drop)]
pub struct BindCell;

impl Deed<CellLaw> for BindCell {
    ghost ready = { λ it of. BindReady (range of.first of.cells of.grants.items) };

    ghost next = { λ it of. bind_next (range of.first of.cells of.grants.items) };

    ghost allows = { λ it of. BindTells (range of.first of.cells of.grants.items) };

    ghost keeps = { λ it of. bind_keeps (range of.first of.cells of.grants.items) };
}
