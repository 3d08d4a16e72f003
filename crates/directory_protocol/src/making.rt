//! The deeds that make a record.
ghost use Rattle.directory_law.specs.Cells.{area};
ghost use Rattle.directory_law.specs.Making.{BindReady, BindTells, LinkReady, LinkTells, MakeReady, MakeTells, bind_next, link_next, make_next};
ghost use Rattle.directory_law.proofs.MakingDeeds.{bind_keeps, link_keeps, make_keeps};

use crate::law::DirectoryLaw;
use protocol_pairs::Deed;

/// The slot that the seat is filling becomes a head or a part, which stands nowhere and is noted. The last part comes
/// first.
#[derive(Clone, Copy, Drop)]
pub struct MakeSlot;

impl Deed<DirectoryLaw> for MakeSlot {
    ghost ready = { λ it of. MakeReady };

    ghost next = { λ it of. make_next };

    ghost allows = { λ it of. MakeTells (area of.first of.cells of.interns.items of.to) };

    ghost keeps = { λ it of. make_keeps (area of.first of.cells of.interns.items of.to) };
}

/// Field 1 of the slot that was made last gets the part that was noted before it, and takes over its note. No other
/// slot changes.
#[derive(Clone, Copy, Drop)]
pub struct LinkPart;

impl Deed<DirectoryLaw> for LinkPart {
    ghost ready = { λ it of. LinkReady };

    ghost next = { λ it of. link_next };

    ghost allows = { λ it of. LinkTells (area of.first of.cells of.interns.items of.to) };

    ghost keeps = { λ it of. link_keeps (area of.first of.cells of.interns.items of.to) };
}

/// The first null cell on the walk of a text gets the head that was noted last, where it is still null: the text is
/// kept, and one intern more is used. It is the live record of its text then. The seat has walked over the cells
/// before.
#[derive(Clone, Copy, Drop)]
pub struct BindHead;

impl Deed<DirectoryLaw> for BindHead {
    ghost ready = { λ it of. BindReady (area of.first of.cells of.interns.items of.to) };

    ghost next = { λ it of. bind_next };

    ghost allows = { λ it of. BindTells (area of.first of.cells of.interns.items of.to) };

    ghost keeps = { λ it of. bind_keeps (area of.first of.cells of.interns.items of.to) };
}
