//! The deeds that look at cells.
ghost use Rattle.directory_law.specs.Cells.{area};
ghost use Rattle.directory_law.specs.Lessons.{LookReady, LookTells, SeeReady, SeeTells, look_next, see_next};
ghost use Rattle.directory_law.proofs.Bytes.{area_fits};
ghost use Rattle.directory_law.proofs.Looks.{look_keeps, see_keeps};

use crate::law::DirectoryLaw;
use protocol_pairs::Deed;

/// A weak cell, whichever. Where the walk of a text ends here, the text has no live record. The walk of a seat that
/// has an intern left doesn't come around.
#[derive(Clone, Copy, Drop)]
pub struct LookAtCell;

impl Deed<DirectoryLaw> for LookAtCell {
    ghost ready = { λ it of. LookReady };

    ghost next = { λ it of. look_next };

    ghost allows = { λ it of. LookTells (area of.first of.cells of.interns.items of.to) };

    ghost keeps = { λ it of.
        look_keeps (area of.first of.cells of.interns.items of.to)
        (area_fits of.first of.cells of.interns.items of.to of.fits) };
}

/// What a cell of the range held, if the seat then has it: it is a head, and noted as seen in its life. Where the
/// cell is null and the walk of a text ends here, the text has no live record. It goes with both a look and a check.
#[derive(Clone, Copy, Drop)]
pub struct SeeHead;

impl Deed<DirectoryLaw> for SeeHead {
    ghost ready = { λ it of. SeeReady (area of.first of.cells of.interns.items of.to) };

    ghost next = { λ it of. see_next (area of.first of.cells of.interns.items of.to) };

    ghost allows = { λ it of. SeeTells (area of.first of.cells of.interns.items of.to) };

    ghost keeps = { λ it of. see_keeps (area of.first of.cells of.interns.items of.to) };
}
