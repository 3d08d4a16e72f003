//! The deeds that upgrade a head, read its text, and answer it.
ghost use Rattle.directory_law.specs.Cells.{area};
ghost use Rattle.directory_law.specs.Lessons.{AnswerReady, AnswerTells, ReadReady, ReadTells, UpgradeReady, UpgradeTells, answer_next, lead_next, read_next, upgrade_next};
ghost use Rattle.directory_law.proofs.Reading.{upgrade_keeps};
ghost use Rattle.directory_law.proofs.ReadingOn.{lead_keeps, read_keeps};
ghost use Rattle.directory_law.proofs.Answers.{answer_keeps};

use crate::law::DirectoryLaw;
use protocol_pairs::Deed;

/// An add to a head that was seen in a cell. Where it counts, the head is a live record, and its payload is read;
/// else its life is noted as ended.
#[derive(Clone, Copy, Drop)]
pub struct UpgradeHead {
    /// Whether the step counts an intern of the seat.
    pub intern: bool,
}

impl Deed<DirectoryLaw> for UpgradeHead {
    ghost ready = { λ it of. UpgradeReady it.intern };

    ghost next = { λ it of. upgrade_next it.intern };

    ghost allows = { λ it of. UpgradeTells (area of.first of.cells of.interns.items of.to) };

    ghost keeps = { λ it of.
        upgrade_keeps (area of.first of.cells of.interns.items of.to) it.intern };
}

/// A look at field 1 of the slot that was read last: what it holds is noted, and stays as long as that slot lives.
/// Where it is null, the whole text was read.
#[derive(Clone, Copy, Drop)]
pub struct LeadOn;

impl Deed<DirectoryLaw> for LeadOn {
    ghost ready = { λ it of. ReadReady };

    ghost next = { λ it of. lead_next };

    ghost allows = { λ it of. ReadTells };

    ghost keeps = { λ it of. lead_keeps (area of.first of.cells of.interns.items of.to) };
}

/// A look or a check of field 1 of the slot that was read last. The part that it held is read, if the seat then has
/// it; and it held what it was seen to hold. Where it is null, the whole text was read.
#[derive(Clone, Copy, Drop)]
pub struct ReadOn;

impl Deed<DirectoryLaw> for ReadOn {
    ghost ready = { λ it of. ReadReady };

    ghost next = { λ it of. read_next };

    ghost allows = { λ it of. ReadTells };

    ghost keeps = { λ it of. read_keeps (area of.first of.cells of.interns.items of.to) };
}

/// A calm step, at which the seat owns a head that it saw in a cell and whose whole text it read: it is the live
/// record of this text.
#[derive(Clone, Copy, Drop)]
pub struct AnswerHead {
    /// Whether the step counts an intern of the seat.
    pub intern: bool,
}

impl Deed<DirectoryLaw> for AnswerHead {
    ghost ready = { λ it of. AnswerReady it.intern };

    ghost next = { λ it of. answer_next it.intern };

    ghost allows = { λ it of. AnswerTells (area of.first of.cells of.interns.items of.to) };

    ghost keeps = { λ it of.
        answer_keeps (area of.first of.cells of.interns.items of.to) it.intern };
}
