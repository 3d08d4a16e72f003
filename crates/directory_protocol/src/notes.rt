//! The deeds that change what a seat notes of itself.
ghost use Rattle.directory_law.specs.Cells.{area};
ghost use Rattle.directory_law.specs.Lessons.{DrawReady, DrawTells, ForgetReady, ForgetTells, draw_next, forget_next};
ghost use Rattle.directory_law.proofs.Answers.{draw_keeps, forget_keeps};

use crate::law::DirectoryLaw;
use protocol_pairs::Deed;

/// From a calm step on, slots whose lives the seat has seen to have ended are noted no more.
#[derive(Clone, Copy, Drop)]
pub struct ForgetEnded;

impl Deed<DirectoryLaw> for ForgetEnded {
    ghost ready = { λ it of. ForgetReady };

    ghost next = { λ it of. forget_next };

    ghost allows = { λ it of. ForgetTells (area of.first of.cells of.interns.items of.to) };

    ghost keeps = { λ it of. forget_keeps (area of.first of.cells of.interns.items of.to) };
}

/// The seat has the interns of the ticket that it draws.
#[derive(Clone, Copy, Drop)]
pub struct DrawTicket;

impl Deed<DirectoryLaw> for DrawTicket {
    ghost ready = { λ it of. DrawReady };

    ghost next = { λ it of. draw_next (area of.first of.cells of.interns.items of.to) };

    ghost allows = { λ it of. DrawTells (area of.first of.cells of.interns.items of.to) };

    ghost keeps = { λ it of. draw_keeps (area of.first of.cells of.interns.items of.to) };
}
