//! A directory as a protocol.
ghost use Rattle.std.specs.Prelude.{◌≡◌, ◌≤◌, ◌<◌, ◌+◌, sum};
ghost use Rattle.directory_law.specs.declared.view.GivenTo.TheVariants.{Seats, Tickets};
ghost use Rattle.directory_law.specs.Payloads.{IsOwn};
ghost use Rattle.directory_law.specs.Views.{gone, joined};
ghost use Rattle.directory_law.specs.Cells.{area};
ghost use Rattle.directory_law.specs.Law.{DirectoryLaw as Law};
ghost use Rattle.directory_law.specs.Owned.{first_view};
ghost use Rattle.directory_law.proofs.Start.{starts};
ghost use Rattle.directory_law.proofs.Quiet.{calm_keeps};
ghost use Rattle.directory_law.proofs.Leave.{leave_keeps};
ghost use Rattle.directory_law.proofs.Foreign.{foreign_keeps};
ghost use Rattle.directory_law.proofs.Bytes.{area_sum};

use crate::record_kind::RecordKind;
use directory_law::{GivenTo, View};
use protocol_pairs::Protocol;

/// The law of one directory over a range of weak cells, with a number of interns for each seat or each ticket.
#[derive(Debug, Drop)]
pub struct DirectoryLaw {
    /// The first weak cell of the range.
    pub first: u32,
    /// How many they are.
    pub cells: u32,
    pub interns: Vec<u64>,
    pub to: GivenTo,
    pub ghost fits: { sum interns.items ≤ cells },
}

impl DirectoryLaw {
    /// Seat n begins with `interns[n]` interns, or none where there is no such number.
    pub fn new(first: u32, cells: u32, interns: Vec<u64>) -> DirectoryLaw
        requires { sum interns.items ≤ cells }
        ensures cells { (result.first ≡ first) × (result.cells ≡ cells) }
        ensures interns { (result.interns ≡ interns) × (result.to ≡ Seats) }
    {
        DirectoryLaw {
            first,
            cells,
            interns,
            to: GivenTo::Seats,
        }
    }

    /// Seats begin with no intern; the seat that draws ticket t has `interns[t]` more, or none where there is no such
    /// number.
    pub fn granted(first: u32, cells: u32, interns: Vec<u64>) -> DirectoryLaw
        requires { sum interns.items ≤ cells }
        ensures cells { (result.first ≡ first) × (result.cells ≡ cells) }
        ensures interns { (result.interns ≡ interns) × (result.to ≡ Tickets) }
    {
        DirectoryLaw {
            first,
            cells,
            interns,
            to: GivenTo::Tickets,
        }
    }

    /// No more interns are given than there are cells. The call does nothing.
    #[tactic(auto, using(directory_law::proofs::Bytes::area_sum))]
    pub fn has_room(&self)
        ensures { let z = area self.now.first self.now.cells self.now.interns.items self.now.to in
            sum z.interns + sum z.grants ≤ self.now.cells }
    {}
}

impl Protocol for DirectoryLaw {
    type View = View;

    type Kind = RecordKind;

    ghost first = { λ it. first_view (area it.first it.cells it.interns.items it.to) };

    ghost law = { λ it. Law (area it.first it.cells it.interns.items it.to) };

    ghost joined = { λ it. joined };

    ghost gone = { gone };

    ghost owns_cell = { λ it i. ⊥ };

    ghost owns_weak_cell = { λ it i. (it.first ≤ i) × (i < it.first + it.cells) };

    ghost owns_payload = { λ it. IsOwn };

    ghost owns_tickets = { λ it. ⊥ };

    ghost start = { λ it. starts (area it.first it.cells it.interns.items it.to) };

    ghost calm = { λ it. calm_keeps (area it.first it.cells it.interns.items it.to) };

    ghost leave = { λ it. leave_keeps (area it.first it.cells it.interns.items it.to) };

    ghost foreign = { λ it. foreign_keeps (area it.first it.cells it.interns.items it.to) };
}
