//! Observers in a range of weak cells, one for each id, as a protocol.
ghost use Rattle.std.specs.Prelude.{◌≡◌, ◌≤◌, ◌<◌, ◌+◌};
ghost use Rattle.watch_law.specs.Payloads.{IsOwn};
ghost use Rattle.watch_law.specs.Views.{first_view, joined, no_view};
ghost use Rattle.watch_law.specs.Law.{WatchLaw as Law, area};
ghost use Rattle.watch_law.proofs.Start.{watch_start};
ghost use Rattle.watch_law.proofs.Quiet.{watch_calm, watch_foreign};
ghost use Rattle.watch_law.proofs.Leave.{watch_leave};

use crate::kind::WatchKind;
use queue_protocol::Protocol;
use watch_law::View;

/// The law of observers in the weak cells of their ids, each of which is one seat's, and of deliveries to them.
#[derive(Debug, Drop)]
pub struct WatchLaw {
    /// The weak cell of id 0.
    pub first: u32,
    /// How many ids there are.
    pub cells: u32,
    /// The seat of each id.
    pub owners: Vec<u32>,
}

impl WatchLaw {
    /// The weak cell `first + i` is that of id i, which is seat `owners[i]`'s, or seat 0's where there is no such
    /// number. It takes no step.
    pub fn over(first: u32, cells: u32, owners: Vec<u32>) -> WatchLaw
        ensures { (result.first ≡ first) × (result.cells ≡ cells) × (result.owners ≡ owners) }
    {
        WatchLaw {
            first,
            cells,
            owners,
        }
    }
}

impl Protocol for WatchLaw {
    type View = View;

    type Kind = WatchKind;

    ghost first = { λ it. first_view };

    ghost law = { λ it. Law (area it.first it.cells it.owners.items) };

    ghost joined = { λ it. joined };

    ghost gone = { no_view };

    ghost owns_cell = { λ it i. ⊥ };

    ghost owns_weak_cell = { λ it i. (it.first ≤ i) × (i < it.first + it.cells) };

    ghost owns_payload = { λ it. IsOwn };

    ghost owns_tickets = { λ it. ⊥ };

    ghost start = { λ it. watch_start (area it.first it.cells it.owners.items) };

    ghost calm = { λ it. watch_calm (area it.first it.cells it.owners.items) };

    ghost leave = { λ it. watch_leave (area it.first it.cells it.owners.items) };

    ghost foreign = { λ it. watch_foreign (area it.first it.cells it.owners.items) };
}
