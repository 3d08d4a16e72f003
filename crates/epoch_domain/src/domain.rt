//! The domain under epochs, which threads share.
use atomic_table::Table;
use epoch_parts::EpochShape;
use epoch_rule::{EpochCharter, EpochRule, EpochSeatView, Protocol};
use std::alloc::Global;
use std::marker::Model;

/// A domain of counted objects whose readers open regions, under a client's protocol. Threads share it behind a `&`.
#[derive(Drop)]
pub struct EpochDomain<P: Protocol> {
    pub(crate) table: Table<(), EpochSeatView<P::View>, EpochCharter<P>, EpochRule<P>, Global>,
    pub(crate) shape: EpochShape,
    /// The word at which the words of slot 0 begin.
    pub(crate) first_slot: usize,
}

// A clause sees which domain it is, and what it was opened with.
impl<P: Protocol> Model for EpochDomain<P> {
    ghost use Rattle.epoch_domain.specs.Domains.{DomainState, IsDomain};

    ghost Value = { DomainState P };

    ghost view = { λ d. record {
      table = d.table.shared.table_id;
      protocol = d.table.shared.key.protocol;
      shape = d.table.shared.key.shape;
      quotas = d.table.shared.key.quotas.items;
    } };

    ghost invariant = { λ d. IsDomain d.table.shared.table_id d.table.shared.key.shape
        d.table.shared.key.quotas.items
        (record { shape = d.shape; first_slot = d.first_slot }) };
}
