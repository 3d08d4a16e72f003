//! The domain, which threads share.
use atomic_table::Table;
use core_promises::Shape;
use domain_rule::{Charter, DomainRule, Protocol, SeatView};
use std::alloc::Global;
use std::marker::Model;

/// A domain of counted objects under a client's protocol. Threads share it behind a `&`.
#[derive(Drop)]
pub struct Domain<P: Protocol> {
    pub(crate) table: Table<(), SeatView<P::View>, Charter<P>, DomainRule<P>, Global>,
    pub(crate) shape: Shape,
    /// The word at which the words of slot 0 begin.
    pub(crate) first_slot: usize,
    /// How many makes each ticket grants.
    pub(crate) grants: Vec<u64>,
}

// A clause sees which domain it is, and what it was opened with.
impl<P: Protocol> Model for Domain<P> {
    ghost use Rattle.acquire_retire.specs.Domains.{DomainState, IsDomain};

    ghost Value = { DomainState P };

    ghost view = { λ d. record {
      table = d.table.shared.table_id;
      protocol = d.table.shared.key.protocol;
      shape = d.table.shared.key.shape;
      terms = record {
        quotas = d.table.shared.key.quotas.items;
        grants = d.table.shared.key.grants.items;
      };
    } };

    ghost invariant = { λ d. IsDomain d.table.shared.table_id d.table.shared.key.shape
        (record {
          quotas = d.table.shared.key.quotas.items;
          grants = d.table.shared.key.grants.items;
        }) (record { shape = d.shape; first_slot = d.first_slot; grants = d.grants.items }) };
}
