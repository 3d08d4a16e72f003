//! What a domain's table is told when it is made, and the rule that it keeps.
ghost use Rattle.domain_rule.specs.Rule.{Kept};
ghost use Rattle.domain_rule.specs.Opening.{first_of};

use crate::view::SeatView;
use atomic_table::TableRule;
use core_law::{Quota, Shape};
use plain_protocol::Protocol;
use std::marker::PhantomData;

/// The protocol of a domain, its sizes, and what each seat may use up.
#[derive(Drop)]
pub struct Charter<P> {
    pub protocol: P,
    pub shape: Shape,
    pub quotas: Vec<Quota>,
    /// How many makes each ticket grants, by its number.
    pub grants: Vec<u64>,
}

/// The rule of a domain's table.
pub struct DomainRule<P> {
    protocol: PhantomData<P>,
}

impl<P: Protocol> TableRule<(), SeatView<P::View>, Charter<P>> for DomainRule<P> {
    ghost holds = { λ key.
        Kept (P.law key.protocol) (P.first key.protocol) P.gone P.Kind.fits key.shape
        (record { quotas = key.quotas.items; grants = key.grants.items }) };

    ghost first = { λ key. first_of (P.first key.protocol) key.shape
        (record { quotas = key.quotas.items; grants = key.grants.items }) };
}
