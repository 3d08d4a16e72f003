//! What the table of a domain under epochs is told when it is made, and the rule that it keeps.
ghost use Rattle.epoch_rule.specs.Rule.{Kept};
ghost use Rattle.epoch_rule.specs.Opening.{first_of};

use crate::view::EpochSeatView;
use atomic_table::TableRule;
use domain_rule::Protocol;
use epoch_core::{EpochShape, Quota};
use std::marker::PhantomData;

/// The protocol of a domain under epochs, its sizes, and what each seat may use up.
#[derive(Drop)]
pub struct EpochCharter<P> {
    pub protocol: P,
    pub shape: EpochShape,
    pub quotas: Vec<Quota>,
}

/// The rule of the table of a domain under epochs.
pub struct EpochRule<P> {
    protocol: PhantomData<P>,
}

impl<P: Protocol> TableRule<(), EpochSeatView<P::View>, EpochCharter<P>> for EpochRule<P> {
    ghost holds = { λ key.
        Kept (P.law key.protocol) (P.first key.protocol) P.gone P.Kind.fits key.shape
        key.quotas.items };

    ghost first = { λ key. first_of (P.first key.protocol) key.shape key.quotas.items };
}
