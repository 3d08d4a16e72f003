//! A seat's half of the table of events, as a value.
use crate::holdings::Holdings;
use core_functions::Move;
use std::marker::Model;

/// What one seat has. Its value, in contracts, is the seat's view.
#[derive(Drop)]
pub struct OwnView {
    pub(crate) holdings: Holdings,
    pub(crate) trail: Vec<Move>,
}

impl Model for OwnView {
    ghost use Rattle.core_functions.specs.core_events.declared.view.CoreView.{CoreView};

    ghost Value = { CoreView };

    ghost view = { λ a. record a.holdings { trail = a.trail.items } };
}
