//! The rule that ties the word to all views, and what each kind of step tells its caller.
ghost use Rattle.sticky_count.specs.Running.{Kept, Does, first, stays, split_off};
ghost use Rattle.sticky_count.specs.declared.view.Act.TheVariants as act;

use crate::view::Knows;
use atomic_table::{Play, Split, TableRule};

pub struct Lawful;

impl TableRule<(), Knows, u32> for Lawful {
    ghost holds = { Kept };

    ghost first = { first };
}

/// The seat that may still split seats off gives that right to the next one.
pub(crate) struct SplitsOff;

impl Split<Knows> for SplitsOff {
    ghost left = { stays };

    ghost right = { split_off };
}

pub(crate) struct Adds;

impl Play<(), Knows> for Adds {
    ghost then = { λ _ me n new. Does act.Add me.0 n new.0 };
}

pub(crate) struct Subtracts;

impl Play<(), Knows> for Subtracts {
    ghost then = { λ _ me n new. Does act.Sub me.0 n new.0 };
}

pub(crate) struct Finishes;

impl Play<(), Knows> for Finishes {
    ghost then = { λ _ me n new. Does act.Finish me.0 n new.0 };
}

pub(crate) struct Takes;

impl Play<(), Knows> for Takes {
    ghost then = { λ _ me n new. Does act.Take me.0 n new.0 };
}

pub(crate) struct Loads;

impl Play<(), Knows> for Loads {
    ghost then = { λ _ me n new. Does act.Load me.0 n new.0 };
}

pub(crate) struct Marks;

impl Play<(), Knows> for Marks {
    ghost then = { λ _ me n new. Does act.Mark me.0 n new.0 };
}
