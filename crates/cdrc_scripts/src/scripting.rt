//! What takes the lines of a script.
use domain_desk::DomainDesk;
use std::marker::Model;

/// What takes the lines of a script: nothing before the heap, then a desk whose heap is settled.
#[derive(Drop)]
pub struct ScriptMachine {
    pub(crate) desk: Option<DomainDesk>,
}

impl Model for ScriptMachine {
    ghost use Rattle.cdrc_scripts.specs.Domains.{IsSettledDesk, Place};

    ghost Value = { Place };

    ghost view = { λ m. m.desk };

    ghost invariant = { λ m. IsSettledDesk m.desk };
}
