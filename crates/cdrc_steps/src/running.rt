//! A core on the way, and how many events it made.
use cdrc_core::Core;
use std::marker::Model;

/// A core, and how many events it made.
#[derive(Drop)]
pub struct Running {
    pub(crate) core: Core,
    pub(crate) events: u64,
}

impl Model for Running {
    ghost use Rattle.cdrc_steps.specs.Runnings.{Running as Whole};

    ghost Value = { Whole };

    ghost view = { λ r. record { shape = r.core.shape; core = r.core.core; events = r.events } };
}

/// What takes the lines of a text of steps: nothing before the shape, then a core.
#[derive(Drop)]
pub struct StepMachine {
    pub(crate) running: Option<Running>,
}

impl Model for StepMachine {
    ghost use Rattle.std.specs.Prelude.{Option};
    ghost use Rattle.cdrc_steps.specs.Runnings.{Running as Whole};

    ghost Value = { Option Whole };

    ghost view = { λ m. m.running };
}
