//! The settings of `words`.
ghost use Rattle.std.specs.Prelude.{IfSome, IsNone};
ghost use Rattle.command_line.specs.Requests.{AreSettings};
ghost use Rattle.command_line.specs.declared.settings.Settings.{Settings as Set};

use crate::options::{double, lanes, protect, rounds, slots, suits_queue};
use clap::ArgMatches;
use run_requests::Protect;

/// How the words of files are counted.
#[derive(Clone, Copy, Drop)]
pub(crate) struct Settings {
    pub lanes: u32,
    pub rounds: u64,
    pub slots: Option<u32>,
    pub double: bool,
    pub protect: Protect,
}

/// The settings that the options mean. None exactly where they mean none.
pub(crate) fn settings_of(matches: &ArgMatches<'_>) -> Option<Settings>
    ensures found { IfSome result (AreSettings matches.now) }
    ensures none { IsNone result → (settings : Set) → AreSettings matches.now settings → ⊥ }
{
    let protect = protect(matches)?;
    if !suits_queue(matches, protect) {
        return None;
    }
    Some(Settings {
        lanes: lanes(matches)?,
        rounds: rounds(matches)?,
        slots: slots(matches)?,
        double: double(matches)?,
        protect,
    })
}
