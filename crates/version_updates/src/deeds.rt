//! The deeds of a load and of a look that tell how high the root is.
ghost use Rattle.map_law.specs.Lessons.{AnswerReady, SeeReady, answer_next, see_next};
ghost use Rattle.version_updates.specs.Longest.{StillTells, still_keeps};
ghost use Rattle.version_updates.specs.Roots.{LowTells, low_keeps};

use atomic_shared::Deed;
use map_protocol::MapLaw;

/// The root cell is looked at: `LoadRoot`, which tells besides that the root isn't higher than there are slots.
#[derive(Clone, Copy, Drop)]
pub struct LoadLowRoot;

impl Deed<MapLaw> for LoadLowRoot {
    ghost ready = { λ it of. SeeReady of.cell };

    ghost next = { λ it of. see_next };

    ghost allows = { λ it of. LowTells of.cell };

    ghost keeps = { λ it of. low_keeps of.cell };
}

/// The root cell is looked at: `AnswerRead`, which tells besides that the seat has read no way down from the root that
/// is longer than its height tells.
#[derive(Clone, Copy, Drop)]
pub struct LookAtVersion;

impl Deed<MapLaw> for LookAtVersion {
    ghost ready = { λ it of. AnswerReady of.cell };

    ghost next = { λ it of. answer_next };

    ghost allows = { λ it of. StillTells of.cell };

    ghost keeps = { λ it of. still_keeps of.cell };
}
