//! What a change answers.
ghost use Rattle.std.specs.Prelude.{◌≡◌};
ghost use Rattle.version_changes.specs.declared.outcome.ChangeError.TheVariants as error;

use slot_store::{MakeError, Strong};

/// A subtree after a change.
#[derive(Debug, Drop)]
pub struct Changed {
    /// Its root; none where it is null.
    pub tree: Option<Strong>,
    /// What the key had before the change; none where it was absent.
    pub answer: Option<u64>,
}

/// Why a subtree wasn't changed.
#[derive(Clone, Copy, PartialEq, Eq, Debug, Drop)]
pub enum ChangeError {
    /// A node wasn't made, or no reference to one was taken.
    Refused(MakeError),
    /// The way to the key, or from there to the next one, has more nodes than the call was allowed.
    TooLong,
}

impl From<MakeError> for ChangeError {
    ghost from_gives = { λ why e. e ≡ error.Refused why };

    fn from(why: MakeError) -> ChangeError {
        ChangeError::Refused(why)
    }
}

/// The least pair of a subtree, and the subtree without it.
#[derive(Debug, Drop)]
pub(crate) struct Least {
    pub key: u64,
    pub value: u64,
    pub rest: Option<Strong>,
}
