//! Refusals of counts, whichever seats they hand back.
ghost use Rattle.std.specs.Prelude.{◌≡◌};
ghost use Rattle.cdrc_run.specs.Refusals.{of_epoch, of_words};

use crate::outcome::RefusedSeat;
use epoch_work::EpochRefused;
use words_work::{Refused, WordsRefused};

/// The refusal of a count by announcements, with its seat as one of either kind.
pub(crate) fn of_words(refusal: WordsRefused) -> Refused<RefusedSeat>
    ensures { result ≡ of_words refusal }
{
    match refusal {
        Refused::Read => Refused::Read,
        Refused::TooLarge => Refused::TooLarge,
        Refused::Full(seat) => Refused::Full(RefusedSeat::Words(seat)),
        Refused::Spent(seat) => Refused::Spent(RefusedSeat::Words(seat)),
        Refused::OutOfMemory => Refused::OutOfMemory,
    }
}

/// The refusal of a count in regions, with its seat as one of either kind.
pub(crate) fn of_epoch(refusal: EpochRefused) -> Refused<RefusedSeat>
    ensures { result ≡ of_epoch refusal }
{
    match refusal {
        Refused::Read => Refused::Read,
        Refused::TooLarge => Refused::TooLarge,
        Refused::Full(seat) => Refused::Full(RefusedSeat::Epoch(seat)),
        Refused::Spent(seat) => Refused::Spent(RefusedSeat::Epoch(seat)),
        Refused::OutOfMemory => Refused::OutOfMemory,
    }
}
