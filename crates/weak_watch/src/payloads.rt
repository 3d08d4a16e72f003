//! What observers and deliveries are as words.
ghost use Rattle.std.specs.Prelude.{◌≡◌};
ghost use Rattle.weak_watch.specs.Subjects.{words};

/// The payload of an observer or a delivery: word 0 says what the object is, 1 or 2, word 1 what it tells, its id or
/// its event, and the others are zeros. It takes no step.
pub(crate) fn payload_with(what: u64, told: u64) -> [u64; 16]
    ensures { result ≡ words what told }
{
    [what, told, 0, 0, 0, 0, 0, 0, 0, 0, 0, 0, 0, 0, 0, 0]
}
