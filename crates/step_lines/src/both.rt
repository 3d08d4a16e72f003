//! Two things that are read at once.
ghost use Rattle.std.specs.Prelude.{◌≡◌, ◌≢◌, ◌⊎◌, IfOk, Ok, Err};
ghost use Rattle.step_lines.specs.declared.refused.EventRefused.TheVariants.{Syntax, Range};

use crate::refused::EventRefused;

/// Both, if neither is refused. Where one is refused as syntax, so are both.
pub fn both<A: Drop, B: Drop>(
    first: Result<A, EventRefused>,
    second: Result<B, EventRefused>,
) -> Result<(A, B), EventRefused>
    ensures ok { IfOk result (λ r. (first ≡ Ok r.0) × (second ≡ Ok r.1)) }
    ensures syntax { result ≡ Err Syntax → (first ≡ Err Syntax) ⊎ (second ≡ Err Syntax) }
    ensures range { result ≡ Err Range → ((first ≡ Err Range) ⊎ (second ≡ Err Range))
        × (first ≢ Err Syntax) × (second ≢ Err Syntax) }
{
    match (first, second) {
        (Ok(first), Ok(second)) => Ok((first, second)),
        (Err(EventRefused::Syntax), _) | (_, Err(EventRefused::Syntax)) => Err(
            EventRefused::Syntax,
        ),
        _ => Err(EventRefused::Range),
    }
}
