//! The seats of a domain that has just been opened.
ghost use Rattle.std.specs.Prelude.{All};
ghost use Rattle.acquire_retire.specs.core_events.Runs.{IsShape};
ghost use Rattle.acquire_retire.specs.core_events.Steps.{HasRoom};
ghost use Rattle.acquire_retire.specs.Domains.{DomainState};
ghost use Rattle.acquire_retire.specs.Openings.{opened_seats};
ghost use Rattle.control_word.specs.Resting.{IsAtRest};

use acquire_retire::Protocol;

/// Each seat of a domain that has just been opened is in no call, and has room for what a store retires. It does
/// nothing.
pub fn opened_seats_are_at_rest<P: Protocol>()
    ensures { (of : P) (d : DomainState P) → IsShape d.shape
        → All (λ s. IsAtRest d s × HasRoom s.view.core) (opened_seats (P.first of) d) }
{}
