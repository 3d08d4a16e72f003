//! A whole list of events.
ghost use Rattle.std.specs.Prelude.{ℕ, ◌≡◌, ◌↔◌, ◌<◌, ◌+◌, [], IfOk, OnOk, Err, length, take};
ghost use Rattle.core_law.specs.core_events.declared.shape.ShapeField.{ShapeField};
ghost use Rattle.core_law.specs.core_events.Runs.{AreEnabled, AreTerms, IsShape, outcomes, run, start};
ghost use Rattle.core_views.specs.core_functions.Fields.{IsFirstBad};
ghost use Rattle.cdrc_core.specs.Replays.{IsFirstRefused};
ghost use Rattle.cdrc_core.specs.declared.errors.StartError.TheVariants.{BadShape};
ghost use Rattle.cdrc_core.specs.declared.errors.StepError.TheVariants.{NotEnabled, OutOfMemory};
ghost use Rattle.cdrc_core.specs.declared.errors.ReplayError.TheVariants.{At, Start};
ghost use Rattle.cdrc_core.specs.State.{terms};

use crate::errors::ReplayError;
use crate::machine::Core;
use core_law::Event;
use core_views::{Outcome, Quota, Shape};
use std::alloc::Global;

impl Core {
    /// `replay_granted`, where tickets grant nothing.
    pub fn replay(
        alloc: Global,
        shape: Shape,
        quotas: &[Quota],
        events: &[Event],
    ) -> Result<(Core, Vec<Outcome>), ReplayError>
        ensures enabled { OnOk result (IsShape shape × AreTerms shape (terms quotas.now [])
            × AreEnabled shape (start shape (terms quotas.now [])) events.now) }
        ensures ok { IfOk result (λ p. p.0 ≡ record {
          shape = shape;
          core = run shape (start shape (terms quotas.now [])) events.now;
        }) }
        ensures told { IfOk result (λ p. p.1.items
            ≡ outcomes shape (start shape (terms quotas.now [])) events.now) }
        ensures bad { (f : ShapeField) → (result ≡ Err (Start (BadShape f)))
            ↔ IsFirstBad shape (terms quotas.now []) f }
        ensures refused { (i : ℕ) → result ≡ Err (At i NotEnabled)
            → IsFirstRefused shape (start shape (terms quotas.now [])) events.now i }
        ensures memory { (i : ℕ) → result ≡ Err (At i OutOfMemory) → (i < length events.now)
            × AreEnabled shape (start shape (terms quotas.now []))
            (take (i + 1) events.now) }
    {
        Core::replay_granted(alloc, shape, quotas, &[], events)
    }

    /// Starts a core with these grants and makes these events in turn: the core after them, and what
    /// each answers. It stops at the first event that isn't enabled, and tells its place, counted
    /// from 0.
    pub fn replay_granted(
        alloc: Global,
        shape: Shape,
        quotas: &[Quota],
        grants: &[u64],
        events: &[Event],
    ) -> Result<(Core, Vec<Outcome>), ReplayError>
        ensures enabled { OnOk result (IsShape shape × AreTerms shape (terms quotas.now grants.now)
            × AreEnabled shape (start shape (terms quotas.now grants.now)) events.now) }
        ensures ok { IfOk result (λ p. p.0 ≡ record {
          shape = shape;
          core = run shape (start shape (terms quotas.now grants.now)) events.now;
        }) }
        ensures told { IfOk result (λ p. p.1.items
            ≡ outcomes shape (start shape (terms quotas.now grants.now)) events.now) }
        ensures bad { (f : ShapeField) → (result ≡ Err (Start (BadShape f)))
            ↔ IsFirstBad shape (terms quotas.now grants.now) f }
        ensures refused { (i : ℕ) → result ≡ Err (At i NotEnabled)
            → IsFirstRefused shape (start shape (terms quotas.now grants.now)) events.now i }
        ensures memory { (i : ℕ) → result ≡ Err (At i OutOfMemory) → (i < length events.now)
            × AreEnabled shape (start shape (terms quotas.now grants.now))
            (take (i + 1) events.now) }
    {
        let mut core = Core::start_granted(alloc, shape, quotas, grants)?;
        let mut outcomes = Vec::with_capacity(alloc, events.len())?;
        for (at, event) in events.iter().enumerate() {
            match core.step(event) {
                Ok(outcome) => outcomes.push_reserved(outcome),
                Err(error) => return Err(ReplayError::At(at, error)),
            }
        }
        Ok((core, outcomes))
    }
}
