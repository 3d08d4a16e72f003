//! A closure that reacts to events, kept beside an id and the fact that it does.
//!
//! The rule: a `Callback` is made only of a closure that may be called on every event that a reaction takes for the id,
//! and that answers as the reaction says (`ReactsAs`). `keep` hands this fact on as a clause, and `call` asks for it,
//! since a struct can't hold a fact about a closure whose type is a parameter. Nothing is promised of what the closure
//! does besides its answer; and no call of the library keeps one yet.
//!
//! ```text
//! let callback: Callback<Sum, _> = Callback::keep(id, |event: u64| event + id as u64);
//! let answer = callback.call(event);
//! ```
#![tactic(auto)]

ghost use Rattle.std.specs.Prelude.{◌≡◌, ℕ};
ghost use Rattle.std.specs.Fn.{FnReturns};
ghost use Rattle.callbacks.specs.Reacting.{ReactsAs};

use std::marker::{Model, PhantomData};

/// Which events each id takes, and with which answers it reacts.
pub trait Reaction {
    /// The id takes this event.
    ghost takes: { ℕ → ℕ → Type 0 };

    /// The id reacts to this event with this answer.
    ghost reacts: { ℕ → ℕ → ℕ → Type 0 };
}

/// A closure, and the id for which it reacts as `R` says. Contracts see it as the two.
#[derive(Drop)]
pub struct Callback<R: Reaction, F: Fn(u64) -> u64> {
    number: u32,
    closure: F,
    reaction: PhantomData<R>,
}

impl<R: Reaction, F: Fn(u64) -> u64> Model for Callback<R, F> {
    ghost Value = { ℕ × F };

    ghost view = { λ c. (c.number, c.closure) };
}

impl<R: Reaction, F: Fn(u64) -> u64> Callback<R, F> {
    /// Keeps a closure that may be called on every event that `R` takes for this id, and answers as `R` says. Calls
    /// nothing.
    pub fn keep(id: u32, f: F) -> Callback<R, F>
        requires { ReactsAs R.takes R.reacts F.Fn id f }
        ensures kept { result ≡ (id, f) }
        ensures reacts { ReactsAs R.takes R.reacts F.Fn result.0 result.1 }
    {
        Callback {
            number: id,
            closure: f,
            reaction: PhantomData,
        }
    }

    /// The id for which it was kept.
    pub fn id(&self) -> u32
        ensures { result ≡ self.now.0 }
    {
        self.number
    }

    /// Calls the closure once, with an event that `R` takes for the id, and answers as `R` says.
    pub fn call(&self, event: u64) -> u64
        requires kept { ReactsAs R.takes R.reacts F.Fn self.now.0 self.now.1 }
        requires takes { R.takes self.now.0 event }
        ensures reacts { R.reacts self.now.0 event result }
        ensures called { FnReturns F.Fn self.now.1 (event, tt) result }
    {
        (self.closure)(event)
    }
}
