//! A closure that weighs payloads, kept beside the fact that it does.
//!
//! The rule: a `Deleter` is made only of a closure that may be called on every payload that fits, and that answers
//! the payload's weight (`Weighs`). `keep` hands this fact on as a clause, and `call` asks for it, since a struct can't
//! hold a fact about a closure whose type is a parameter. Nothing is promised of what the closure does besides its
//! answer.
//!
//! ```text
//! let deleter: Deleter<FirstWord, _> = Deleter::keep(|payload: &[u64; 16]| payload[0]);
//! let weight = deleter.call(&payload);
//! ```
#![tactic(auto)]

ghost use Rattle.std.specs.Prelude.{◌≡◌};
ghost use Rattle.std.specs.Fn.{FnReturnsAt};
ghost use Rattle.deleter.specs.Weighing.{Weighs};

use std::marker::{Model, PhantomData};

/// A closure that answers the weight of every payload of kind `W`. Contracts see it as that closure.
#[derive(Drop)]
pub struct Deleter<W: PayloadKind, F: Fn(&[u64; 16]) -> u64> {
    closure: F,
    kind: PhantomData<W>,
}

impl<W: PayloadKind, F: Fn(&[u64; 16]) -> u64> Model for Deleter<W, F> {
    ghost Value = { F };

    ghost view = { λ d. d.closure };
}

impl<W: PayloadKind, F: Fn(&[u64; 16]) -> u64> Deleter<W, F> {
    /// Keeps a closure that may be called on every payload that fits `W`, and answers its weight. Calls nothing.
    pub fn keep(f: F) -> Deleter<W, F>
        requires { Weighs W.fits W.weight F.Fn f }
        ensures kept { result ≡ f }
        ensures weighs { Weighs W.fits W.weight F.Fn result }
    {
        Deleter {
            closure: f,
            kind: PhantomData,
        }
    }

    /// Calls the closure once, and answers the weight of the payload.
    pub fn call(&self, payload: &[u64; 16]) -> u64
        requires weighs { Weighs W.fits W.weight F.Fn self.now }
        requires fits { W.fits payload.now }
        ensures weight { result ≡ W.weight payload.now }
        ensures called { FnReturnsAt F.Fn self.now payload.now result }
    {
        (self.closure)(payload)
    }
}

pub use plain_state::{Heap, Kind, PayloadKind, SlotId, SlotImage, ZERO, value};
