//! What a client puts into its slots.
ghost use Rattle.std.specs.Prelude.{◌≡◌, ◌≤◌, ◌^◌, ℕ, List};

/// Which payloads a client makes, and what each of them weighs.
pub trait PayloadKind {
    /// The client makes objects with this payload.
    ghost fits: { List ℕ → Type 0 };

    /// What such an object weighs, at most 2^32.
    ghost weight: { List ℕ → ℕ };

    /// The weight of a payload that fits.
    fn weigh(payload: &[u64; 16]) -> u64
        requires { fits payload.now }
        ensures { result ≡ weight payload.now };

    ghost bounded: { (words : List ℕ) → fits words → weight words ≤ 2 ^ 32 };
}
