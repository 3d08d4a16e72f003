//! Values that are numbers.
ghost use Rattle.std.specs.Prelude.{⊤};
ghost use Rattle.example_threads.specs.Numbers.{weightless};

use cdrc::PayloadKind;

/// How often each thread does its work.
pub const TURNS: u64 = 1000;

/// Payloads whose first word is a number, whatever it is. They weigh nothing.
pub struct NumberKind;

impl PayloadKind for NumberKind {
    ghost fits = { λ words. ⊤ };

    ghost weight = { λ words. 0 };

    fn weigh(_payload: &[u64; 16]) -> u64 {
        0
    }

    ghost bounded = { weightless };
}

/// The payload that holds a number.
pub fn payload_of(number: u64) -> [u64; 16] {
    let mut payload = [0; 16];
    payload[0] = number;
    payload
}
