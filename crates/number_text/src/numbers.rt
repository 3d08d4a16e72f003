//! The numbers of a text.

ghost use Rattle.std.specs.Prelude.{◌≡◌, ◌≤◌, IfErr, IfOk, OnOk, length};
ghost use Rattle.number_text.specs.Numbers.{number_of, numbers_of, skipped_of};
ghost use Rattle.number_text.specs.Refused.{IsCauseOf};

use crate::error::NumbersError;
use bstr::ByteSlice;
use std::alloc::Global;
use std::str;

/// The numbers of a text, in its order and with repetition, and how many of its fields are no numbers.
#[derive(Drop)]
pub struct Numbers {
    pub numbers: Vec<u64>,
    pub skipped: u64,
}

/// The numbers of a text, in its order, and how many fields it skipped. A field, a maximal run of bytes without
/// White_Space, is a number where it is an optional `+` and one or more decimal digits, leading zeros allowed, and its
/// value is at most 2^64 - 1. Bytes that aren't UTF-8 count as no space. Linear in the bytes.
///
/// It is refused as too many exactly where there are more than `limit` numbers, and reads no further then; and an
/// allocation may fail.
pub fn read_numbers(alloc: Global, bytes: &[u8], limit: u64) -> Result<Numbers, NumbersError>
    ensures numbers { IfOk result (λ found. found.numbers.items ≡ numbers_of bytes.now) }
    ensures skipped { IfOk result (λ found. found.skipped ≡ skipped_of bytes.now) }

    // It succeeds only within the limit, and is refused as too many only past it.
    ensures within { OnOk result (length (numbers_of bytes.now) ≤ limit) }
    ensures refused { IfErr result (IsCauseOf bytes.now limit) }
{
    let mut numbers = Vec::new(alloc);
    let mut skipped = 0;
    for field in bytes.fields() {
        match number(field) {
            None => skipped += 1,
            Some(_) if numbers.len() as u64 == limit => return Err(NumbersError::TooMany),
            Some(number) => numbers.push(number)?,
        }
    }
    Ok(Numbers { numbers, skipped })
}

/// The number that a field is. None exactly where it is none. Linear in the bytes.
fn number(field: &[u8]) -> Option<u64>
    ensures { result ≡ number_of field.now }
{
    str::from_utf8(field).ok()?.parse().ok()
}
