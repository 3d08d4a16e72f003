//! What one thread does, and what seat 0 does afterwards, with a vocabulary that all share.
ghost use Rattle.std.specs.Prelude.{◌<◌, ◌≤◌, IfOk};
ghost use Rattle.weak_intern.specs.directory_calls.Directories.{IsOver};
ghost use Rattle.structure_tests.specs.Texts.{HasLeft, IsReady};

use crate::text_calls::{find_once, intern_for_good, intern_once};
use part_calls::{Domain, Seat, SlotId};
use std::sync::Wait;
use weak_intern::{Directory, DirectoryLaw};

/// How many texts there are.
pub(crate) const WORDS: u32 = 2000;

/// A text of five bytes, by its number below 10,000.
fn word(number: u32) -> [u8; 5] {
    let digit = |power: u32| b'0' + (number / power % 10) as u8;
    [b'w', digit(1000), digit(100), digit(10), digit(1)]
}

/// Interns so many texts, which the seed draws, and gives each up at once; after each it looks for the next one, if it
/// is to find too. How many interns were refused.
pub(crate) fn make_turns<R: Wait>(
    rt: &R,
    domain: &Domain<DirectoryLaw>,
    seat: &mut Seat<DirectoryLaw>,
    directory: &Directory,
    turns: u32,
    seed: u64,
    finds: bool,
) -> u32
    requires ready { IsReady domain.now seat.old }
    requires over { IsOver domain.now domain.now.protocol directory.now }
    requires left { HasLeft turns seat.old }
    ensures left { HasLeft 0 seat.new }
    ensures ready { IsReady domain.now seat.new }
{
    let mut refused = 0;
    let mut state = seed;
    for _turn in 0..turns {
        state = state
            .wrapping_mul(6_364_136_223_846_793_005)
            .wrapping_add(1_442_695_040_888_963_407);
        let number = (state >> 33) as u32 % WORDS;
        if intern_once(rt, domain, seat, directory, &word(number)).is_none() {
            refused += 1;
        }
        if finds {
            let _found = find_once(rt, domain, seat, directory, &word(WORDS - 1 - number));
        }
    }
    refused
}

/// Interns each text once and for good, and looks for it. How many were found where they were interned.
pub(crate) fn intern_all<R: Wait>(
    rt: &R,
    domain: &Domain<DirectoryLaw>,
    seat: &mut Seat<DirectoryLaw>,
    directory: &Directory,
) -> u32
    requires ready { IsReady domain.now seat.old }
    requires over { IsOver domain.now domain.now.protocol directory.now }
    requires left { HasLeft 2000 seat.old }
    ensures ready { IsReady domain.now seat.new }
{
    let mut found: u32 = 0;
    for number in 0..WORDS {
        let slot = intern_for_good(rt, domain, seat, directory, &word(number));
        if slot.is_some() && find_once(rt, domain, seat, directory, &word(number)) == Ok(slot) {
            found += 1;
        }
    }
    found
}
