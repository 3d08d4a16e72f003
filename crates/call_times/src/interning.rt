//! Turns that intern texts, and their time.
ghost use Rattle.std.specs.Prelude.{◌≡◌, ◌<◌, ◌≤◌, ◌+◌, true, IfSome};
ghost use Rattle.weak_intern.specs.directory_calls.Directories.{IsOver};
ghost use Rattle.call_times.specs.Interning.{HasGrants, HasInterned, HasLeft, IsFreeToIntern, IsReadyToIntern, Spends};

use crate::clock::Tenths;
use crate::directory::{OpenedDirectory, TURNS, open_directory};
use crate::fault::Fault;
use crate::jobs::in_threads;
use std::alloc::Global;
use std::rt::Clock;
use std::sync::Wait;
use std::thread::Threads;
use std::time::Instant;
use turn_loops::{Domain, Placing, Seat};
use weak_intern::{Directory, DirectoryLaw, draw, intern};

/// How many texts there are: w0, w1 and so on.
const TEXTS: u64 = 5000;

/// The wall time of one turn, where so many threads intern texts at once. No time is told where an intern was refused.
pub fn time_interns<R: Threads + Wait + Clock + Sync>(
    rt: &R,
    alloc: Global,
    placing: Placing,
    threads: u32,
) -> Result<Tenths, Fault>
    requires { (1 ≤ threads) × (threads ≤ 15) }
{
    let OpenedDirectory {
        domain,
        root: _root,
        workers,
    } = open_directory(alloc, placing, threads)?;
    let start = Instant::now(rt)?;
    let all = in_threads(rt, alloc, workers, &|seat| work(rt, &domain, seat, threads))?;
    let elapsed = start.elapsed(rt)?;
    if !all {
        return Err(Fault::Turns);
    }
    Ok(Tenths::of_each(elapsed, u64::from(TURNS)))
}

/// What the thread of one seat does: it draws a ticket, for the interns of all its turns, and makes them. The number of
/// its ticket is the seed. The seat, where all of them were made: it has used an intern in each.
fn work<R: Wait>(
    rt: &R,
    domain: &Domain<DirectoryLaw>,
    mut seat: Seat<DirectoryLaw>,
    threads: u32,
) -> Option<Seat<DirectoryLaw>>
    requires free { IsFreeToIntern domain.now seat }
    requires grants { HasGrants threads domain.now }
    ensures { IfSome result (λ made. HasInterned 250000 made) }
{
    let number = draw_turns(domain, &mut seat, threads)?;
    intern_all(rt, domain, &mut seat, number + 1).then_some(seat)
}

/// Draws a ticket. Its number, if it gives the interns of all turns.
fn draw_turns(
    domain: &Domain<DirectoryLaw>,
    seat: &mut Seat<DirectoryLaw>,
    threads: u32,
) -> Option<u64>
    requires free { IsFreeToIntern domain.now seat.old }
    requires grants { HasGrants threads domain.now }
    ensures low { IfSome result (λ number. number < threads) }
    ensures left { IfSome result (λ number. HasLeft 250000 seat.new) }
    ensures ready { IsReadyToIntern domain.now seat.new }
{
    let number = draw(domain, seat).ok()?;
    if number < u64::from(threads) {
        Some(number)
    } else {
        None
    }
}

/// Makes the turns of a thread: each interns one of the texts, which the seed draws. Whether all of them were made.
fn intern_all<R: Wait>(
    rt: &R,
    domain: &Domain<DirectoryLaw>,
    seat: &mut Seat<DirectoryLaw>,
    seed: u64,
) -> bool
    requires ready { IsReadyToIntern domain.now seat.old }
    requires over { (domain.now.protocol.first ≡ 0) × (0 < domain.now.shape.weak_cells)
        × (domain.now.protocol.cells ≡ domain.now.shape.weak_cells) }
    requires left { HasLeft 250000 seat.old }
    ensures { result ≡ true → HasInterned 250000 seat.new }
{
    let directory = Directory::over(0, domain.shape().weak_cells);
    let mut state = seed;
    for _turn in 0..TURNS {
        state = state
            .wrapping_mul(6_364_136_223_846_793_005)
            .wrapping_add(1_442_695_040_888_963_407);
        if !intern_one(rt, domain, seat, &directory, (state >> 33) % TEXTS) {
            return false;
        }
    }
    true
}

/// Interns the text of a number below 10,000, and keeps the reference for good: what was interned once lives on.
/// Whether it was interned.
fn intern_one<R: Wait>(
    rt: &R,
    domain: &Domain<DirectoryLaw>,
    seat: &mut Seat<DirectoryLaw>,
    directory: &Directory,
    number: u64,
) -> bool
    requires ready { IsReadyToIntern domain.now seat.old }
    requires over { IsOver domain.now domain.now.protocol directory.now }
    requires left { HasLeft 1 seat.old }
    ensures spends { Spends 1 seat.old seat.new }
    ensures interned { result ≡ true
        → seat.new.view.client.used ≡ seat.old.view.client.used + 1 }
    ensures ready { IsReadyToIntern domain.now seat.new }
{
    let digit = |power: u64| b'0' + (number / power % 10) as u8;
    let mut text = [b'w', digit(1000), digit(100), digit(10), digit(1)];
    let zeros = leading_zeros(number);
    text[zeros] = b'w';
    intern(rt, domain, seat, directory, &text[zeros..]).is_ok()
}

/// How many of the four digits of a number come before its first one.
fn leading_zeros(number: u64) -> usize
    ensures { result ≤ 3 }
{
    match number {
        0..=9 => 3,
        10..=99 => 2,
        100..=999 => 1,
        _ => 0,
    }
}
