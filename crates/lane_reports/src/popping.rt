//! What is left of the queue is popped.
ghost use Rattle.std.specs.Prelude.{◌≡◌, ◌^◌, ◌+◌, ◌≤◌, ◌<◌, [], IfErr, OnOk};
ghost use Rattle.tally_sums.specs.cdrc_text.Tally.{total_of};
ghost use Rattle.lane_domain.specs.lane_files.Passed.{Takes, UsesInterns};
ghost use Rattle.lane_domain.specs.lane_files.Draining.{IsWhyNotDrained};
ghost use Rattle.lane_domain.specs.lane_files.Ready.{IsReady, Owns};

use crossbeam_utils::Backoff;
use domain_audit::{Domain, Seat};
use lane_domain::{LaneError, Shared, WordsLaw, take_one};
use std::sync::Wait;
use tally_sums::Tally;

/// Pops so many items and counts their words. Where none is linked it tries again, so it waits for ever where fewer
/// are left and nobody pushes.
///
/// It is refused as one `take_one` is, after some that counted. No make.
pub fn take_all<R: Wait>(
    rt: &R,
    domain: &Domain<WordsLaw>,
    seat: &mut Seat<WordsLaw>,
    shared: &Shared,
    most: u64,
    tally: &mut Tally,
) -> Result<(), LaneError>
    requires ready { IsReady domain.now shared.now seat.old }
    requires few { total_of tally.old + most ≤ 2 ^ 63 }
    ensures takes { OnOk result (Takes [] most seat.old.view.client seat.new.view.client
        tally.old tally.new) }
    ensures why { IfErr result (λ error. IsWhyNotDrained most error seat.old seat.new
        tally.old tally.new) }
    ensures makes { seat.new.view.core.makes ≡ seat.old.view.core.makes }
    ensures interns { UsesInterns 0 seat.old.view.client seat.new.view.client }
    ensures owns { Owns seat.old.view.core.owned seat.old seat.new }
    ensures ready { IsReady domain.now shared.now seat.new }
{
    let mut room = [0; 4096];
    for _taken in 0..most {
        take_next(rt, domain, seat, shared, tally, &mut room)?;
    }
    Ok(())
}

/// Pops the next item, as soon as one is linked, and counts its word.
fn take_next<R: Wait>(
    rt: &R,
    domain: &Domain<WordsLaw>,
    seat: &mut Seat<WordsLaw>,
    shared: &Shared,
    tally: &mut Tally,
    room: &mut [u8; 4096],
) -> Result<(), LaneError>
    requires ready { IsReady domain.now shared.now seat.old }
    requires few { total_of tally.old < 2 ^ 63 }
    ensures takes { OnOk result (Takes [] 1 seat.old.view.client seat.new.view.client
        tally.old tally.new) }
    ensures why { IfErr result (λ error. IsWhyNotDrained 1 error seat.old seat.new
        tally.old tally.new) }
    ensures makes { seat.new.view.core.makes ≡ seat.old.view.core.makes }
    ensures interns { UsesInterns 0 seat.old.view.client seat.new.view.client }
    ensures owns { Owns seat.old.view.core.owned seat.old seat.new }
    ensures ready { IsReady domain.now shared.now seat.new }
{
    let backoff = Backoff::new();
    for _try in rt.forever() {
        if take_one(rt, domain, seat, shared, tally, room)? {
            return Ok(());
        }
        backoff.spin();
    }
    unreachable!()
}
