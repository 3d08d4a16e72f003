//! How a seat that is alone destroys all that may be destroyed.
ghost use Rattle.std.specs.Prelude.{◌≡◌, ◌≤◌, ◌+◌};
ghost use Rattle.std.specs.Bool.{MatchBool};
ghost use Rattle.claim_law.specs.core_events.Steps.{HasRoom};
ghost use Rattle.retiring_stores.specs.control_word.Resting.{IsAtRest};
ghost use Rattle.deleter.specs.Weighing.{Weighs};
ghost use Rattle.retiring_stores.specs.domain_rule.Views.{IsAlone};
ghost use Rattle.retiring_stores.specs.acquire_retire.Collecting.{rest_of};
ghost use Rattle.slot_store.specs.Leftovers.{IsQuiet, LeavesCycles};
ghost use Rattle.slot_store.specs.Reaping.{KnowsBoth};
ghost use Rattle.slot_store.specs.Settling.{GoesOn, Quiets, Settles};
ghost use Rattle.slot_store.specs.Spending.{settle_most, steps_made};

use crate::reaping::reap;
use deleter::Deleter;
use protocol_pairs::Protocol;
use retiring_stores::{Domain, Seat, collect};

/// Collects, and tells whether that ejected an entry or left a slot ripe.
fn gathers<P: Protocol>(domain: &Domain<P>, seat: &mut Seat<P>) -> bool
    requires rest { IsAtRest domain.now seat.old }
    ensures { MatchBool result (GoesOn P.Kind.fits domain.now seat.old seat.new)
        (Quiets P.Kind.fits domain.now seat.old seat.new) }
{
    let deferred = domain.deferred(seat);
    collect(domain, seat);
    if domain.next_ripe(seat).is_some() {
        return true;
    }
    domain.deferred(seat) < deferred
}

/// Destroys all that a seat which is alone can destroy: it reaps and collects by turns, until no slot is ripe and a
/// collect ejects nothing. Answers the weights of all slots that it destroyed, added up; the deleter is called once
/// on the payload of each. Of what was retired or dying only that is left which snapshots of the seat's own keep.
/// Strong references that go round in a cycle keep their objects, and what these lead to.
///
/// For E retired entries and L objects these are at most 2·E + 8·L + 2 turns, each of at most 21 steps and four
/// collects. With the fields of the objects there may be F = E + 3·L entries to pay for. For A announcement words all
/// turns together take at most (F + L + 1)·A + 3·F + 21·L steps, those of F + L + 1 collects among them.
pub fn settle<P: Protocol, F: Fn(&[u64; 16]) -> u64>(
    domain: &Domain<P>,
    seat: &mut Seat<P>,
    deleter: &Deleter<P::Kind, F>,
) -> u64
    requires rest { IsAtRest domain.now seat.old }
    requires room { HasRoom seat.old.view.core }
    requires alone { IsAlone seat.old.view }
    requires weighs { Weighs P.Kind.fits P.Kind.weight F.Fn deleter.now }
    ensures settles { Settles P.Kind.fits domain.now P.Kind.weight result seat.old seat.new }
    ensures steps { steps_made seat.new ≤ steps_made seat.old + settle_most domain.now seat.old }
    ensures quiet { IsQuiet seat.new.view.core }
    ensures cycles { LeavesCycles seat.new.view }
    ensures same { rest_of seat.new.view.core ≡ rest_of seat.old.view.core }
    ensures alone { IsAlone seat.new.view }
    ensures client { seat.new.view.client ≡ seat.old.view.client }
    ensures objects { KnowsBoth seat.old seat.new }
    ensures room { HasRoom seat.new.view.core }
    ensures rest { IsAtRest domain.now seat.new }
{
    // The question tells that a seat which is alone knows the whole core, and so what is left to destroy.
    let _alone = domain.alone(seat);
    let mut weights = 0;
    loop {
        if let Some(weight) = reap(domain, seat, deleter) {
            weights += weight;
        } else if !gathers(domain, seat) {
            return weights;
        }
    }
}
