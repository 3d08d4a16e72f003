//! A seat whose adds are used up: each call on a queue that needs one is refused, and nothing is lost; another seat's
//! work goes on; and once both have left, nothing is left.
ghost use Rattle.std.specs.Prelude.{◌<◌};
ghost use Rattle.part_calls.specs.plain_state.Lists.{times};
ghost use Rattle.part_calls.specs.Parts.{as_part};
ghost use Rattle.structure_tests.specs.Ready.{IsFree, IsNew, IsReady};

use crate::calls::{attach, give_up, pop, push, try_pop, try_pop_with, try_push, write};
use crate::laying::lay;
use crate::letters::{Letter, Mail};
use crate::opening::{BOTH, Opened, WIDE, open_mail, take_last};
use crate::sending::send;
use crate::taking::take;
use crate::tidying::{clear_out, leave_one, shut_down};
use hand_queues::{HandQueue, PopError, PushError, QueueLaw};
use part_calls::{
    Domain, Left, LoadError, Part, Place, Quota, Seat, Spent, Still, Strong, strong_count,
};
use std::sync::Wait;
use std::test::Fail;
use weak_intern::{MakeError, copy_strong, drop_strong, try_load};

const POOR: Letter = Letter {
    sender: 0,
    number: 5,
};

const RICH: Letter = Letter {
    sender: 1,
    number: 6,
};

/// Uses an add for a copy that is given up at once. Whether there was one.
fn use_add(domain: &Domain<Mail>, seat: &mut Seat<Mail>, item: &Strong) -> bool
    requires ready { IsReady domain.now seat.old }
    requires owned { 0 < times item.now.slot seat.old.view.core.owned }
    ensures owned { 0 < times item.now.slot seat.new.view.core.owned }
    ensures ready { IsReady domain.now seat.new }
{
    match copy_strong(domain, seat, item) {
        Ok(more) => {
            drop_strong(domain, seat, more);
            true
        }
        Err(Spent) => false,
    }
}

/// Uses up all adds, of which there are fewer than a hundred.
fn use_up(domain: &Domain<Mail>, seat: &mut Seat<Mail>, item: &Strong)
    requires ready { IsReady domain.now seat.old }
    requires owned { 0 < times item.now.slot seat.old.view.core.owned }
    ensures owned { 0 < times item.now.slot seat.new.view.core.owned }
    ensures ready { IsReady domain.now seat.new }
{
    for _add in 0..100 {
        if !use_add(domain, seat, item) {
            return;
        }
    }
}

/// What two pushes of one letter were refused with, and how many references count to it afterwards.
type NotPushed = (MakeError, MakeError, u64);

/// Pushes a letter in one try, and then waiting, and gives it up. `None` where it was pushed.
fn push_spent<H: HandQueue, R: Wait>(
    rt: &R,
    domain: &Domain<Mail>,
    seat: &mut Seat<Mail>,
    queue: &H,
    item: Strong,
) -> Option<NotPushed>
    requires ready { IsReady domain.now seat.old }
    requires queue { H.is_on queue.now
        (as_part ⟦<Mail as Part<QueueLaw, Left>>⟧.part domain.now) }
    requires owned { 0 < times item.slot seat.old.view.core.owned }
    ensures { IsReady domain.now seat.new }
{
    let Err(PushError::Refused(tried)) = try_push(domain, seat, queue, item) else {
        return None;
    };
    let first = tried.why;
    let Err(refused) = push(rt, domain, seat, queue, tried.back) else {
        return None;
    };
    let second = refused.why;
    let count = count_and_give_up(domain, seat, refused.back);
    Some((first, second, count))
}

/// The references to a letter, which is then given up.
fn count_and_give_up(domain: &Domain<Mail>, seat: &mut Seat<Mail>, item: Strong) -> u64
    requires ready { IsReady domain.now seat.old }
    requires owned { 0 < times item.slot seat.old.view.core.owned }
    ensures { IsReady domain.now seat.new }
{
    let count = strong_count(domain, seat, item.slot(), Still);
    give_up(domain, seat, item);
    count
}

/// Whether each pop, and a load of the node in the head cell, is refused for want of adds.
fn pops_are_spent<H: HandQueue, R: Wait>(
    rt: &R,
    domain: &Domain<Mail>,
    seat: &mut Seat<Mail>,
    queue: &H,
) -> bool
    requires ready { IsReady domain.now seat.old }
    requires queue { H.is_on queue.now
        (as_part ⟦<Mail as Part<QueueLaw, Left>>⟧.part domain.now) }
    ensures { IsReady domain.now seat.new }
{
    if domain.shape().cells == 0 {
        return false;
    }
    let Err(LoadError::Spent) = try_load(domain, seat, Place::Cell(0), Still) else {
        return false;
    };
    let Err(PopError::Spent) = try_pop(domain, seat, queue) else {
        return false;
    };
    let Err(PopError::Spent) = try_pop_with(domain, seat, queue, 0) else {
        return false;
    };
    pop(rt, domain, seat, queue).is_err()
}

/// What the pushes of a spent seat were refused with, whether its pops were too, and what the other seat took of what
/// it had sent.
type Told = (NotPushed, bool, Option<Letter>);

/// The poor seat writes a letter, uses up its adds, and tries to push and to pop, while the other one's letter waits;
/// which that one then takes.
fn go_on_beside<H: HandQueue, R: Wait>(
    rt: &R,
    domain: &Domain<Mail>,
    rich: &mut Seat<Mail>,
    poor: &mut Seat<Mail>,
    queue: &H,
) -> Option<Told>
    requires rich { IsNew domain.now rich.old }
    requires poor { IsNew domain.now poor.old }
    requires queue { H.is_on queue.now
        (as_part ⟦<Mail as Part<QueueLaw, Left>>⟧.part domain.now) }
    ensures rich { IsFree domain.now rich.new }
    ensures poor { IsFree domain.now poor.new }
{
    attach(rt, domain, rich, queue);
    attach(rt, domain, poor, queue);
    send(rt, domain, rich, queue, RICH).ok()?;
    let item = write(domain, poor, POOR).ok()?;
    use_up(domain, poor, &item);
    let refused = push_spent(rt, domain, poor, queue, item)?;
    let spent = pops_are_spent(rt, domain, poor, queue);
    let taken = take(rt, domain, rich, queue).ok()?;
    clear_out(rt, domain, poor);
    clear_out(rt, domain, rich);
    Some((refused, spent, taken))
}

#[test]
fn a_spent_seat_is_refused_and_loses_nothing(rt: HostRuntime) -> Result<(), Fail> {
    for form in BOTH {
        let few = Quota { makes: 4, adds: 9 };
        let Opened {
            domain,
            mut root,
            mut others,
        } = open_mail(rt.alloc(), form, 3, 64, &[WIDE, WIDE, few])?;
        let queue = lay(&domain, &mut root, form)?;
        let mut poor = take_last(&domain, &mut others).expect(&rt, "seat 2");
        let mut rich = take_last(&domain, &mut others).expect(&rt, "seat 1");
        let told = go_on_beside(&rt, &domain, &mut rich, &mut poor, &queue);
        let refused = (MakeError::AddsSpent, MakeError::AddsSpent, 1);
        assert_eq!(rt; told, Some((refused, true, Some(RICH))));
        leave_one(&domain, &mut root, poor);
        leave_one(&domain, &mut root, rich);
        let left = shut_down(rt.alloc(), &domain, &mut root, &queue)?;
        assert_eq!(rt; left, Some((0, 0)));
    }
    Ok(())
}
