//! Adds that run out in the middle of a push and of a pop: nothing is pushed and nothing taken then.
ghost use Rattle.std.specs.Prelude.{◌<◌};
ghost use Rattle.part_calls.specs.plain_state.Lists.{times};
ghost use Rattle.part_calls.specs.Parts.{as_part};
ghost use Rattle.structure_tests.specs.Ready.{IsNew, IsReady};

use crate::calls::{attach, open, push, write};
use crate::laying::lay;
use crate::letters::{Letter, Mail};
use crate::opening::{Opened, WIDE, open_mail, take_last};
use crate::sending::send;
use crate::taking::take;
use hand_queues::{Form, HandQueue, QueueLaw};
use part_calls::{Domain, Left, Part, Quota, Seat, Spent};
use std::alloc::Global;
use std::sync::Wait;
use std::test::Fail;
use weak_intern::MakeError;

const POOR: Letter = Letter {
    sender: 1,
    number: 7,
};

const RICH: Letter = Letter {
    sender: 0,
    number: 8,
};

/// What the seat with few adds does.
#[derive(Clone, Copy, PartialEq, Eq, Debug, Drop)]
enum Deed {
    Push,
    Pop,
}

/// What the seat with few adds was answered: whether its letter was pushed, or why not, and the letter that it has back
/// then; or what it took.
#[derive(Clone, Copy, PartialEq, Eq, Debug, Drop)]
enum Answer {
    Pushed,
    Refused(MakeError, Letter),
    Took(Letter),
    Nothing,
    Spent,
}

/// The answer, and what two later pops of seat 0 found.
type Told = (Answer, [Option<Letter>; 2]);

/// The seat with few adds writes a letter and pushes it, or reads the one that is handed back.
fn push_with_few<H: HandQueue, R: Wait>(
    rt: &R,
    domain: &Domain<Mail>,
    poor: &mut Seat<Mail>,
    queue: &H,
) -> Option<Answer>
    requires poor { IsReady domain.now poor.old }
    requires queue { H.is_on queue.now
        (as_part ⟦<Mail as Part<QueueLaw, Left>>⟧.part domain.now) }
{
    let item = write(domain, poor, POOR).ok()?;
    match push(rt, domain, poor, queue, item) {
        Ok(()) => Some(Answer::Pushed),
        Err(refused) => {
            let why = refused.why;
            Some(Answer::Refused(why, open(domain, poor, refused.back)))
        }
    }
}

/// The deed of the seat with few adds. Seat 0 sends a letter, before a pop and after a push, and then takes two.
fn act_with_few<H: HandQueue, R: Wait>(
    rt: &R,
    domain: &Domain<Mail>,
    root: &mut Seat<Mail>,
    poor: &mut Seat<Mail>,
    queue: &H,
    deed: Deed,
) -> Option<Told>
    requires root { IsReady domain.now root.old }
    requires poor { IsNew domain.now poor.old }
    requires queue { H.is_on queue.now
        (as_part ⟦<Mail as Part<QueueLaw, Left>>⟧.part domain.now) }
{
    attach(rt, domain, poor, queue);
    let mut answer = Answer::Nothing;
    if deed == Deed::Push {
        answer = push_with_few(rt, domain, poor, queue)?;
    }
    send(rt, domain, root, queue, RICH).ok()?;
    if deed == Deed::Pop {
        answer = match take(rt, domain, poor, queue) {
            Ok(Some(letter)) => Answer::Took(letter),
            Ok(None) => Answer::Nothing,
            Err(Spent) => Answer::Spent,
        };
    }
    let first = take(rt, domain, root, queue).ok()?;
    let second = take(rt, domain, root, queue).ok()?;
    Some((answer, [first, second]))
}

/// The same in a new domain, where the seat has so many adds.
fn act_with<R: Wait>(
    rt: &R,
    alloc: Global,
    form: Form,
    deed: Deed,
    adds: u64,
) -> Result<Option<Told>, Fail> {
    let few = Quota { makes: 4, adds };
    let Opened {
        domain,
        mut root,
        mut others,
    } = open_mail(alloc, form, 2, 64, &[WIDE, few])?;
    let queue = lay(&domain, &mut root, form)?;
    let Some(mut poor) = take_last(&domain, &mut others) else {
        return Ok(None);
    };
    Ok(act_with_few(rt, &domain, &mut root, &mut poor, &queue, deed))
}

/// The least and the first number of adds with which each deed on each form is refused and isn't, and what is told in
/// both cases.
///
/// A push uses one for the letter, one for the node, one for the node's reference to the letter, one for that to the
/// last node, and one for that which makes the node the last one; on a doubly linked queue one more for the weak
/// reference to the node before. A pop uses four: for the head's node, for the next one, for its letter, and for the
/// head cell's reference to it.
const FEW: [(Form, Deed, u64, u64, Told, Told); 4] = [
    (Form::Linked, Deed::Push, 1, 5, UNPUSHED, PUSHED),
    (Form::Double, Deed::Push, 1, 6, UNPUSHED, PUSHED),
    (Form::Linked, Deed::Pop, 0, 4, UNPOPPED, POPPED),
    (Form::Double, Deed::Pop, 0, 4, UNPOPPED, POPPED),
];

const UNPUSHED: Told = (
    Answer::Refused(MakeError::AddsSpent, POOR),
    [Some(RICH), None],
);

const PUSHED: Told = (Answer::Pushed, [Some(POOR), Some(RICH)]);

const UNPOPPED: Told = (Answer::Spent, [Some(RICH), None]);

const POPPED: Told = (Answer::Took(RICH), [None, None]);

#[test]
fn a_call_that_runs_out_of_adds_changes_nothing(rt: HostRuntime) -> Result<(), Fail> {
    for (form, deed, least, enough, refused, done) in FEW {
        for adds in least..enough {
            let told = act_with(&rt, rt.alloc(), form, deed, adds)?;
            assert_eq!(rt; told, Some(refused), "{adds}");
        }
        let told = act_with(&rt, rt.alloc(), form, deed, enough)?;
        assert_eq!(rt; told, Some(done));
    }
    Ok(())
}
