//! Single calls on a queue and on letters, for a seat that is ready, and is ready again afterwards.
ghost use Rattle.std.specs.Prelude.{◌≡◌, ◌<◌, ◌++◌, ◌∷◌, [], IfErr, IfOk, IfSome};
ghost use Rattle.part_calls.specs.plain_state.Lists.{times};
ghost use Rattle.part_calls.specs.Parts.{as_part};
ghost use Rattle.hand_queues.specs.linked_queue.Pops.{OwnsBoth};
ghost use Rattle.hand_queues.specs.linked_queue.Pushes.{back_of};
ghost use Rattle.structure_tests.specs.Ready.{IsLetterIn, IsNew, IsReady, StandsAs};

use crate::letters::{HandleLetter, Letter, Letters, Mail};
use hand_queues::{HandQueue, PopError, PushError, PushRefused, QueueLaw};
use part_calls::{Domain, Left, Part, Right, Seat, SlotId, Spent, Still, Strong, read};
use std::sync::Wait;
use weak_intern::{MakeError, drop_strong};

/// Attaches a new seat to a queue that is laid, or will be.
pub(crate) fn attach<H: HandQueue, R: Wait>(
    rt: &R,
    domain: &Domain<Mail>,
    seat: &mut Seat<Mail>,
    queue: &H,
)
    requires new { IsNew domain.now seat.old }
    requires queue { H.is_on queue.now
        (as_part ⟦<Mail as Part<QueueLaw, Left>>⟧.part domain.now) }
    ensures stands { StandsAs seat.old seat.new }
    ensures ready { IsReady domain.now seat.new }
{
    queue.attach::<Left, Mail, R>(rt, domain, seat);
}

/// Makes a letter.
pub(crate) fn write(
    domain: &Domain<Mail>,
    seat: &mut Seat<Mail>,
    letter: Letter,
) -> Result<Strong, MakeError>
    requires ready { IsReady domain.now seat.old }
    ensures owned { IfOk result (λ item. 0 < times item.slot seat.new.view.core.owned) }
    ensures more { IfOk result (λ item. seat.new.view.core.owned
        ≡ seat.old.view.core.owned ++ item.slot ∷ []) }
    ensures letter { IfOk result (λ item. IsLetterIn item.slot seat.new) }
    ensures stands { StandsAs seat.old seat.new }
    ensures ready { IsReady domain.now seat.new }
{
    let Letter { sender, number } = letter;
    let payload = [1, sender, number, 0, 0, 0, 0, 0, 0, 0, 0, 0, 0, 0, 0, 0];
    part_calls::make::<Letters, Right, Mail, _>(domain, seat, &payload, HandleLetter)
}

/// Reads a letter that the seat has.
pub(crate) fn look(domain: &Domain<Mail>, seat: &mut Seat<Mail>, slot: SlotId) -> Letter
    requires ready { IsReady domain.now seat.old }
    requires owned { 0 < times slot seat.old.view.core.owned }
    ensures owned { seat.new.view.core.owned ≡ seat.old.view.core.owned }
    ensures stands { StandsAs seat.old seat.new }
    ensures ready { IsReady domain.now seat.new }
{
    let sender = read_word(domain, seat, slot, 1);
    let number = read_word(domain, seat, slot, 2);
    Letter { sender, number }
}

/// Reads a word of a letter that the seat has.
fn read_word(domain: &Domain<Mail>, seat: &mut Seat<Mail>, slot: SlotId, word: u32) -> u64
    requires ready { IsReady domain.now seat.old }
    requires owned { 0 < times slot seat.old.view.core.owned }
    requires word { word < 16 }
    ensures owned { seat.new.view.core.owned ≡ seat.old.view.core.owned }
    ensures stands { StandsAs seat.old seat.new }
    ensures ready { IsReady domain.now seat.new }
{
    read(domain, seat, slot, word)
}

/// Gives up a reference.
pub(crate) fn give_up(domain: &Domain<Mail>, seat: &mut Seat<Mail>, item: Strong)
    requires ready { IsReady domain.now seat.old }
    requires owned { 0 < times item.slot seat.old.view.core.owned }
    ensures stands { StandsAs seat.old seat.new }
    ensures ready { IsReady domain.now seat.new }
{
    drop_strong(domain, seat, item);
}

/// Reads a letter, and gives up the reference to it.
pub(crate) fn open(domain: &Domain<Mail>, seat: &mut Seat<Mail>, item: Strong) -> Letter
    requires ready { IsReady domain.now seat.old }
    requires owned { 0 < times item.slot seat.old.view.core.owned }
    ensures stands { StandsAs seat.old seat.new }
    ensures ready { IsReady domain.now seat.new }
{
    let letter = look(domain, seat, item.slot());
    give_up(domain, seat, item);
    letter
}

/// Pushes a letter, however often another seat is quicker, or hands it back.
pub(crate) fn push<H: HandQueue, R: Wait>(
    rt: &R,
    domain: &Domain<Mail>,
    seat: &mut Seat<Mail>,
    queue: &H,
    item: Strong,
) -> Result<(), PushRefused>
    requires ready { IsReady domain.now seat.old }
    requires queue { H.is_on queue.now
        (as_part ⟦<Mail as Part<QueueLaw, Left>>⟧.part domain.now) }
    requires owned { 0 < times item.slot seat.old.view.core.owned }
    ensures owned { IfErr result (λ refused.
        0 < times refused.back.slot seat.new.view.core.owned) }
    ensures stands { StandsAs seat.old seat.new }
    ensures ready { IsReady domain.now seat.new }
{
    queue.push::<Left, Mail, R>(rt, domain, seat, item)
}

/// The same in one try.
pub(crate) fn try_push<H: HandQueue>(
    domain: &Domain<Mail>,
    seat: &mut Seat<Mail>,
    queue: &H,
    item: Strong,
) -> Result<(), PushError>
    requires ready { IsReady domain.now seat.old }
    requires queue { H.is_on queue.now
        (as_part ⟦<Mail as Part<QueueLaw, Left>>⟧.part domain.now) }
    requires owned { 0 < times item.slot seat.old.view.core.owned }
    ensures owned { IfErr result (λ error.
        0 < times (back_of error).slot seat.new.view.core.owned) }
    ensures stands { StandsAs seat.old seat.new }
    ensures ready { IsReady domain.now seat.new }
{
    queue.try_push::<Left, Mail>(domain, seat, item)
}

/// Pops a letter, however often another seat is quicker; `None` where none was linked.
pub(crate) fn pop<H: HandQueue, R: Wait>(
    rt: &R,
    domain: &Domain<Mail>,
    seat: &mut Seat<Mail>,
    queue: &H,
) -> Result<Option<Strong>, Spent>
    requires ready { IsReady domain.now seat.old }
    requires queue { H.is_on queue.now
        (as_part ⟦<Mail as Part<QueueLaw, Left>>⟧.part domain.now) }
    ensures owned { IfOk result (λ found. IfSome found (λ item.
        0 < times item.slot seat.new.view.core.owned)) }
    ensures stands { StandsAs seat.old seat.new }
    ensures ready { IsReady domain.now seat.new }
{
    queue.pop::<Left, Mail, R>(rt, domain, seat)
}

/// The same in one try.
pub(crate) fn try_pop<H: HandQueue>(
    domain: &Domain<Mail>,
    seat: &mut Seat<Mail>,
    queue: &H,
) -> Result<Option<Strong>, PopError>
    requires ready { IsReady domain.now seat.old }
    requires queue { H.is_on queue.now
        (as_part ⟦<Mail as Part<QueueLaw, Left>>⟧.part domain.now) }
    ensures owned { IfOk result (λ found. IfSome found (λ item.
        0 < times item.slot seat.new.view.core.owned)) }
    ensures stands { StandsAs seat.old seat.new }
    ensures ready { IsReady domain.now seat.new }
{
    queue.try_pop::<Left, Mail>(domain, seat)
}

/// The same with what this field of the letter held.
pub(crate) fn try_pop_with<H: HandQueue>(
    domain: &Domain<Mail>,
    seat: &mut Seat<Mail>,
    queue: &H,
    field: u32,
) -> Result<Option<(Strong, Option<Strong>)>, PopError>
    requires ready { IsReady domain.now seat.old }
    requires queue { H.is_on queue.now
        (as_part ⟦<Mail as Part<QueueLaw, Left>>⟧.part domain.now) }
    requires field { field < 2 }
    ensures owned { IfOk result (λ found. IfSome found (λ pair.
        OwnsBoth pair seat.new.view.core)) }
    ensures stands { StandsAs seat.old seat.new }
    ensures ready { IsReady domain.now seat.new }
{
    queue.try_pop_with::<Left, Mail, _>(domain, seat, field, Still)
}
