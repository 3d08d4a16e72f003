//! What becomes of a word of a core.
ghost use Rattle.std.specs.Prelude.{◌≡◌};
ghost use Rattle.core_law.specs.core_events.Steps.{next};
ghost use prog.Atomic.{either};

use core_law::{HELP, ZERO, announced_as};
use core_views::{Act, OwnView, bit_alone, held_as, slot_in_phase};

/// `new` where the condition holds, else the word that was there.
fn replaced(condition: bool, new: u64, word: u64) -> u64
    ensures { result ≡ either condition new word }
{
    if condition { new } else { word }
}

/// What becomes of the word that an act of the seat works on.
pub fn next_word(act: &Act, seat: &OwnView, word: u64) -> u64
    ensures { result ≡ next act.now seat.now word }
{
    match *act {
        Act::Add(_) | Act::Wadd(_) | Act::Ticket => word.wrapping_add(1),
        Act::Drop(_) | Act::Pay | Act::Wdrop(_) | Act::Destroy(_) => word.wrapping_sub(1),
        Act::Finish => replaced(word == 0, ZERO, word),
        Act::Take => word & !HELP,
        Act::Mark => replaced(word == 0, ZERO + HELP, word),
        Act::Announce(_, kind, slot) => announced_as(kind, slot),
        Act::Release(_) => 0,
        Act::Swap(_, new) => held_as(new),
        Act::Cas(_, old, new) => replaced(word == held_as(old), held_as(new), word),
        Act::Claim(slot) => word & !bit_alone(slot),
        Act::Fill(_, content) => content,
        Act::Arm | Act::Start => 1,
        Act::Free => match slot_in_phase(seat.phase()) {
            Some(slot) => word.wrapping_add(bit_alone(slot)),
            None => word,
        },
        Act::Count(_)
        | Act::Look(_)
        | Act::Check(_, _)
        | Act::Alive(_)
        | Act::Scan
        | Act::See(_, _)
        | Act::Wcount(_)
        | Act::Leave(_) => word,
    }
}
