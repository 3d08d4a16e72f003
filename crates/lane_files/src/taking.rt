//! An item is popped, and its word counted.
ghost use Rattle.std.specs.Prelude.{◌≡◌, ◌^◌, ◌<◌, false, ℕ, List, [], Ok, IfErr, IfOk, cond};
ghost use Rattle.control_word.specs.plain_state.Lists.{times};
ghost use Rattle.words_protocol.specs.cdrc_text.Tally.{total_of};
ghost use Rattle.control_word.specs.Resting.{IsAtRest};
ghost use Rattle.control_word.specs.core_events.Steps.{HasRoom};
ghost use Rattle.control_word.specs.core_events.Views.{without};
ghost use Rattle.weak_intern.specs.text_reading.Reading.{HasTwoFree};
ghost use Rattle.lane_files.specs.Passed.{OnlyReads, ReadsWord, Takes, TalliesIf, UsesInterns};
ghost use Rattle.lane_files.specs.Ready.{HasPoppedIn, IsReady, Owns};
ghost use Rattle.lane_files.specs.Whys.{FindsNoItem, IsWhyNotTaken};

use crate::reading::begin_read;
use crate::refusal::LaneError;
use crate::shared::Shared;
use control_word::{Domain, PayloadKind, Seat, SlotId, Spent, Strong, drop_strong};
use hand_queues::{HandQueue, MakeError};
use std::sync::Wait;
use weak_intern::read_text;
use words_protocol::{Left, NodeKind, OutOfMemory, PairKind, RecordKind, Right, Tally, WordsLaw};

/// Pops an item, if one is linked, and counts its word, which it reads into `room`. True exactly where it popped one;
/// false only where nothing was linked behind the head's node at a step of the call. `Refused` is `AddsSpent`, and
/// comes only where no add is left; then nothing is popped. After `OutOfMemory` an item is popped whose word is a new
/// one, and isn't counted. The tally is as it was after false and after a refusal. No make. At most 29 steps and two
/// collects for each try of the pop, and 700 steps more. It may wait for other threads.
pub fn take_one<R: Wait>(
    rt: &R,
    domain: &Domain<WordsLaw>,
    seat: &mut Seat<WordsLaw>,
    shared: &Shared,
    tally: &mut Tally,
    room: &mut [u8; 4096],
) -> Result<bool, LaneError>
    requires ready { IsReady domain.now shared.now seat.old }
    requires few { total_of tally.old < 2 ^ 63 }
    ensures takes { IfOk result (λ one. Takes [] (cond one 1 0) seat.old.view.client
        seat.new.view.client tally.old tally.new) }
    ensures none { result ≡ Ok false → FindsNoItem
        ⟦<PairKind<NodeKind, RecordKind> as PayloadKind>⟧.fits domain.now seat.old seat.new }
    ensures why { IfErr result (λ error. IsWhyNotTaken error seat.old seat.new
        tally.old tally.new) }
    ensures makes { seat.new.view.core.makes ≡ seat.old.view.core.makes }
    ensures interns { UsesInterns 0 seat.old.view.client seat.new.view.client }
    ensures owns { Owns seat.old.view.core.owned seat.old seat.new }
    ensures ready { IsReady domain.now shared.now seat.new }
{
    match shared.queue.pop::<Left, WordsLaw, R>(rt, domain, seat) {
        Ok(Some(item)) => {
            tally_item(domain, seat, item, tally, room)?;
            Ok(true)
        }
        Ok(None) => Ok(false),
        Err(Spent) => Err(LaneError::Refused(MakeError::AddsSpent)),
    }
}

/// Reads the word of an item that the seat popped, counts it, and gives the seat's reference up.
fn tally_item(
    domain: &Domain<WordsLaw>,
    seat: &mut Seat<WordsLaw>,
    item: Strong,
    tally: &mut Tally,
    room: &mut [u8; 4096],
) -> Result<(), OutOfMemory>
    requires rest { IsAtRest domain.now seat.old }
    requires room { HasRoom seat.old.view.core }
    requires free { HasTwoFree seat.old.view.core }
    requires owned { 0 < times item.slot seat.old.view.core.owned }
    requires popped { HasPoppedIn item.slot seat.old }
    requires few { total_of tally.old < 2 ^ 63 }
    ensures counts { (word : List ℕ) × ReadsWord item.slot word seat.old seat.new
        × TalliesIf result word tally.old tally.new }
    ensures only { OnlyReads seat.old.view.client seat.new.view.client }
    ensures makes { seat.new.view.core.makes ≡ seat.old.view.core.makes }
    ensures owns { Owns (without item.slot seat.old.view.core.owned) seat.old seat.new }
    ensures room { HasRoom seat.new.view.core }
    ensures rest { IsAtRest domain.now seat.new }
{
    let counted = tally_slot(domain, seat, item.slot(), tally, room);
    drop_strong(domain, seat, item);
    counted
}

/// Reads the word of an item that the seat popped, and counts it.
fn tally_slot(
    domain: &Domain<WordsLaw>,
    seat: &mut Seat<WordsLaw>,
    slot: SlotId,
    tally: &mut Tally,
    room: &mut [u8; 4096],
) -> Result<(), OutOfMemory>
    requires rest { IsAtRest domain.now seat.old }
    requires room { HasRoom seat.old.view.core }
    requires free { HasTwoFree seat.old.view.core }
    requires owned { 0 < times slot seat.old.view.core.owned }
    requires popped { HasPoppedIn slot seat.old }
    requires few { total_of tally.old < 2 ^ 63 }
    ensures counts { (word : List ℕ) × ReadsWord slot word seat.old seat.new
        × TalliesIf result word tally.old tally.new }
    ensures only { OnlyReads seat.old.view.client seat.new.view.client }
    ensures owned { 0 < times slot seat.new.view.core.owned }
    ensures makes { seat.new.view.core.makes ≡ seat.old.view.core.makes }
    ensures owns { Owns seat.old.view.core.owned seat.old seat.new }
    ensures room { HasRoom seat.new.view.core }
    ensures rest { IsAtRest domain.now seat.new }
{
    begin_read(domain, seat, slot);
    let size = read_text::<Right, WordsLaw>(domain, seat, slot, room);
    tally.add(&room[..size as usize])
}
