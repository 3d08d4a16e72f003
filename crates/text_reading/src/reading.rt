//! The text of a record.
ghost use Rattle.std.specs.Prelude.{◌≡◌, ◌+◌, ◌<◌, ◌≤◌, length, slice_index, take};
ghost use Rattle.snapshot_ptr.specs.plain_state.Lists.{times};
ghost use Rattle.slot_store.specs.core_events.Steps.{HasRoom};
ghost use Rattle.slot_store.specs.domain_rule.Views.{object_in};
ghost use Rattle.slot_store.specs.control_word.Resting.{IsAtRest};
ghost use Rattle.directory_calls.specs.directory_law.Payloads.{IsHead, Text};
ghost use Rattle.directory_calls.specs.Learning.{LearnsIn};
ghost use Rattle.directory_calls.specs.Steps.{Leaves};
ghost use Rattle.text_reading.specs.Reading.{AreBytesOf, HasBegun, HasRead, HasTwoFree};

use crate::copying::put_payload;
use crate::going_on::{Hold, go_on, let_go};
use crate::payloads::payload_of;
use directory_calls::HasDirectory;
use slot_store::{Domain, Seat};
use snapshot_ptr::SlotId;

/// Reads the text of the record in a slot that the seat owns strongly, of which it has begun to
/// read the head, and puts its bytes, 1 to 4,096, at the begin of `out`. The result is their
/// number; what stands behind them in `out` is of no meaning. 16 steps for the head and 20 for each
/// part, at most 696.
pub fn read_text<S, P: HasDirectory<S>>(
    domain: &Domain<P>,
    seat: &mut Seat<P>,
    slot: SlotId,
    out: &mut [u8; 4096],
) -> u32
    requires rest { IsAtRest domain.now seat.old }
    requires room { HasRoom seat.old.view.core }
    requires held { 0 < times slot seat.old.view.core.owned }
    requires begun { HasBegun P.seen slot seat.old }
    requires head { IsHead (object_in seat.old.view slot).payload }
    requires free { HasTwoFree seat.old.view.core }
    ensures reads { (text : Text) × AreBytesOf P.Kind.fits (take result out.new) text
        × HasRead P.seen slot text seat.new }
    ensures size { result ≡ slice_index (object_in seat.old.view slot).payload 0 }
    ensures leaves { Leaves seat.old.view.core.owned seat.old.view.core.weaks seat.old seat.new }
    ensures learns { LearnsIn P.seen P.with_seen 0 seat.old.view.client seat.new.view.client }
    ensures makes { seat.new.view.core.makes ≡ seat.old.view.core.makes }
    ensures adds { seat.new.view.core.adds ≡ seat.old.view.core.adds }
    ensures few { length seat.new.view.core.trail ≤ length seat.old.view.core.trail + 696 }
    ensures room { HasRoom seat.new.view.core }
    ensures rest { IsAtRest domain.now seat.new }
{
    let head = payload_of(domain, seat, slot);
    let size = head[0] as u32;
    put_payload(&head, size.min(120), out, 0);
    let mut last = Hold { slot, word: None };
    for part in 0..(size - 1) / 120 {
        let done = 120 * (part + 1);
        last = go_on(domain, seat, last);
        let words = payload_of(domain, seat, last.slot);
        put_payload(&words, (size - done).min(120), out, done);
    }
    let_go(domain, seat, last);
    size
}
