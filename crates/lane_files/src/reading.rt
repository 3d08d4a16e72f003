//! The text of an item that was popped.
ghost use Rattle.std.specs.Prelude.{◌≡◌, ◌<◌, ◌∷◌};
ghost use Rattle.control_word.specs.plain_state.Lists.{times};
ghost use Rattle.control_word.specs.Resting.{IsAtRest};
ghost use Rattle.control_word.specs.core_events.Steps.{HasRoom};
ghost use Rattle.control_word.specs.domain_rule.Views.{object_in};
ghost use Rattle.words_protocol.specs.directory_law.Payloads.{IsHead};
ghost use Rattle.weak_intern.specs.text_reading.Reading.{begun};
ghost use Rattle.lane_files.specs.Passed.{begins};
ghost use Rattle.lane_files.specs.Ready.{HasPoppedIn, Owns};

use control_word::{Domain, EventPlace, Seat, SlotId};
use words_protocol::{BeginRead, WordsLaw};

/// Begins to read an item that the seat popped, in the life in which it owns it: its payload is that of a head. One
/// step.
pub(crate) fn begin_read(domain: &Domain<WordsLaw>, seat: &mut Seat<WordsLaw>, slot: SlotId)
    requires rest { IsAtRest domain.now seat.old }
    requires room { HasRoom seat.old.view.core }
    requires owned { 0 < times slot seat.old.view.core.owned }
    requires popped { HasPoppedIn slot seat.old }
    ensures begun { seat.new.view.client ≡ begins (begun slot seat.new) seat.old.view.client }
    ensures head { IsHead (object_in seat.new.view slot).payload }
    ensures owned { seat.new.view.core.owned ≡ seat.old.view.core.owned }
    ensures makes { seat.new.view.core.makes ≡ seat.old.view.core.makes }
    ensures owns { Owns seat.old.view.core.owned seat.old seat.new }
    ensures room { HasRoom seat.new.view.core }
    ensures rest { IsAtRest domain.now seat.new }
{
    domain.look(seat, EventPlace::Field(slot, 1), BeginRead);
}
