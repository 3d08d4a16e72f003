//! The line of an event.
ghost use Rattle.std.specs.Prelude.{◌≡◌, IfOk, Err};
ghost use Rattle.core_events.specs.declared.act.Event.{Event as AnyEvent};
ghost use Rattle.line_words.specs.Words.{texts_of};
ghost use Rattle.step_lines.specs.Beyond.{IsBeyond};
ghost use Rattle.step_lines.specs.Spelling.{SpellsEvent};
ghost use Rattle.step_lines.specs.declared.refused.EventRefused.TheVariants.{Syntax, Range};

use crate::acts::parse_act;
use crate::arguments::parse_number;
use crate::both::both;
use crate::refused::EventRefused;
use core_events::Event;

/// The event that the words spell. They are refused as syntax exactly where they spell none, and else as a range where
/// its seat or a number of its act is 2^32 or more, or the value of a `fill` 2^64 or more. Linear in the bytes.
pub fn event_line(words: &[&[u8]]) -> Result<Event, EventRefused>
    ensures ok { IfOk result (λ e. SpellsEvent (texts_of words.now) e) }
    ensures syntax { result ≡ Err Syntax →
        (e : AnyEvent) → SpellsEvent (texts_of words.now) e → ⊥ }
    ensures range { result ≡ Err Range →
        (e : AnyEvent) × SpellsEvent (texts_of words.now) e × IsBeyond e }
{
    let Some((seat, act)) = words.split_first() else {
        return Err(EventRefused::Syntax);
    };
    let (seat, act) = both(parse_number(seat), parse_act(act))?;
    Ok(Event { seat, act })
}
