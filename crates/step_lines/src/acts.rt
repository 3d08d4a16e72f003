//! The act that the words after a seat's number spell.
ghost use Rattle.std.specs.Prelude.{◌≡◌, [], ◌∷◌, codes};
ghost use Rattle.line_words.specs.Words.{texts_of};
ghost use Rattle.step_lines.specs.Beyond.{IsBeyondAct, IsBeyondSlot, IsTooLarge};
ghost use Rattle.step_lines.specs.Reading.{Reads};
ghost use Rattle.step_lines.specs.Spelling.{Each, Number, Slot, SpellsAct};

use crate::arguments::{
    parse_content, parse_kind, parse_number, parse_place, parse_slot, parse_value,
};
use crate::both::both;
use crate::refused::EventRefused;
use core_events::{Act, SlotId};

/// The act that the words spell: the name of its event, and its arguments.
pub fn parse_act(words: &[&[u8]]) -> Result<Act, EventRefused>
    ensures { Reads (SpellsAct (texts_of words.now)) IsBeyondAct result }
{
    match words.split_first() {
        None => Err(EventRefused::Syntax),
        Some((name, words)) => named(name, words),
    }
}

// The act whose event has this name, with these arguments.
fn named(name: &[u8], words: &[&[u8]]) -> Result<Act, EventRefused>
    ensures { Reads (SpellsAct (name.now ∷ texts_of words.now)) IsBeyondAct result }
{
    match name {
        b"add" => slot(words).map(Act::Add),
        b"drop" => slot(words).map(Act::Drop),
        b"pay" => alone(words, Act::Pay),
        b"finish" => alone(words, Act::Finish),
        b"take" => alone(words, Act::Take),
        b"count" => slot(words).map(Act::Count),
        b"mark" => alone(words, Act::Mark),
        b"announce" => announce(words),
        b"release" => one_number(words).map(Act::Release),
        b"look" => look(words),
        b"check" => check(words),
        b"alive" => one_number(words).map(Act::Alive),
        b"scan" => alone(words, Act::Scan),
        b"swap" => swap(words),
        b"cas" => cas(words),
        b"claim" => slot(words).map(Act::Claim),
        b"arm" => alone(words, Act::Arm),
        b"fill" => fill(words),
        b"start" => alone(words, Act::Start),
        b"see" => see(words),
        b"free" => alone(words, Act::Free),
        b"ticket" => alone(words, Act::Ticket),
        b"wadd" => slot(words).map(Act::Wadd),
        b"wdrop" => slot(words).map(Act::Wdrop),
        b"destroy" => slot(words).map(Act::Destroy),
        b"wcount" => slot(words).map(Act::Wcount),
        b"leave" => one_number(words).map(Act::Leave),
        _ => Err(EventRefused::Syntax),
    }
}

// The act, which has no arguments.
fn alone(words: &[&[u8]], act: Act) -> Result<Act, EventRefused>
    ensures { Reads (λ a. (a ≡ act) × Each [] (texts_of words.now)) (λ a. ⊥) result }
{
    if words.is_empty() {
        Ok(act)
    } else {
        Err(EventRefused::Syntax)
    }
}

// The one argument of an act on a slot.
fn slot(words: &[&[u8]]) -> Result<SlotId, EventRefused>
    ensures { Reads (λ s. Each (Slot s ∷ []) (texts_of words.now)) IsBeyondSlot result }
{
    let [slot] = words else {
        return Err(EventRefused::Syntax);
    };
    parse_slot(slot)
}

// `announce` with its arguments.
fn announce(words: &[&[u8]]) -> Result<Act, EventRefused>
    ensures { Reads (SpellsAct (codes "announce" ∷ texts_of words.now)) IsBeyondAct result }
{
    let [note, kind, slot] = words else {
        return Err(EventRefused::Syntax);
    };
    let kind = both(parse_kind(kind), parse_slot(slot));
    let (note, (kind, slot)) = both(parse_number(note), kind)?;
    Ok(Act::Announce(note, kind, slot))
}

// The one argument of an act on a note or a seat.
fn one_number(words: &[&[u8]]) -> Result<u32, EventRefused>
    ensures { Reads (λ n. Each (Number n ∷ []) (texts_of words.now)) IsTooLarge result }
{
    let [number] = words else {
        return Err(EventRefused::Syntax);
    };
    parse_number(number)
}

// `look` with its argument.
fn look(words: &[&[u8]]) -> Result<Act, EventRefused>
    ensures { Reads (SpellsAct (codes "look" ∷ texts_of words.now)) IsBeyondAct result }
{
    let [place] = words else {
        return Err(EventRefused::Syntax);
    };
    Ok(Act::Look(parse_place(place)?))
}

// `check` with its arguments.
fn check(words: &[&[u8]]) -> Result<Act, EventRefused>
    ensures { Reads (SpellsAct (codes "check" ∷ texts_of words.now)) IsBeyondAct result }
{
    let [note, place] = words else {
        return Err(EventRefused::Syntax);
    };
    let (note, place) = both(parse_number(note), parse_place(place))?;
    Ok(Act::Check(note, place))
}

// `swap` with its arguments.
fn swap(words: &[&[u8]]) -> Result<Act, EventRefused>
    ensures { Reads (SpellsAct (codes "swap" ∷ texts_of words.now)) IsBeyondAct result }
{
    let [place, new] = words else {
        return Err(EventRefused::Syntax);
    };
    let (place, new) = both(parse_place(place), parse_content(new))?;
    Ok(Act::Swap(place, new))
}

// `cas` with its arguments.
fn cas(words: &[&[u8]]) -> Result<Act, EventRefused>
    ensures { Reads (SpellsAct (codes "cas" ∷ texts_of words.now)) IsBeyondAct result }
{
    let [place, old, new] = words else {
        return Err(EventRefused::Syntax);
    };
    let contents = both(parse_content(old), parse_content(new));
    let (place, (old, new)) = both(parse_place(place), contents)?;
    Ok(Act::Cas(place, old, new))
}

// `fill` with its arguments.
fn fill(words: &[&[u8]]) -> Result<Act, EventRefused>
    ensures { Reads (SpellsAct (codes "fill" ∷ texts_of words.now)) IsBeyondAct result }
{
    let [word, value] = words else {
        return Err(EventRefused::Syntax);
    };
    let (word, value) = both(parse_number(word), parse_value(value))?;
    Ok(Act::Fill(word, value))
}

// `see` with its arguments.
fn see(words: &[&[u8]]) -> Result<Act, EventRefused>
    ensures { Reads (SpellsAct (codes "see" ∷ texts_of words.now)) IsBeyondAct result }
{
    let [slot, word] = words else {
        return Err(EventRefused::Syntax);
    };
    let (slot, word) = both(parse_slot(slot), parse_number(word))?;
    Ok(Act::See(slot, word))
}
