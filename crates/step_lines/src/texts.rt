//! The line of an event and its outcome.
ghost use Rattle.std.specs.Prelude.{◌≡◌, ◌++◌, OnOk, OnErr};
ghost use Rattle.step_lines.specs.Texts.{content_text, event_name, event_text, outcome_text};

use core_events::{Act, Outcome, SlotId};
use line_words::{OutOfMemory, push_number};

/// Puts the event's name, a space, its outcome and a line feed at the end. A refusal, for an allocation failure,
/// leaves the text as it was.
pub fn push_event(text: &mut Vec<u8>, act: &Act, outcome: &Outcome) -> Result<(), OutOfMemory>
    ensures ok { OnOk result (text.new.items ≡ text.old.items ++ event_text act.now outcome.now) }
    ensures err { OnErr result (text.new.items ≡ text.old.items) }
{
    let mut line = Vec::new(*text.allocator());
    line.extend_from_slice(name_of(*act))?;
    line.push(b' ')?;
    push_outcome(&mut line, *outcome)?;
    line.push(b'\n')?;
    text.extend_from_slice(&line)?;
    Ok(())
}

// The name of an act's event.
fn name_of(act: Act) -> &'static [u8]
    ensures { result.now ≡ event_name act }
{
    match act {
        Act::Add(_) => b"add",
        Act::Drop(_) => b"drop",
        Act::Pay => b"pay",
        Act::Finish => b"finish",
        Act::Take => b"take",
        Act::Count(_) => b"count",
        Act::Mark => b"mark",
        Act::Announce(..) => b"announce",
        Act::Release(_) => b"release",
        Act::Look(_) => b"look",
        Act::Check(..) => b"check",
        Act::Alive(_) => b"alive",
        Act::Scan => b"scan",
        Act::Swap(..) => b"swap",
        Act::Cas(..) => b"cas",
        Act::Claim(_) => b"claim",
        Act::Arm => b"arm",
        Act::Fill(..) => b"fill",
        Act::Start => b"start",
        Act::See(..) => b"see",
        Act::Free => b"free",
        Act::Ticket => b"ticket",
        Act::Wadd(_) => b"wadd",
        Act::Wdrop(_) => b"wdrop",
        Act::Destroy(_) => b"destroy",
        Act::Wcount(_) => b"wcount",
        Act::Leave(_) => b"leave",
    }
}

// Puts an outcome at the end.
fn push_outcome(text: &mut Vec<u8>, outcome: Outcome) -> Result<(), OutOfMemory>
    ensures { OnOk result (text.new.items ≡ text.old.items ++ outcome_text outcome) }
{
    match outcome {
        Outcome::Plain => push(text, b"ok"),
        Outcome::Up => push(text, b"up"),
        Outcome::Dead => push(text, b"dead"),
        Outcome::Left => push(text, b"left"),
        Outcome::Zeroed => push(text, b"zero"),
        Outcome::Last => push(text, b"last"),
        Outcome::Ended => push(text, b"ended"),
        Outcome::Help => push(text, b"help"),
        Outcome::Lost => push(text, b"lost"),
        Outcome::NoHelp => push(text, b"none"),
        Outcome::Again => push(text, b"again"),
        Outcome::Number(value) => push_number(text, b"", value),
        Outcome::Found(content) => push_content(text, b"", content),
        Outcome::Valid => push(text, b"valid"),
        Outcome::Moved(content) => push_content(text, b"moved ", content),
        Outcome::Word(word) => push_number(text, b"", word),
        Outcome::Split(word, kept, ejected) => push_split(text, word, kept, ejected),
        Outcome::Done => push(text, b"done"),
        Outcome::LostTo(content) => push_content(text, b"lost ", content),
        Outcome::Claimed => push(text, b"claimed"),
        Outcome::Taken(word) => push_number(text, b"taken ", word),
        Outcome::Alive => push(text, b"alive"),
    }
}

// Puts these bytes at the end.
fn push(text: &mut Vec<u8>, bytes: &[u8]) -> Result<(), OutOfMemory>
    ensures { OnOk result (text.new.items ≡ text.old.items ++ bytes.now) }
{
    text.extend_from_slice(bytes)?;
    Ok(())
}

// Puts a label and then a slot's number, or `null`, at the end.
fn push_content(
    text: &mut Vec<u8>,
    label: &[u8],
    content: Option<SlotId>,
) -> Result<(), OutOfMemory>
    ensures { OnOk result (text.new.items ≡ text.old.items ++ label.now ++ content_text content) }
{
    match content {
        None => {
            push(text, label)?;
            push(text, b"null")
        }
        Some(slot) => push_number(text, label, u64::from(slot.0)),
    }
}

// Puts the last word of a scan at the end, and how many entries stay and go.
fn push_split(text: &mut Vec<u8>, word: u64, kept: u32, ejected: u32) -> Result<(), OutOfMemory>
    ensures { OnOk result
        (text.new.items ≡ text.old.items ++ outcome_text (Outcome.Split word kept ejected)) }
{
    push_number(text, b"", word)?;
    push_number(text, b" kept ", u64::from(kept))?;
    push_number(text, b" ejected ", u64::from(ejected))
}
