//! The line that a command writes.
ghost use Rattle.std.specs.Prelude.{◌≡◌, ◌++◌, OnOk, codes};
ghost use Rattle.std.specs.Fmt.{decimal};
ghost use Rattle.cdrc_scripts.specs.SaidLines.{HasSmallWord, said_line, told};

use crate::shown::push_shown;
use line_machine::{OutOfMemory, push_number};
use script_law::{Command, Name, Said};

/// Appends `WORD NAME ANSWER` and a line feed.
fn push_told(text: &mut Vec<u8>, word: &[u8], name: &Name, answer: &[u8]) -> Result<(), OutOfMemory>
    ensures { OnOk result (text.new.items ≡ text.old.items ++ told word.now name.now answer.now) }
{
    text.extend_from_slice(word)?;
    text.push(b' ')?;
    text.extend_from_slice(name.as_str().as_bytes())?;
    text.push(b' ')?;
    text.extend_from_slice(answer)?;
    text.push(b'\n')?;
    Ok(())
}

/// Appends `read NAME I V` and a line feed.
fn push_word(text: &mut Vec<u8>, name: &Name, word: u64, value: u64) -> Result<(), OutOfMemory>
    ensures { OnOk result (text.new.items ≡ text.old.items
        ++ told (codes "read") name.now (decimal word ++ codes " " ++ decimal value)) }
{
    text.extend_from_slice(b"read ")?;
    text.extend_from_slice(name.as_str().as_bytes())?;
    push_number(text, b" ", word)?;
    push_number(text, b" ", value)?;
    text.push(b'\n')?;
    Ok(())
}

/// Appends `counts NAME strong S weak W` and a line feed.
fn push_counts(text: &mut Vec<u8>, name: &Name, strong: u64, weak: u64) -> Result<(), OutOfMemory>
    ensures { OnOk result (text.new.items ≡ text.old.items
        ++ told (codes "counts") name.now
        (codes "strong " ++ decimal strong ++ codes " weak " ++ decimal weak)) }
{
    text.extend_from_slice(b"counts ")?;
    text.extend_from_slice(name.as_str().as_bytes())?;
    push_number(text, b" strong ", strong)?;
    push_number(text, b" weak ", weak)?;
    text.push(b'\n')?;
    Ok(())
}

/// Appends what is told of a command on a place that is replaced.
fn push_replaced(text: &mut Vec<u8>, answer: &[u8]) -> Result<(), OutOfMemory>
    ensures { OnOk result (text.new.items
        ≡ text.old.items ++ codes "cas " ++ answer.now ++ codes "\n") }
{
    text.extend_from_slice(b"cas ")?;
    text.extend_from_slice(answer)?;
    text.push(b'\n')?;
    Ok(())
}

/// Appends the line of a command that answered so; most commands write none.
pub(crate) fn push_said(
    text: &mut Vec<u8>,
    command: &Command,
    said: &Said,
) -> Result<(), OutOfMemory>
    requires { HasSmallWord command.now }
    ensures { OnOk result (text.new.items ≡ text.old.items ++ said_line command.now said.now) }
{
    match (command, said) {
        (Command::Make(name, _), Said::Made) => push_told(text, b"make", name, b"ok"),
        (Command::Make(name, _), Said::Full) => push_told(text, b"make", name, b"full"),
        (Command::Upgrade(name, _), Said::Up) => push_told(text, b"up", name, b"ok"),
        (Command::Upgrade(name, _), Said::Dead) => push_told(text, b"up", name, b"dead"),
        (Command::Load(_, new), Said::Loaded) => push_told(text, b"load", new, b"ok"),
        (Command::Load(_, new), Said::Null) => push_told(text, b"load", new, b"null"),
        (Command::Replace(_, _, _), Said::Done) => push_replaced(text, b"done"),
        (Command::Replace(_, _, _), Said::Lost) => push_replaced(text, b"lost"),
        (Command::Snap(_, new), Said::Snapped) => push_told(text, b"snap", new, b"ok"),
        (Command::Snap(_, new), Said::Counted) => push_told(text, b"snap", new, b"counted"),
        (Command::Snap(_, new), Said::Null) => push_told(text, b"snap", new, b"null"),
        (Command::Read(name, word), Said::Word(value)) => {
            push_word(text, name, *word as u64, *value)
        }
        (Command::Counts(name), Said::Counts(strong, weak)) => {
            push_counts(text, name, *strong, *weak)
        }
        (Command::Audit, Said::Audited(shown)) => push_shown(text, shown),
        _ => Ok(()),
    }
}
