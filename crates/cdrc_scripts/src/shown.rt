//! The lines of an audit.
ghost use Rattle.std.specs.Prelude.{◌≡◌, ◌++◌, OnOk, codes, string_bytes};
ghost use Rattle.std.specs.List.{flat_map};
ghost use Rattle.cdrc_scripts.specs.SaidLines.{audit_lines, numbers_line, walk_line};

use line_machine::{OutOfMemory, push_number};
use script_law::Shown;

/// Appends a space and each of the names.
fn push_names(text: &mut Vec<u8>, names: &[String]) -> Result<(), OutOfMemory>
    ensures { OnOk result
        (text.new.items
        ≡ text.old.items ++ flat_map (λ name. codes " " ++ string_bytes name) names.now) }
{
    for name in names {
        text.push(b' ')?;
        text.extend_from_slice(name.as_bytes())?;
    }
    Ok(())
}

/// Appends the walk, where there is one.
fn push_walk(text: &mut Vec<u8>, shown: &Shown) -> Result<(), OutOfMemory>
    ensures { OnOk result (text.new.items ≡ text.old.items ++ walk_line shown.now) }
{
    if shown.cyclic == 0 {
        return Ok(());
    }
    text.extend_from_slice(b"walk")?;
    push_names(text, &shown.walk)?;
    text.push(b'\n')?;
    Ok(())
}

/// Appends the name and the numbers of an audit.
fn push_numbers(text: &mut Vec<u8>, name: &[u8], shown: &Shown) -> Result<(), OutOfMemory>
    ensures { OnOk result (text.new.items ≡ text.old.items ++ numbers_line name.now shown.now) }
{
    text.extend_from_slice(name)?;
    push_number(text, b" live ", shown.live)?;
    push_number(text, b" deferred ", shown.deferred)?;
    push_number(text, b" cyclic ", shown.cyclic)?;
    push_number(text, b" bytes ", shown.bytes)?;
    text.extend_from_slice(b"\n")?;
    Ok(())
}

/// Appends what an audit shows.
pub(crate) fn push_shown(text: &mut Vec<u8>, shown: &Shown) -> Result<(), OutOfMemory>
    ensures { OnOk result (text.new.items ≡ text.old.items ++ audit_lines shown.now) }
{
    push_numbers(text, b"audit", shown)?;
    push_walk(text, shown)
}
