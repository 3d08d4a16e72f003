//! The line that tells a refusal.

ghost use Rattle.std.specs.Prelude.{◌≡◌, ◌++◌, OnOk, OnErr};
ghost use Rattle.line_words.specs.Refused.{reason_text, refused_line};

use crate::reason::Reason;
use cdrc_text::{OutOfMemory, push_number};

/// Puts `line N refused: REASON` and a line feed at the end. A refusal, for an allocation failure, leaves the text as
/// it was.
pub fn push_refused(text: &mut Vec<u8>, line: u64, reason: Reason) -> Result<(), OutOfMemory>
    ensures ok { OnOk result (text.new.items ≡ text.old.items ++ refused_line line reason) }
    ensures err { OnErr result (text.new.items ≡ text.old.items) }
{
    let mut told = Vec::new(*text.allocator());
    push_number(&mut told, b"line ", line)?;
    told.extend_from_slice(b" refused: ")?;
    told.extend_from_slice(spelled(reason))?;
    told.push(b'\n')?;
    text.extend_from_slice(&told)?;
    Ok(())
}

// The word or words for a reason.
fn spelled(reason: Reason) -> &'static [u8]
    ensures { result.now ≡ reason_text reason }
{
    match reason {
        Reason::Syntax => b"syntax",
        Reason::Range => b"range",
        Reason::Name => b"name",
        Reason::Kind => b"kind",
        Reason::NotEnabled => b"not enabled",
    }
}
