//! The last lines of a text of counts.
ghost use Rattle.std.specs.Prelude.{◌≡◌, ◌++◌, ℕ, List};
ghost use Rattle.command_line.specs.cdrc_text.declared.row.Totals.{Totals};
ghost use Rattle.command_line.specs.cdrc_text.Report.{closing_lines};
ghost use Rattle.cdrc_run.specs.Closings.{EndsInLines, IsWholeLines};

/// How many lines stand after those of the words.
const CLOSING: u32 = 3;

/// The last three lines. Linear in their bytes.
pub(crate) fn last_lines(text: &[u8]) -> &[u8]
    requires { EndsInLines text.now }
    ensures { (front : List ℕ) (distinct : ℕ) (totals : Totals) → IsWholeLines front
        → text.now ≡ front ++ closing_lines distinct totals
        → result.now ≡ closing_lines distinct totals }
{
    let mut start = text.len();
    let mut feeds = 0;
    while start > 0 && (text[start - 1] != b'\n' || feeds < CLOSING) {
        start -= 1;
        if text[start] == b'\n' {
            feeds += 1;
        }
    }
    &text[start..]
}
