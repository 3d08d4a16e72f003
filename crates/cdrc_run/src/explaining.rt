//! What a status means.
ghost use Rattle.std.specs.Prelude.{◌≡◌, ◌≢◌, IfErr, IfOk};
ghost use Rattle.std_io.specs.declared.io.kind.ErrorKind.TheVariants as kinds;
ghost use Rattle.cdrc_run.specs.Statuses.{line_for};

use std::io::ErrorKind;

/// The status that the process ends with: that of the run; where the words of the command line couldn't be had, 9 for
/// an allocation failure, and else 2, since a word that isn't UTF-8 is no word of the grammar.
pub fn exit_status(outcome: Result<u8, ErrorKind>) -> u8
    ensures ran { IfOk outcome (λ status. result ≡ status) }
    ensures memory { outcome ≡ Err kinds.OutOfMemory → result ≡ 9 }
    ensures other { IfErr outcome (λ kind. kind ≢ kinds.OutOfMemory → result ≡ 2) }
{
    match outcome {
        Ok(status) => status,
        Err(ErrorKind::OutOfMemory) => 9,
        Err(_) => 2,
    }
}

/// The line for a status on standard error; empty where the work was done.
pub fn explain(status: u8) -> &'static str
    ensures { result.now ≡ line_for status }
{
    match status {
        0 => "",
        2 => "cdrc_words: usage",
        3 => "cdrc_words: read fault",
        4 => "cdrc_words: write fault",
        5 => "cdrc_words: input too large",
        6 => "cdrc_words: slots full",
        7 => "cdrc_words: counts spent",
        8 => "cdrc_words: line refused",
        _ => "cdrc_words: out of memory",
    }
}
