//! The words after a command, as clap reads them.
//!
//! Clap and the grammar differ at one place. After an option clap takes no next word that begins with `-` and has two
//! or more bytes, where the grammar takes any word as the value. No such value means anything: the words are refused
//! either way, and nothing is tested before clap sees them. `ArePlain` says that there is no such value.
ghost use Rattle.std.specs.Prelude.{◌≡◌, List, IfOk, IfSome, IsNone, drop, false, map, string_bytes, true};
ghost use Rattle.std.specs.declared.option.Option.{Option as Maybe};
ghost use Rattle.clap.specs.Simple.{app_of};
ghost use Rattle.clap.specs.Walk.{rule_of};
ghost use Rattle.command_line.specs.Found.{app_with, are_names, option_rule, ArePlain, Shows};
ghost use Rattle.command_line.specs.Parts.{IsLine, Part, Text};

use clap::error::ErrorKind;
use clap::{Arg, ArgAction, ArgMatches, Command};
use line_words::OutOfMemory;
use std::alloc::{AllocError, Global};

/// An option: each use has one value. A second use isn't refused here but is one more value, as a second operand is.
fn option<'a>(alloc: Global, name: &'a str) -> Arg<'a>
    ensures rule { rule_of result ≡ option_rule name.now }
    ensures local { result.global ≡ false }
{
    Arg::new(alloc, name).long(name).action(ArgAction::Append)
}

/// The command with these options and with operands, and with nothing that clap adds by itself.
fn command<'a>(alloc: Global, options: &'a [&'a str]) -> Result<Command<'a>, AllocError>
    ensures { IfOk result (λ c. app_of c ≡ app_with (map (λ o. o.now) options.now)) }
{
    let mut command = Command::new(alloc, "cdrc_words").disable_help_flag(true);
    for name in options {
        command = command.arg(option(alloc, *name))?;
    }
    command.arg(Arg::new(alloc, "operand").action(ArgAction::Append))
}

/// What clap finds in the words after the first, if it takes them: all operands, and all values of each option. None
/// only where the words are no options and operands, or a value begins with `-`.
pub(crate) fn matching<'a>(
    alloc: Global,
    options: &'a [&'a str],
    words: &'a [String],
) -> Result<Option<ArgMatches<'a>>, OutOfMemory>
    requires names { are_names (map (λ o. o.now) options.now) ≡ true }
    ensures found { IfOk result (λ o. IfSome o
        (Shows (map (λ o. o.now) options.now) (drop 1 (map string_bytes words.now)))) }
    ensures none { IfOk result (λ o. IsNone o → (parts : List Part) (later : Maybe (List Text)) →
        IsLine (map (λ o. o.now) options.now) (drop 1 (map string_bytes words.now))
        parts later → ArePlain parts → ⊥) }
{
    match command(alloc, options)?.try_get_matches_from(words) {
        Ok(matches) => Ok(Some(matches)),
        Err(error) => match error.kind() {
            ErrorKind::OutOfMemory => Err(OutOfMemory),
            _ => Ok(None),
        },
    }
}
