//! A line's words, parsed.

ghost use Rattle.std.specs.Prelude.{◌≡◌, ◌∷◌, IfOk, Err};
ghost use Rattle.line_words.specs.Words.{texts_of};
ghost use Rattle.script_lines.specs.Spelling.{Spells, SpellsCommand};
ghost use Rattle.script_lines.specs.Verbs.{spelling};
ghost use Rattle.script_lines.specs.declared.command.Command.{Command as AnyCommand};
ghost use Rattle.script_lines.specs.declared.command.ScriptLine.{ScriptLine as Line};
ghost use Rattle.script_lines.specs.declared.refused.CommandRefused.TheVariants.{Syntax};

use crate::arguments::{
    name_and_number, nothing, one_name, one_place, place_and_name, place_and_two, three_numbers,
    two_names,
};
use crate::command::{Command, ScriptLine};
use crate::refused::CommandRefused;
use crate::verb::{Verb, find_verb};
use std::alloc::Global;

/// The line that the words spell. They are refused as syntax exactly where they spell none. Linear in the bytes.
pub fn script_line(alloc: Global, words: &[&[u8]]) -> Result<ScriptLine, CommandRefused>
    ensures ok { IfOk result (λ line. Spells line (texts_of words.now)) }
    ensures syntax { result ≡ Err Syntax → (line : Line) → Spells line (texts_of words.now) → ⊥ }
{
    let Some((word, arguments)) = words.split_first() else {
        return Err(CommandRefused::Syntax);
    };
    let Some(verb) = find_verb(word) else {
        return Err(CommandRefused::Syntax);
    };
    if let Verb::Heap = verb {
        let (slots, cells, weak_cells) = three_numbers(arguments)?;
        return Ok(ScriptLine::Heap(slots, cells, weak_cells));
    }
    Ok(ScriptLine::Command(command(alloc, verb, arguments)?))
}

// The command of the verb with these words after it.
fn command(alloc: Global, verb: Verb, words: &[&[u8]]) -> Result<Command, CommandRefused>
    ensures ok { IfOk result (λ command.
        SpellsCommand command (spelling verb ∷ texts_of words.now)) }
    ensures syntax { result ≡ Err Syntax → (command : AnyCommand)
        → SpellsCommand command (spelling verb ∷ texts_of words.now) → ⊥ }
{
    match verb {
        Verb::Heap => Err(CommandRefused::Syntax),
        Verb::Make => name_and_number(alloc, words).map(|(n, w)| Command::Make(n, w)),
        Verb::Copy => two_names(alloc, words).map(|(n, m)| Command::Copy(n, m)),
        Verb::Drop => one_name(alloc, words).map(Command::Drop),
        Verb::Weaken => two_names(alloc, words).map(|(n, m)| Command::Weaken(n, m)),
        Verb::CopyWeak => two_names(alloc, words).map(|(n, m)| Command::CopyWeak(n, m)),
        Verb::DropWeak => one_name(alloc, words).map(Command::DropWeak),
        Verb::Upgrade => two_names(alloc, words).map(|(n, m)| Command::Upgrade(n, m)),
        Verb::Put => place_and_name(alloc, words).map(|(p, n)| Command::Put(p, n)),
        Verb::Clear => one_place(alloc, words).map(Command::Clear),
        Verb::Load => place_and_name(alloc, words).map(|(p, n)| Command::Load(p, n)),
        Verb::Replace => place_and_two(alloc, words).map(|(p, o, n)| Command::Replace(p, o, n)),
        Verb::Snap => place_and_name(alloc, words).map(|(p, n)| Command::Snap(p, n)),
        Verb::EndSnapshot => one_name(alloc, words).map(Command::EndSnapshot),
        Verb::Keep => two_names(alloc, words).map(|(n, m)| Command::Keep(n, m)),
        Verb::Read => name_and_number(alloc, words).map(|(n, i)| Command::Read(n, i)),
        Verb::Counts => one_name(alloc, words).map(Command::Counts),
        Verb::Audit => nothing(words).map(|()| Command::Audit),
    }
}
