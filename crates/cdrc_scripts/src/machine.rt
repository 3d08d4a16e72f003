//! The lines of a script, taken one by one.
ghost use Rattle.std.specs.Prelude.{◌≡◌, ◌++◌, ℕ, Bool, List, [], Ok, None, Some, IfOk, IfErr};
ghost use Rattle.line_machine.specs.line_words.declared.reason.Reason.{Reason};
ghost use Rattle.line_machine.specs.line_words.Words.{texts_of};
ghost use Rattle.script_law.specs.deleter.Weighing.{Weighs};
ghost use Rattle.script_law.specs.script_desk.Desks.{scope_of};
ghost use Rattle.script_law.specs.script_desk.Kinds.{IsScriptPayload, script_weight};
ghost use Rattle.script_law.specs.script_desk.Faults.{IsFault};
ghost use Rattle.domain_desk.specs.Desks.{desk_of};
ghost use Rattle.cdrc_scripts.specs.Domains.{EndsOn, IsSettledDesk, RefusesOn, RunsOn, TakesOn};

use crate::lines::{command_of, heap_numbers, open};
use crate::said::push_said;
use crate::scripting::ScriptMachine;
use domain_desk::DomainDesk;
use line_machine::{LineMachine, OutOfMemory, Reason, push_refused};
use script_law::{Command, CommandRefused, Deleter, ScriptKind};
use std::alloc::Global;

/// Runs the command, where it has no fault, and appends its line.
fn run_command<F: Fn(&[u64; 16]) -> u64>(
    desk: &mut DomainDesk,
    weigh: &Deleter<ScriptKind, F>,
    command: &Command,
    text: &mut Vec<u8>,
) -> Result<Option<Reason>, OutOfMemory>
    requires settled_before { IsSettledDesk (Some desk.old) }
    requires weighs { Weighs IsScriptPayload script_weight F.Fn weigh.now }
    ensures taken { result ≡ Ok None → (out : List ℕ) × (text.new.items ≡ text.old.items ++ out)
        × RunsOn desk.old command.now out desk.new }
    ensures settled { result ≡ Ok None → IsSettledDesk (Some desk.new) }
    ensures refused { (reason : Reason) → result ≡ Ok (Some reason) → (text.new.items ≡ text.old.items)
        × IsFault (scope_of (desk_of desk.old)) command.now (Some reason) }
    ensures stays { (reason : Reason) → result ≡ Ok (Some reason) → desk.new ≡ desk.old }
{
    if let Some(reason) = desk.fault(command) {
        return Ok(Some(reason));
    }
    let said = desk.run(command, weigh)?;
    push_said(text, command, &said)?;
    Ok(None)
}

/// Runs the command that the words spell.
fn take_command<F: Fn(&[u64; 16]) -> u64>(
    desk: &mut DomainDesk,
    weigh: &Deleter<ScriptKind, F>,
    alloc: Global,
    words: &[&[u8]],
    text: &mut Vec<u8>,
) -> Result<Option<Reason>, OutOfMemory>
    requires settled_before { IsSettledDesk (Some desk.old) }
    requires weighs { Weighs IsScriptPayload script_weight F.Fn weigh.now }
    ensures taken { result ≡ Ok None → (out : List ℕ) × (text.new.items ≡ text.old.items ++ out)
        × TakesOn (Some desk.old) (texts_of words.now) out (Some desk.new) }
    ensures settled { result ≡ Ok None → IsSettledDesk (Some desk.new) }
    ensures refused { (reason : Reason) → result ≡ Ok (Some reason) →
        (text.new.items ≡ text.old.items) × RefusesOn (Some desk.old) (texts_of words.now) reason }
    ensures stays { (reason : Reason) → result ≡ Ok (Some reason) → desk.new ≡ desk.old }
{
    let command = match command_of(alloc, words) {
        Ok(command) => command,
        Err(CommandRefused::Syntax) => return Ok(Some(Reason::Syntax)),
        Err(CommandRefused::OutOfMemory) => return Err(OutOfMemory),
    };
    run_command(desk, weigh, &command, text)
}

/// The desk of the heap that the words give its numbers, or why they are refused.
fn begin(alloc: Global, words: &[&[u8]]) -> Result<Result<DomainDesk, Reason>, OutOfMemory>
    ensures taken { IfOk result (λ found. IfOk found (λ desk.
        TakesOn None (texts_of words.now) [] (Some desk) × IsSettledDesk (Some desk))) }
    ensures refused { IfOk result (λ found.
        IfErr found (λ reason. RefusesOn None (texts_of words.now) reason)) }
{
    let numbers = match heap_numbers(alloc, words) {
        Ok(numbers) => numbers,
        Err(CommandRefused::Syntax) => return Ok(Err(Reason::Syntax)),
        Err(CommandRefused::OutOfMemory) => return Err(OutOfMemory),
    };
    match open(alloc, numbers)? {
        Some(desk) => Ok(Ok(desk)),
        None => Ok(Err(Reason::Range)),
    }
}

/// The aid of a script is the one closure that weighs its objects.
impl<F: Fn(&[u64; 16]) -> u64> LineMachine<Deleter<ScriptKind, F>> for ScriptMachine {
    ghost serves = { Weighs IsScriptPayload script_weight F.Fn };

    ghost takes = { TakesOn };

    ghost refuses = { RefusesOn };

    ghost ends = { EndsOn };

    fn take(
        &mut self,
        weigh: &Deleter<ScriptKind, F>,
        alloc: Global,
        words: &[&[u8]],
        text: &mut Vec<u8>,
    ) -> Result<Option<Reason>, OutOfMemory> {
        // A desk on which an allocation failed is kept no longer.
        if let Some(mut desk) = self.desk.take() {
            let refused = take_command(&mut desk, weigh, alloc, words, text)?;
            self.desk = Some(desk);
            return Ok(refused);
        }
        match begin(alloc, words)? {
            Ok(desk) => {
                self.desk = Some(desk);
                Ok(None)
            }
            Err(reason) => Ok(Some(reason)),
        }
    }

    fn end(&self, _alloc: Global, text: &mut Vec<u8>) -> Result<bool, OutOfMemory> {
        if self.desk.is_some() {
            return Ok(false);
        }
        push_refused(text, 1, Reason::Syntax)?;
        Ok(true)
    }
}
