//! The lines of a text of steps, taken one by one.
ghost use Rattle.std.specs.Prelude.{◌≡◌, ◌++◌, [], ℕ, List, Ok, None, Some};
ghost use Rattle.line_machine.specs.line_words.declared.reason.Reason.{Reason};
ghost use Rattle.line_machine.specs.line_words.Words.{texts_of};
ghost use Rattle.cdrc_steps.specs.Meaning.{Ends, Refuses, Takes};

use crate::opening::open;
use crate::ranges::is_in_range;
use crate::running::{Running, StepMachine};
use cdrc_core::StepError;
use line_machine::{LineMachine, OutOfMemory, Reason, push_refused};
use std::alloc::Global;
use step_lines::{EventRefused, event_line, push_event, shape_line};

impl Running {
    /// Makes the event that the words spell, and appends its name and its outcome.
    fn take(&mut self, words: &[&[u8]], text: &mut Vec<u8>) -> Result<Option<Reason>, OutOfMemory>
        ensures taken { result ≡ Ok None → (out : List ℕ) × (text.new.items ≡ text.old.items ++ out)
            × Takes (Some self.old) (texts_of words.now) out (Some self.new) }
        ensures refused { (reason : Reason) → result ≡ Ok (Some reason) →
            (text.new.items ≡ text.old.items)
            × Refuses (Some self.old) (texts_of words.now) reason }
        ensures stays { (reason : Reason) → result ≡ Ok (Some reason) → self.new ≡ self.old }
    {
        let shape = self.core.shape();
        let event = match event_line(words) {
            Ok(event) => event,
            Err(EventRefused::Syntax) => return Ok(Some(Reason::Syntax)),
            Err(EventRefused::Range) => return Ok(Some(Reason::Range)),
        };
        if !is_in_range(&shape, event) {
            return Ok(Some(Reason::Range));
        }
        let events = self.events.checked_add(1).ok_or(OutOfMemory)?;
        match self.core.step(&event) {
            Ok(outcome) => {
                push_event(text, &event.act, &outcome)?;
                self.events = events;
                Ok(None)
            }
            Err(StepError::NotEnabled) => Ok(Some(Reason::NotEnabled)),
            Err(StepError::OutOfMemory) => Err(OutOfMemory),
        }
    }
}

impl StepMachine {
    /// Opens the core of the shape that the words spell.
    fn begin(&mut self, alloc: Global, words: &[&[u8]]) -> Result<Option<Reason>, OutOfMemory>
        requires { self.old ≡ None }
        ensures taken { result ≡ Ok None → Takes self.old (texts_of words.now) [] self.new }
        ensures refused { (reason : Reason) → result ≡ Ok (Some reason) →
            Refuses self.old (texts_of words.now) reason }
        ensures stays { (reason : Reason) → result ≡ Ok (Some reason) → self.new ≡ self.old }
    {
        let shape = match shape_line(words) {
            Ok(shape) => shape,
            Err(EventRefused::Syntax) => return Ok(Some(Reason::Syntax)),
            Err(EventRefused::Range) => return Ok(Some(Reason::Range)),
        };
        match open(alloc, shape)? {
            None => Ok(Some(Reason::Range)),
            opened => {
                self.running = opened;
                Ok(None)
            }
        }
    }
}

impl LineMachine<()> for StepMachine {
    ghost serves = { λ aid. Unit {0} };

    ghost takes = { Takes };

    ghost refuses = { Refuses };

    ghost ends = { Ends };

    fn take(
        &mut self,
        _aid: &(),
        alloc: Global,
        words: &[&[u8]],
        text: &mut Vec<u8>,
    ) -> Result<Option<Reason>, OutOfMemory> {
        match &mut self.running {
            None => self.begin(alloc, words),
            Some(running) => running.take(words, text),
        }
    }

    fn end(&self, _alloc: Global, text: &mut Vec<u8>) -> Result<bool, OutOfMemory> {
        match &self.running {
            None => {
                push_refused(text, 1, Reason::Syntax)?;
                Ok(true)
            }
            Some(running) => {
                running.close(text)?;
                Ok(false)
            }
        }
    }
}
