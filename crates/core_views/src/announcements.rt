//! Announcements: written, found valid or alive, taken back, read by a scan.
ghost use Rattle.std.specs.Prelude.{◌≡◌, ◌<◌, ◌+◌, ◌-◌, ◌^◌, ◌≤◌, ◌==◌, ◌++◌, ◌∷◌, [], nat_lt, IfOk, OnOk, OnErr, length, vec_len, if◌then◌else◌};
ghost use Rattle.std.specs.VecDeque.{deque_len};
ghost use Rattle.core_functions.specs.core_events.declared.outcome.Outcome.TheVariants as outcome;
ghost use Rattle.core_functions.specs.core_events.declared.view.Phase.TheVariants as phase;
ghost use Rattle.core_functions.specs.plain_state.Limits.{words_of_seat};
ghost use Rattle.core_functions.specs.plain_state.Ejection.{kept, ejected, ripened};
ghost use Rattle.core_functions.specs.core_events.Words.{slot_in};
ghost use Rattle.core_functions.specs.counter_word.Words.{value};
ghost use Rattle.core_functions.specs.core_events.Views.{note_of};
ghost use Rattle.core_functions.specs.core_events.Steps.{is_valid, validated, with_note, is_last, all_seen, scanned};

use crate::holdings::Holdings;
use core_functions::{
    Note, OutOfMemory, Outcome, Parts, Phase, Shape, SlotId, announced_by, announcement_words,
    found_in, is_valid, note_of, ripened, split, validated, value,
};

impl Holdings {
    /// Another note for an announcement word.
    pub(crate) fn set_note(&mut self, at: u32, note: Note) -> Outcome
        requires { at < words_of_seat }
        ensures told { result ≡ outcome.Plain }
        ensures changed { self.new ≡ with_note at note self.old }
    {
        self.notes[at as usize] = note;
        Outcome::Plain
    }

    /// Comes under a snapshot of what was announced.
    fn validate(&mut self, at: u32)
        requires { at < words_of_seat }
        ensures { self.new ≡ with_note at (validated (note_of self.old at)) self.old }
    {
        let note = validated(note_of(&self.notes, at));
        let _ = self.set_note(at, note);
    }

    /// Comes under a snapshot, if the word of the place is that of the slot that was announced.
    pub(crate) fn check(&mut self, at: u32, word: u64) -> Outcome
        requires there { at < words_of_seat }
        requires content { word < 2 ^ 32 }
        ensures told { result ≡ (if is_valid word (note_of self.old at)
            then outcome.Valid else outcome.Moved (slot_in word)) }
        ensures changed { self.new ≡ (if is_valid word (note_of self.old at)
            then with_note at (validated (note_of self.old at)) self.old else self.old) }
    {
        if !is_valid(word, note_of(&self.notes, at)) {
            return Outcome::Moved(found_in(word));
        }
        self.validate(at);
        Outcome::Valid
    }

    /// Comes under a snapshot, if the strong word counts something.
    pub(crate) fn revive(&mut self, at: u32, word: u64) -> Outcome
        requires { at < words_of_seat }
        ensures told { result
            ≡ (if nat_lt 0 (value word) then outcome.Alive else outcome.Zeroed) }
        ensures changed { self.new ≡ (if nat_lt 0 (value word)
            then with_note at (validated (note_of self.old at)) self.old else self.old) }
    {
        if value(word) == 0 {
            return Outcome::Zeroed;
        }
        self.validate(at);
        Outcome::Alive
    }

    /// Whether the next word is the last one of a scan.
    fn reads_last(&self, shape: &Shape) -> bool
        ensures { result ≡ is_last shape.now self.now }
    {
        self.seen.len() + 1 == announcement_words(shape)
    }

    /// Has read one more word of a scan.
    fn read(&mut self, word: u64) -> Result<(), OutOfMemory>
        ensures ok { OnOk result (self.new
            ≡ record self.old { phase = phase.Scan; seen = self.old.seen ++ word ∷ [] }) }
        ensures err { OnErr result (self.new ≡ self.old) }
    {
        self.seen.reserve(1)?;
        self.seen.push_reserved(word);
        self.phase = Phase::Scan;
        Ok(())
    }

    /// Puts the parts and the ripe slots in place, at the end of a scan.
    fn settle(&mut self, parts: Parts, ripe: Vec<SlotId>)
        ensures { self.new ≡ record self.old {
          phase = phase.Idle;
          seen = [];
          retired = parts.kept.items;
          owed = parts.ejected.items;
          ripe = ripe.items;
        } }
    {
        self.seen.clear();
        self.retired = parts.kept;
        self.owed = parts.ejected;
        self.ripe = ripe;
        self.phase = Phase::Idle;
    }

    /// Reads the next announcement word. The last one splits the retired entries, and dying slots become ripe.
    pub(crate) fn scan(&mut self, shape: &Shape, word: u64) -> Result<Outcome, OutOfMemory>
        requires few { length self.old.retired ≤ self.old.room }
        requires reads { length self.old.seen < 2 ^ 32 - 1 }
        ensures told { IfOk result (λ o. o ≡ (if is_last shape.now self.old
            then outcome.Split word (length (kept self.old.retired (all_seen word self.old)))
            (length (ejected self.old.retired (all_seen word self.old)))
            else outcome.Word word)) }
        ensures ok { OnOk result (self.new ≡ scanned shape.now word self.old) }
        ensures err { OnErr result (self.new ≡ self.old) }
    {
        if !self.reads_last(shape) {
            self.read(word)?;
            return Ok(Outcome::Word(word));
        }
        let all = announced_by(self.alloc, &self.seen, word)?;
        let parts = split(self.alloc, &self.retired, &all)?;
        let ripe = ripened(self.alloc, &self.ripe, &self.dying, &all)?;
        let stay = parts.kept.len() as u32;
        let go = parts.ejected.len() as u32;
        self.settle(parts, ripe);
        Ok(Outcome::Split(word, stay, go))
    }
}
