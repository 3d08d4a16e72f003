//! What holds between any two steps. Each law is the clause of a function with an empty body.
ghost use Rattle.std.specs.Prelude.{ℕ, ◌≡◌, ◌≤◌, ◌<◌, List, ◌∷◌, Bool, length};
ghost use Rattle.atomic_table.specs.Table.{State};
ghost use Rattle.sticky_count.specs.declared.view.Knows.{Knows};
ghost use Rattle.sticky_count.specs.declared.view.Move.{Move};
ghost use Rattle.sticky_count.specs.Calls.{Increments, Decrements, Reads};
ghost use Rattle.counter_word.specs.Words.{HasZero};
ghost use Rattle.sticky_count.specs.declared.view.Event.{Event};
ghost use Rattle.sticky_count.specs.History.{Possible, moves_of, run, view_at};
ghost use Rattle.sticky_count.specs.Sound.{IsSound};
ghost use Rattle.sticky_count.specs.Running.{Kept, Suits, shown};

/// The law over every list of events by any number of seats, and what it gives the next event: the
/// condition of its pure step is met. The newest event stands first.
pub fn sound_after_any_events()
    ensures sound { (seats : ℕ) (es : List Event) → Possible seats es → IsSound (run seats es) }
    ensures suits { (seats : ℕ) (es : List Event) (e : Event)
        → Possible seats (e ∷ es) → Suits e.act (run seats es).word }
{}

/// The trail of a seat is its own events in their order, each with the word that the step found.
pub fn trails_are_events()
    ensures { (seats : ℕ) (es : List Event) (i : ℕ)
        → Possible seats es → i < length (run seats es).seats
        → (view_at (run seats es) i).trail ≡ moves_of seats es i }
{}

/// An increment is one step, a decrement one to three, and a read one or two.
pub fn steps_of_calls()
    ensures increment { (ms : List Move) (b : Bool) → Increments ms b → length ms ≡ 1 }
    ensures decrement { (ms : List Move) (b : Bool)
        → Decrements ms b → (1 ≤ length ms) × (length ms ≤ 3) }
    ensures read { (ms : List Move) (n : ℕ)
        → Reads ms n → (1 ≤ length ms) × (length ms ≤ 2) }
{}

/// Once the zero flag stands it stays, whatever event comes next.
pub fn zero_stays()
    ensures { (seats : ℕ) (es : List Event) (e : Event)
        → Possible seats (e ∷ es)
        → HasZero (run seats es).word → HasZero (run seats (e ∷ es)).word }
{}

/// The law in every state that a running counter comes to: the rule of its table is that it shows
/// what some list of events makes of a counter.
pub fn sound_while_running()
    ensures { (seats : ℕ) (s : State (Unit {0}) Knows) → Kept seats s → IsSound (shown s) }
{}
