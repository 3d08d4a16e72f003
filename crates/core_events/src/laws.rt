//! The events of a strong word are the steps of a counter.
ghost use Rattle.std.specs.Prelude.{ℕ, ◌<◌, ◌+◌, ◌^◌};
ghost use Rattle.announce_slots.specs.plain_state.declared.slot.SlotId.{SlotId};
ghost use Rattle.core_events.specs.declared.act.Act.TheVariants as acts;
ghost use Rattle.announce_slots.specs.counter_word.Words.{added, subbed, finished, helped, marked};
ghost use Rattle.core_events.specs.Counters.{Makes, PaysStrong, outcome_of_add, outcome_of_sub, outcome_of_finish, outcome_of_take, outcome_of_load, outcome_of_mark};

/// Each counter event leaves the word that the step of the counter leaves, and answers what that step comes to.
/// An add doesn't wrap, and what gives up a count finds a word other than 0.
pub fn counters_agree()
    ensures add { (s : SlotId) (w : ℕ) → w + 1 < 2 ^ 64
        → Makes (acts.Add s) w (added w).0 (outcome_of_add (added w).1) }
    ensures sub { (s : SlotId) (w : ℕ) → 0 < w → w < 2 ^ 64
        → Makes (acts.Drop s) w (subbed w).0 (outcome_of_sub (subbed w).1) }
    ensures pay { (w : ℕ) → 0 < w → w < 2 ^ 64
        → PaysStrong w (subbed w).0 (outcome_of_sub (subbed w).1) }
    ensures finish { (w : ℕ)
        → Makes acts.Finish w (finished w).0 (outcome_of_finish (finished w).1) }
    ensures take { (w : ℕ) → w < 2 ^ 64
        → Makes acts.Take w (helped w).0 (outcome_of_take (helped w).1) }
    ensures count { (s : SlotId) (w : ℕ) → Makes (acts.Count s) w w (outcome_of_load w) }
    ensures mark { (w : ℕ) → Makes acts.Mark w (marked w) (outcome_of_mark w) }
{}
