//! What is noted of some words tells what a split asks of them.
ghost use Rattle.std.specs.Prelude.{◌≡◌, ◌≤◌, ◌++◌, ◌∷◌, [], ℕ, List, length};
ghost use Rattle.announce_slots.specs.Seen.{announced_in};
ghost use Rattle.eject_scan.specs.Seen.{announced, noted, total, with_word};

/// What is noted of the words that a scan reads tells how often each slot is announced, in whichever order they were
/// read. It does nothing.
pub fn laws_of_announcements()
    ensures times { (words : List ℕ) → announced (noted words) ≡ announced_in words }
    ensures one_more { (words : List ℕ) (word : ℕ)
        → noted (words ++ word ∷ []) ≡ with_word word (noted words) }
    ensures fewer { (words : List ℕ) → total (noted words) ≤ length words }
{}
