//! What seats that share the files take and count, added up.
ghost use Rattle.std.specs.Prelude.{◌≡◌, ◌<◌, ℕ, List};
ghost use Rattle.cdrc_text.specs.Fold.{File, occurrences_in, times};
ghost use Rattle.words_law.specs.Fold.{added, gathered, taken_pieces};

/// Where each file is some seat's, all seats together take each word as often as it occurs. Words that seats take one
/// after the other, and those that they count, add up.
pub fn counts_add_up()
    ensures taken { (w : List ℕ) (taker : ℕ → ℕ) (seats rounds : ℕ) (files : List File)
        → ((k : ℕ) → taker k < seats)
        → times w (gathered (taken_pieces taker rounds files) seats)
        ≡ occurrences_in w rounds files }
    ensures counted { (w : List ℕ) (words : ℕ → List (List ℕ)) (seats : ℕ)
        → times w (gathered words seats) ≡ added (λ n. times w (words n)) seats }
{}
