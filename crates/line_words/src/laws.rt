//! What holds of the definitions themselves.

ghost use Rattle.std.specs.Prelude.{◌≡◌, ◌≢◌, ℕ, ◌<◌, ◌++◌, ◌⊎◌, List, [], ◌∷◌, codes, true, replicate};
ghost use Rattle.std.specs.List.{All};
ghost use Rattle.line_words.specs.Lines.{joined_lines, lines_of};
ghost use Rattle.line_words.specs.Number.{value_of, IsNumber};
ghost use Rattle.line_words.specs.Refused.{refused_line};
ghost use Rattle.line_words.specs.Words.{is_blank, words_of};
ghost use Rattle.line_words.specs.declared.reason.Reason.TheVariants.{Name, NotEnabled};

/// No line has a line feed, and the lines with a line feed behind each are the text, where the last one may lack its
/// own.
pub fn lines_are_the_text()
    ensures no_line_feed { (text : List ℕ)
        → All (λ line. All (λ byte. byte ≢ 10) line) (lines_of text) }
    ensures joined { (text : List ℕ) →
        (joined_lines (lines_of text) ≡ text) ⊎ (joined_lines (lines_of text) ≡ text ++ 10 ∷ []) }
{}

/// A word spells one number at most.
pub fn number_is_one()
    ensures { (word : List ℕ) (n m : ℕ) → IsNumber word n → IsNumber word m → n ≡ m }
{}

/// Worked rows: the lines of a text, the words of a line, digits, and a line that is refused.
pub fn worked_rows()
    ensures lines { lines_of (codes "a\n\n b") ≡ codes "a" ∷ [] ∷ codes " b" ∷ [] }
    ensures last { lines_of (codes "a\n") ≡ codes "a" ∷ [] }
    ensures empty { lines_of [] ≡ [] }
    ensures words { words_of (codes " make\ta 7 ") ≡ codes "make" ∷ codes "a" ∷ codes "7" ∷ [] }
    ensures blank { is_blank (words_of (codes " # make a 7")) ≡ true }
    ensures digits { value_of (codes "0070") ≡ 70 }
    ensures name { refused_line 2 Name ≡ codes "line 2 refused: name\n" }
    ensures not_enabled { refused_line 10 NotEnabled ≡ codes "line 10 refused: not enabled\n" }
{}
