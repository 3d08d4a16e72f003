//! What holds of the definitions themselves: the text of some files is one, and a report of their counts is it.

ghost use Rattle.std.specs.Prelude.{◌≡◌, ◌<◌, ◌++◌, ℕ, List, [], ◌∷◌, length, map, codes, replicate};
ghost use Rattle.std.specs.List.{All};
ghost use Rattle.std.specs.Map.{keys_of};
ghost use Rattle.bstr.specs.Fields.{SpanChain};
ghost use Rattle.bstr.specs.Text.{part};
ghost use Rattle.cdrc_text.specs.declared.row.Row.{Row};
ghost use Rattle.cdrc_text.specs.declared.row.Totals.{Totals};
ghost use Rattle.cdrc_text.specs.Fold.{AreDistinct, File, occurrences_in};
ghost use Rattle.cdrc_text.specs.Generated.{generated_text};
ghost use Rattle.cdrc_text.specs.Pieces.{cut, fields_of, pieces_of, places_of, spans_of};
ghost use Rattle.cdrc_text.specs.Report.{report_of};
ghost use Rattle.cdrc_text.specs.Runs.{AreMaximalRuns, field_places};
ghost use Rattle.cdrc_text.specs.Tally.{ListsWords, count_of};
ghost use Rattle.cdrc_text.specs.Text.{IsReport, IsRowOf, report_in, totals_in, word_of};

/// The fields of a text, which are cut into the pieces, are its maximal runs without white space, in their order: the
/// bytes at each field's place are the field, and the places are those of the runs. The characters of the text follow
/// each other from its first byte.
pub fn fields_are_maximal_runs()
    ensures fields { (bytes : List ℕ)
        → fields_of bytes ≡ map (λ f. part f.0 f.1 bytes) (field_places bytes) }
    ensures runs { (bytes : List ℕ) → AreMaximalRuns (field_places bytes) (spans_of bytes) }
    ensures characters { (bytes : List ℕ) → SpanChain 0 (length bytes) (spans_of bytes) }
{}

/// The files and the rounds determine the text. A file is told by its pieces.
pub fn text_is_one()
    ensures { (files : List File) (rounds : ℕ) (bytes others : List ℕ)
        → IsReport files rounds bytes → IsReport files rounds others → bytes ≡ others }
{}

/// A report is the text of the files if its rows are their distinct words in byte order, each with its numbers, and its
/// totals are theirs.
pub fn report_is_text()
    ensures { (files : List File) (rounds : ℕ) (rows : List Row) (totals : Totals)
        → AreDistinct files (map word_of rows) → All (IsRowOf files rounds) rows
        → totals ≡ totals_in (map word_of rows) files
        → IsReport files rounds (report_of rows totals) }
{}

/// The words of a tally are the distinct words of the files, if it counted each as often as it occurs in them.
pub fn tally_gives_words()
    ensures { (files : List File) (rounds : ℕ) (counted rows : List (List ℕ × ℕ)) → 0 < rounds
        → ((w : List ℕ) → count_of counted w ≡ occurrences_in w rounds files)
        → ListsWords counted rows → AreDistinct files (keys_of rows) }
{}

/// Worked pieces: words of one byte, a field of 121 bytes and one of 4,097, and bytes that aren't UTF-8 before U+0085,
/// which is White_Space.
pub fn worked_pieces()
    ensures places { places_of (codes "a b c") ≡ (0, 1) ∷ (2, 1) ∷ (4, 1) ∷ [] }
    ensures one { pieces_of (replicate 121 120) ≡ replicate 121 120 ∷ [] }
    ensures long { cut (replicate 4097 120) ≡ replicate 4096 120 ∷ (120 ∷ []) ∷ [] }
    ensures bytes { pieces_of (255 ∷ 254 ∷ 194 ∷ 133 ∷ 97 ∷ [])
        ≡ (255 ∷ 254 ∷ []) ∷ (97 ∷ []) ∷ [] }
{}

/// Worked texts: of `a b a`, of one file named twice, of two files that share a word, in three rounds, and of a word of
/// 121 bytes, whose record has two slots.
pub fn worked_texts()
    ensures one { report_in (codes "a" ∷ codes "b" ∷ []) (pieces_of (codes "a b a") ∷ []) 1
        ≡ codes "2 1 a\n1 1 b\nfiles 1 pieces 3 distinct 2\n"
        ++ codes "held live 2 deferred 0 cyclic 0 bytes 2\n"
        ++ codes "freed live 0 deferred 0 cyclic 0 bytes 0\n" }
    ensures twice { report_in (codes "x" ∷ []) (map pieces_of (codes "x" ∷ codes "x" ∷ [])) 1
        ≡ codes "2 2 x\nfiles 2 pieces 2 distinct 1\n"
        ++ codes "held live 1 deferred 0 cyclic 0 bytes 1\n"
        ++ codes "freed live 0 deferred 0 cyclic 0 bytes 0\n" }
    ensures rounds { report_in (codes "a" ∷ codes "b" ∷ codes "c" ∷ [])
        (map pieces_of (codes "a b" ∷ codes "b b c" ∷ [])) 3
        ≡ codes "3 1 a\n9 2 b\n3 1 c\nfiles 2 pieces 5 distinct 3\n"
        ++ codes "held live 3 deferred 0 cyclic 0 bytes 3\n"
        ++ codes "freed live 0 deferred 0 cyclic 0 bytes 0\n" }
    ensures parts { report_in (replicate 121 120 ∷ []) ((replicate 121 120 ∷ []) ∷ []) 1
        ≡ codes "1 1 " ++ replicate 121 120 ++ codes "\nfiles 1 pieces 1 distinct 1\n"
        ++ codes "held live 2 deferred 0 cyclic 0 bytes 121\n"
        ++ codes "freed live 0 deferred 0 cyclic 0 bytes 0\n" }
{}

/// Worked words of a seed: two draws from 0, eleven words of a vocabulary of one word, and none.
pub fn worked_words()
    ensures two { generated_text 0 2 10 ≡ codes "w7 w4\n" }
    ensures eleven { generated_text 5 11 1 ≡ codes "w0 w0 w0 w0 w0 w0 w0 w0 w0 w0\nw0\n" }
    ensures none { generated_text 5 0 1 ≡ [] }
{}
