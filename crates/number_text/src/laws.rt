//! What holds of the definitions themselves: the index of some files is one, and rows that tell their counts give it.

ghost use Rattle.std.specs.Prelude.{◌≡◌, ℕ, ◌++◌, ◌∷◌, [], List, None, Some, codes};
ghost use Rattle.number_text.specs.declared.row.CountOf.{CountOf as RowOf};
ghost use Rattle.number_text.specs.declared.row.IndexTotals.{IndexTotals as TotalsOf};
ghost use Rattle.number_text.specs.Counts.{TellCounts, numbers_in};
ghost use Rattle.number_text.specs.Index.{IsIndex, totals_in};
ghost use Rattle.number_text.specs.Numbers.{number_of, numbers_of, skipped_of};
ghost use Rattle.number_text.specs.Report.{index_of};

/// The files determine the index. A file is told by its bytes.
pub fn index_is_one()
    ensures { (files : List (List ℕ)) (bytes others : List ℕ)
        → IsIndex files bytes → IsIndex files others → bytes ≡ others }
{}

/// Rows that tell each number as often as it occurs over the files, ascending, are written as the index of the files,
/// if the totals are theirs.
pub fn counts_give_index()
    ensures { (files : List (List ℕ)) (rows : List RowOf) (totals : TotalsOf)
        → TellCounts files rows → totals ≡ totals_in (numbers_in rows) files
        → IsIndex files (index_of rows totals) }
{}

/// Worked fields: leading zeros, a `+`, the greatest number and one more, and fields that are no numbers.
pub fn worked_numbers()
    ensures zeros { number_of (codes "007") ≡ Some 7 }
    ensures plus { number_of (codes "+7") ≡ Some 7 }
    ensures greatest { number_of (codes "18446744073709551615") ≡ Some 18446744073709551615 }
    ensures above { number_of (codes "18446744073709551616") ≡ None }
    ensures long { number_of (codes "000000000000000000001") ≡ Some 1 }
    ensures longer { number_of (codes "100000000000000000007") ≡ None }
    ensures alone { number_of (codes "+") ≡ None }
    ensures twice { number_of (codes "++7") ≡ None }
    ensures minus { number_of (codes "-7") ≡ None }
    ensures mixed { number_of (codes "7x") ≡ None }
    ensures bytes { number_of (55 ∷ 255 ∷ []) ≡ None }
    ensures text { numbers_of (codes " 7\t3\n7 x") ≡ 7 ∷ 3 ∷ 7 ∷ [] }
    ensures skipped { skipped_of (codes "7 3 7 x + -1") ≡ 3 }
{}

/// Worked indexes: of two files that share numbers, and of one without any.
pub fn worked_indexes()
    ensures two { IsIndex (codes "7 3 7 x" ∷ codes "3 007" ∷ [])
        (codes "2 3\n3 7\nfiles 2 numbers 5 distinct 2 skipped 1\n"
        ++ codes "held live 2 deferred 0 cyclic 0 bytes 2\n"
        ++ codes "freed live 0 deferred 0 cyclic 0 bytes 0\n") }
    ensures none { IsIndex (codes "x" ∷ [])
        (codes "files 1 numbers 0 distinct 0 skipped 1\n"
        ++ codes "held live 0 deferred 0 cyclic 0 bytes 0\n"
        ++ codes "freed live 0 deferred 0 cyclic 0 bytes 0\n") }
{}
