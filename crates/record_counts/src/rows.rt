//! Rows and audits that are a report.
ghost use Rattle.std.specs.Prelude.{ℕ, List, [], map};
ghost use Rattle.std.specs.List.{All};
ghost use Rattle.cdrc_text.specs.declared.row.Row.{Row};
ghost use Rattle.cdrc_text.specs.Fold.{File};
ghost use Rattle.cdrc_text.specs.Report.{report_of};
ghost use Rattle.cdrc_text.specs.Text.{IsReport, IsRowOf, word_of};
ghost use Rattle.record_counts.specs.Records.{FindsRecords};
ghost use Rattle.record_counts.specs.Written.{HaveWords, totals_found};

use plain_audit::Audit;

/// Rows with the words of the files in byte order, each with the numbers of its word, an audit that found the records
/// of these words, and one that found nothing, are the report of the files.
pub fn counted_rows_are_the_report()
    ensures { (files : List File) (rounds : ℕ) (rows : List Row) (held freed : Audit)
        → HaveWords files rows → All (IsRowOf files rounds) rows
        → FindsRecords (map word_of rows) held → FindsRecords [] freed
        → IsReport files rounds (report_of rows (totals_found files held freed)) }
{}
