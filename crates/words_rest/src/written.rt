//! What is left is written as the report of the files.
ghost use Rattle.std.specs.Prelude.{◌≡◌, ℕ, List, [], slice_index_or};
ghost use Rattle.plain_audit.specs.plain_state.declared.slot.SlotId.{SlotId};
ghost use Rattle.plain_audit.specs.plain_state.State.{Plain};
ghost use Rattle.words_law.specs.protocol_pairs.Shares.{weight_in_part};
ghost use Rattle.words_law.specs.queue_law.Chain.{Ends};
ghost use Rattle.words_law.specs.directory_law.Bytes.{AreBytes, piece_weight};
ghost use Rattle.words_law.specs.directory_law.Cells.{Area};
ghost use Rattle.words_law.specs.cdrc_text.declared.row.Row.{Row};
ghost use Rattle.words_law.specs.cdrc_text.Fold.{File, holders_in};
ghost use Rattle.words_law.specs.cdrc_text.Report.{report_of};
ghost use Rattle.words_law.specs.cdrc_text.Text.{IsReport};
ghost use Rattle.plain_audit.specs.Audits.{IsAudit};
ghost use Rattle.words_law.specs.Views.{View, gone};
ghost use Rattle.words_rest.specs.Kept.{KeepsRecordsOf};
ghost use Rattle.words_rest.specs.Nodes.{HasNoNode};
ghost use Rattle.words_rest.specs.Records.{FindsRecords};
ghost use Rattle.words_rest.specs.Rest.{IsLeft};
ghost use Rattle.words_rest.specs.Written.{AreRowsAt, HaveWords, totals_found};
ghost use Rattle.std.specs.List.{All};

use plain_audit::Audit;

/// The rows of the records that are kept, counted where the state is at rest and no node is left, an audit of that
/// state, and one that found nothing later, are the report of the files whose words were kept, in whatever order of
/// the files.
pub fn what_is_left_is_the_report()
    ensures { (u : Ends) (z : Area) (p : Plain) (views : List View) (lives : SlotId → ℕ)
        (files : List File) (kept : List SlotId)
        → KeepsRecordsOf u z p views lives files kept → IsLeft p views → HasNoNode p
        → (all : List File) → ((w : List ℕ) → holders_in w files ≡ holders_in w all)
        → All (λ (words : List (List ℕ)). All AreBytes words) all
        → (rounds : ℕ) (rows : List Row) (slots : List SlotId)
        → AreRowsAt all rounds p lives kept (slice_index_or views 0 gone).1 rows slots
        → HaveWords all rows
        → (weight : List ℕ → ℕ) (ranks : List ℕ) (held freed : Audit)
        → IsAudit (weight_in_part weight piece_weight) ranks p held → FindsRecords [] freed
        → IsReport all rounds (report_of rows (totals_found all held freed)) }
{}
