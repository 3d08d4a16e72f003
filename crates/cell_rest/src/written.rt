//! What is left is written as the report of the files.
ghost use Rattle.std.specs.Prelude.{◌≡◌, ℕ, List, []};
ghost use Rattle.std.specs.List.{All};
ghost use Rattle.plain_audit.specs.plain_state.declared.slot.SlotId.{SlotId};
ghost use Rattle.plain_audit.specs.plain_state.State.{Plain};
ghost use Rattle.plain_audit.specs.Audits.{IsAudit};
ghost use Rattle.record_counts.specs.cdrc_text.declared.row.Row.{Row};
ghost use Rattle.record_counts.specs.cdrc_text.Fold.{File, holders_in};
ghost use Rattle.record_counts.specs.cdrc_text.Report.{report_of};
ghost use Rattle.record_counts.specs.cdrc_text.Text.{IsReport};
ghost use Rattle.record_counts.specs.Records.{FindsRecords};
ghost use Rattle.cell_law.specs.directory_law.Bytes.{AreBytes, piece_weight};
ghost use Rattle.cell_law.specs.directory_law.Cells.{Area};
ghost use Rattle.cell_law.specs.Promises.{IsSettled};
ghost use Rattle.cell_law.specs.declared.view.View.{View};
ghost use Rattle.cell_law.specs.Views.{view_at};
ghost use Rattle.cell_rest.specs.Kept.{KeepsRecordsOf};
ghost use Rattle.cell_rest.specs.Rest.{HasNoneDeferred};
ghost use Rattle.cell_rest.specs.Written.{AreRowsAt, HaveWords, totals_found};

use plain_audit::Audit;

/// The rows of the records that are kept, counted where the state is settled and nothing is deferred, an audit of that
/// state, and one that found nothing later, are the report of the files whose words were kept, in whatever order of the
/// files.
pub fn what_is_left_is_the_report()
    ensures { (z : Area) (p : Plain) (views : List View) (files : List File)
        (kept : List SlotId) → KeepsRecordsOf z p views files kept → IsSettled p
        → HasNoneDeferred p
        → (all : List File) → ((w : List ℕ) → holders_in w files ≡ holders_in w all)
        → All (λ (words : List (List ℕ)). All AreBytes words) all
        → (rounds : ℕ) (rows : List Row) (slots : List SlotId)
        → AreRowsAt all rounds p kept (view_at views 0) rows slots → HaveWords all rows
        → (ranks : List ℕ) (held freed : Audit)
        → IsAudit piece_weight ranks p held → FindsRecords [] freed
        → IsReport all rounds (report_of rows (totals_found all held freed)) }
{}
