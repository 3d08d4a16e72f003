//! How what views tell of kept references goes on.
ghost use Rattle.std.specs.Prelude.{◌++◌, List};
ghost use Rattle.plain_audit.specs.plain_state.declared.slot.SlotId.{SlotId};
ghost use Rattle.record_counts.specs.cdrc_text.Fold.{File};
ghost use Rattle.cell_law.specs.declared.view.View.{View};
ghost use Rattle.cell_law.specs.directory_law.declared.view.Rope.{Rope};
ghost use Rattle.cell_law.specs.directory_law.Views.{In};
ghost use Rattle.cell_law.specs.Views.{joined};
ghost use Rattle.cell_rest.specs.Kept.{TellsFiles, told_by};

/// A view that has all the records that another one has tells what that one tells. So where a seat leaves, seat 0's
/// view tells what either told; and what is told of some files and of others is told of both.
pub fn views_go_on_to_tell()
    ensures more { (v w : View) → ((e : Rope) → In e (told_by v) → In e (told_by w))
        → (files : List File) (kept : List SlotId) → TellsFiles files kept v
        → TellsFiles files kept w }
    ensures stays { (v w : View) (files : List File) (kept : List SlotId)
        → TellsFiles files kept v → TellsFiles files kept (joined v w) }
    ensures comes { (v w : View) (files : List File) (kept : List SlotId)
        → TellsFiles files kept w → TellsFiles files kept (joined v w) }
    ensures both { (v : View) (files others : List File) (kept more : List SlotId)
        → TellsFiles files kept v → TellsFiles others more v
        → TellsFiles (files ++ others) (kept ++ more) v }
{}
