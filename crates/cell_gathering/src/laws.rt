//! What the tickets of all lanes come to, and what seat 0 knows of the words of the work.
ghost use Rattle.std.specs.Prelude.{◌≡◌, ◌<◌, ◌≤◌, ℕ, All, List, length};
ghost use Rattle.cell_rest.specs.Kept.{TellsFiles, TellsWord};
ghost use Rattle.cell_rest.specs.cdrc_text.Fold.{File, holders_in};
ghost use Rattle.cell_rest.specs.cell_law.declared.view.View.{View};
ghost use Rattle.cell_rest.specs.cell_law.directory_law.Bytes.{AreBytes};
ghost use Rattle.cell_rest.specs.cell_law.plain_state.declared.slot.SlotId.{SlotId};
ghost use Rattle.cell_rest.specs.cell_law.plain_state.Lists.{times};
ghost use Rattle.cell_lanes.specs.lane_work.Sizes.{texts_in};
ghost use Rattle.cell_lanes.specs.lane_work.Work.{all_tickets};
ghost use Rattle.cell_lanes.specs.lane_work.declared.work.Work.{Work};
ghost use Rattle.ticket_shares.specs.Tickets.{IsEachOnce};
ghost use Rattle.cell_gathering.specs.Shares.{gathered_files, tickets_of};

use cell_lanes::Work;

/// The tickets that so many lanes take are all tickets of the work's files, each once.
pub fn lanes_take_each_ticket()
    ensures { (work : Work) (lanes : ℕ) → 0 < lanes
        → IsEachOnce (all_tickets work) (tickets_of work lanes) }
{}

/// The files whose records lanes keep are the work's files, once each, in another order: of each word as many have it.
/// What is so of each file of the work, and of no words, is so of each of them.
pub fn gathered_files_are_those_of_work()
    ensures holders { (work : Work) (lanes : ℕ) → 1 ≤ work.rounds → 0 < lanes → (w : List ℕ)
        → holders_in w (gathered_files work lanes) ≡ holders_in w (texts_in work) }
    ensures bytes { (work : Work) (lanes : ℕ)
        → All (λ (words : File). All AreBytes words) (texts_in work)
        → All (λ (words : File). All AreBytes words) (gathered_files work lanes) }
{}

/// A view that tells these files of what is kept tells of each word of the work a slot that is kept.
pub fn each_word_is_told()
    ensures { (work : Work) (lanes : ℕ) → 1 ≤ work.rounds → 0 < lanes
        → (kept : List SlotId) (v : View) → TellsFiles (gathered_files work lanes) kept v
        → (w : List ℕ) → 0 < holders_in w (texts_in work)
        → (s : SlotId) × (0 < times s kept) × TellsWord v w s }
{}

/// The words of the work are of bytes, since its files are. It changes nothing. Linear in the files.
pub fn words_are_bytes(work: &Work)
    ensures { All (λ (words : File). All AreBytes words) (texts_in work.now) }
{
    for file in &work.files {
        are_bytes(&file.bytes);
    }
}

/// Bytes are below 256.
fn are_bytes(bytes: &[u8])
    ensures { AreBytes bytes.now }
{}
