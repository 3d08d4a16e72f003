//! That just the records which seat 0 owns are left.
ghost use Rattle.std.specs.Prelude.{◌≡◌, ◌≢◌, ◌<◌, ℕ, List, [], length, sum_by};
ghost use Rattle.plain_audit.specs.plain_state.declared.slot.SlotId.{SlotId};
ghost use Rattle.plain_audit.specs.plain_state.declared.slot.Stage.TheVariants.{Live};
ghost use Rattle.plain_audit.specs.plain_state.Lists.{times};
ghost use Rattle.plain_audit.specs.plain_state.References.{strong_refs};
ghost use Rattle.plain_audit.specs.plain_state.State.{Plain, seat_at, slot_at, stage_at};
ghost use Rattle.plain_audit.specs.plain_protocol.Laws.{Meets};
ghost use Rattle.words_law.specs.protocol_pairs.Shares.{weight_in_part};
ghost use Rattle.words_law.specs.queue_law.declared.view.Item.{Item};
ghost use Rattle.words_law.specs.queue_law.Chain.{Ends};
ghost use Rattle.words_law.specs.directory_law.Bytes.{piece_weight};
ghost use Rattle.words_law.specs.directory_law.Cells.{Area};
ghost use Rattle.words_law.specs.directory_law.Law.{IsBound};
ghost use Rattle.words_law.specs.directory_law.Payloads.{IsHead};
ghost use Rattle.plain_audit.specs.Audits.{IsAudit, live_bytes, live_slots};
ghost use Rattle.words_law.specs.cdrc_text.Text.{slots_of_word};
ghost use Rattle.words_law.specs.Law.{WordsLaw, head_of};
ghost use Rattle.words_law.specs.Texts.{AllPieces, IsAlive, all_kept, text_in, word_of_item};
ghost use Rattle.words_law.specs.Views.{View, directories};
ghost use Rattle.words_rest.specs.Nodes.{HasNoNode};
ghost use Rattle.words_rest.specs.Records.{AreOwned, FindsRecords, word_at, words_at};
ghost use Rattle.words_rest.specs.Rest.{IsLeft};

use plain_audit::Audit;

/// What seat 0 owns is the live record of its text. Where no node is left, each head has just the strong references
/// that seat 0 owns. The word of a slot is that of each item that is alive in it.
pub fn heads_are_counted()
    ensures bound { (u : Ends) (z : Area) (p : Plain) (views : List View)
        → Meets (WordsLaw u z) p views → IsLeft p views
        → (s : SlotId) → 0 < times s (seat_at p 0).owned
        → IsBound z p (text_in (all_kept (directories views)) s (slot_at p s).life) s }
    ensures counts { (u : Ends) (z : Area) (p : Plain) (views : List View)
        → Meets (WordsLaw u z) p views → AllPieces p → IsLeft p views → HasNoNode p
        → (s : SlotId) → IsHead (slot_at p s).payload
        → strong_refs p s ≡ times s (seat_at p 0).owned }
    ensures words { (p : Plain) (views : List View) (x : Item) → IsAlive p x
        → word_at p views (head_of x) ≡ word_of_item (all_kept (directories views)) x }
{}

/// Where no node is left, what lives are the slots of the records that seat 0 owns: as many as their words take, and
/// they weigh as much as these have bytes, whatever a node weighs.
pub fn records_are_left()
    ensures slots { (u : Ends) (z : Area) (p : Plain) (views : List View)
        → Meets (WordsLaw u z) p views → AllPieces p → IsLeft p views → HasNoNode p
        → (heads : List SlotId) → AreOwned p heads
        → live_slots p ≡ sum_by slots_of_word (words_at p views heads) }
    ensures bytes { (u : Ends) (z : Area) (p : Plain) (views : List View)
        → Meets (WordsLaw u z) p views → AllPieces p → IsLeft p views → HasNoNode p
        → (heads : List SlotId) → AreOwned p heads → (weight : List ℕ → ℕ)
        → live_bytes (weight_in_part weight piece_weight) p
        ≡ sum_by (λ (w : List ℕ). length w) (words_at p views heads) }
{}

/// Where besides seat 0 owns nothing, nothing lives.
pub fn nothing_is_left()
    ensures none { (u : Ends) (z : Area) (p : Plain) (views : List View)
        → Meets (WordsLaw u z) p views → AllPieces p → IsLeft p views → HasNoNode p
        → ((s : SlotId) → times s (seat_at p 0).owned ≡ 0)
        → (s : SlotId) → stage_at p s ≢ Live }
    ensures slots { (u : Ends) (z : Area) (p : Plain) (views : List View)
        → Meets (WordsLaw u z) p views → AllPieces p → IsLeft p views → HasNoNode p
        → ((s : SlotId) → times s (seat_at p 0).owned ≡ 0) → live_slots p ≡ 0 }
    ensures bytes { (u : Ends) (z : Area) (p : Plain) (views : List View)
        → Meets (WordsLaw u z) p views → AllPieces p → IsLeft p views → HasNoNode p
        → ((s : SlotId) → times s (seat_at p 0).owned ≡ 0)
        → (weight : List ℕ → ℕ) → live_bytes weight p ≡ 0 }
{}

/// Where no node is left, an audit finds the records that seat 0 owns and nothing else; and where besides seat 0 owns
/// nothing, it finds nothing.
pub fn audits_find_records()
    ensures held { (u : Ends) (z : Area) (p : Plain) (views : List View)
        → Meets (WordsLaw u z) p views → AllPieces p → IsLeft p views → HasNoNode p
        → (heads : List SlotId) → AreOwned p heads
        → (weight : List ℕ → ℕ) (ranks : List ℕ) (found : Audit)
        → IsAudit (weight_in_part weight piece_weight) ranks p found
        → FindsRecords (words_at p views heads) found }
    ensures freed { (u : Ends) (z : Area) (p : Plain) (views : List View)
        → Meets (WordsLaw u z) p views → AllPieces p → IsLeft p views → HasNoNode p
        → ((s : SlotId) → times s (seat_at p 0).owned ≡ 0)
        → (weight : List ℕ → ℕ) (ranks : List ℕ) (found : Audit)
        → IsAudit weight ranks p found → FindsRecords [] found }
{}
