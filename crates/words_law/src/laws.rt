//! What steps leave of the law.
ghost use Rattle.std.specs.Prelude.{◌≡◌, ◌+◌, ◌++◌, ℕ, [], ◌∷◌};
ghost use Rattle.protocol_pairs.specs.plain_state.declared.act.EventPlace.TheVariants.{Field};
ghost use Rattle.protocol_pairs.specs.plain_state.declared.act.PlainAct.{PlainAct};
ghost use Rattle.protocol_pairs.specs.plain_state.declared.slot.SlotId.{SlotId};
ghost use Rattle.protocol_pairs.specs.plain_state.Places.{HoldsStrongly};
ghost use Rattle.protocol_pairs.specs.plain_protocol.Laws.{Starts, KeptByCalm, KeptByForeign, KeptByLeave};
ghost use Rattle.protocol_pairs.specs.plain_protocol.Owns.{OwnPart};
ghost use Rattle.protocol_pairs.specs.Parts.{KeepsRest};
ghost use Rattle.protocol_pairs.specs.Spared.{IsSpared};
ghost use Rattle.queue_law.specs.declared.view.Item.{Item};
ghost use Rattle.queue_law.specs.declared.view.Taken.{Taken};
ghost use Rattle.queue_law.specs.declared.view.View.{View as QueueView};
ghost use Rattle.queue_law.specs.Chain.{Ends};
ghost use Rattle.queue_law.specs.Law.{WholeLaw};
ghost use Rattle.queue_law.specs.Owned as queue_owned;
ghost use Rattle.queue_law.specs.Pops.{popped_view};
ghost use Rattle.directory_law.specs.declared.view.View.{View as DirectoryView};
ghost use Rattle.directory_law.specs.Cells.{Area};
ghost use Rattle.directory_law.specs.Law.{DirectoryLaw};
ghost use Rattle.directory_law.specs.Lessons.{HasSeen, ReadReady};
ghost use Rattle.directory_law.specs.Owned as directory_owned;
ghost use Rattle.directory_law.specs.Steps.{LooksAt, id, life_in};
ghost use Rattle.directory_law.specs.Payloads.{Text};
ghost use Rattle.directory_law.specs.Views.{In, rope};
ghost use Rattle.words_law.specs.Views.{View, gone};
ghost use Rattle.words_law.specs.Law.{WordsLaw, head_of};
ghost use Rattle.words_law.specs.Owned.{owns, first_view, joined};
ghost use Rattle.words_law.specs.Reading.{HasPopped, begin_next};
ghost use Rattle.words_law.specs.Pushes.{KeepsAll, MayPush, PushesBound, SawAll};

/// The law holds of the state with nothing in it and the first views. Calm steps keep it, and so do steps that leave
/// alone what the queue and the directory own, and a seat that leaves, whose view joins that of seat 0.
pub fn others_keep_the_law()
    ensures start { (u : Ends) (z : Area) → Starts (WordsLaw u z) (first_view u z) }
    ensures calm { (u : Ends) (z : Area) → KeptByCalm (WordsLaw u z) }
    ensures foreign { (u : Ends) (z : Area) → KeptByForeign (WordsLaw u z) (owns u z) }
    ensures leave { (u : Ends) (z : Area) → KeptByLeave (WordsLaw u z) joined gone }
{}

/// A step that keeps the queue's law and spares the directory keeps the whole law, where the seat has pushed nothing
/// but what it may push. A step that keeps the directory's law and spares the queue keeps it, where the seat keeps all
/// that it kept.
pub fn each_part_keeps_the_law()
    ensures queue { (u : Ends) (z : Area)
        → KeepsRest (WordsLaw u z) (WholeLaw u) (λ v. v.0) gone (λ v w. (w, v.1))
        (IsSpared (directory_owned.owns z)) PushesBound }
    ensures directory { (u : Ends) (z : Area)
        → KeepsRest (WordsLaw u z) (DirectoryLaw z) (λ v. v.1) gone (λ v w. (v.0, w))
        (IsSpared (queue_owned.owns u)) KeepsAll }
{}

/// A next view of the queue suits that has pushed nothing more, or one item more that the seat may push. A seat may
/// push a head that it saw in a cell, in the life in which it now has it, and one that it bound. What it may push, it
/// may push whatever it did with the queue, and until its view of the directory forgets what it saw or keeps.
pub fn what_may_be_pushed()
    ensures nothing { (v : View) (w : QueueView) → w.pushed ≡ v.0.pushed → PushesBound v w }
    ensures one { (v : View) (w : QueueView) (e : Taken) → w.pushed ≡ v.0.pushed ++ e ∷ []
        → MayPush v e.item → PushesBound v w }
    ensures seen { (own : OwnPart) (v : View) (x : Item) → HasSeen own v.1 (head_of x)
        → x.life ≡ life_in own (head_of x) → MayPush v x }
    ensures bound { (v : View) (x : Item) (text : Text)
        → In (rope (head_of x) x.life text) v.1.kept → MayPush v x }
    ensures kept { (v : View) (w : QueueView) (x : Item) → MayPush v x → MayPush (w, v.1) x }
    ensures stays { (v : View) (w : DirectoryView) (x : Item) → SawAll v w → KeepsAll v w
        → MayPush v x → MayPush (v.0, w) x }
{}

/// The deeds by which a popped item is read follow one another: the item that a seat takes may be read, and what it
/// begins to read it may read on, both while it holds the item's slot in the same life.
pub fn items_are_read_in_turn()
    ensures taken { (own later : OwnPart) (v : QueueView) (item : ℕ) → v.eyes.found ≡ item + 1
        → life_in later (id item) ≡ life_in own (id item)
        → HasPopped later (popped_view own v) (id item) }
    ensures begun { (own after later : OwnPart) (v : View) (step next : PlainAct) (found : ℕ)
        (s : SlotId) → LooksAt (Field s 1) step → LooksAt (Field s 1) next
        → HoldsStrongly later.seat s → life_in later s ≡ life_in own s
        → ReadReady later (begin_next own after v step found).1 next }
{}
