//! What the law gives a caller.
ghost use Rattle.std.specs.Prelude.{◌≡◌, ◌≢◌, ◌+◌, ◌<◌, ◌≤◌, ◌++◌, ◌==◌, ℕ, List, [], map, slice_index_or, true};
ghost use Rattle.std.specs.List.{count_by};
ghost use Rattle.cdrc_text.specs.Fold.{File, occurrences_in, times};
ghost use Rattle.protocol_pairs.specs.plain_state.State.{Plain};
ghost use Rattle.protocol_pairs.specs.plain_protocol.Laws.{Meets};
ghost use Rattle.protocol_pairs.specs.plain_protocol.Owns.{is_alone};
ghost use Rattle.queue_law.specs.declared.view.Item.{Item};
ghost use Rattle.queue_law.specs.declared.view.Taken.{Taken};
ghost use Rattle.queue_law.specs.declared.view.View.{View as QueueView};
ghost use Rattle.queue_law.specs.Views as queue;
ghost use Rattle.queue_law.specs.Chain.{Ends};
ghost use Rattle.queue_law.specs.Law.{QueueLaw};
ghost use Rattle.queue_law.specs.Lists.{popped_times, pushed_times, tagged, taken_items};
ghost use Rattle.directory_law.specs.declared.view.Rope.{Rope};
ghost use Rattle.directory_law.specs.declared.view.View.{View as DirectoryView};
ghost use Rattle.directory_law.specs.Bytes.{text_bytes};
ghost use Rattle.directory_law.specs.Cells.{Area};
ghost use Rattle.directory_law.specs.Law.{IsBound};
ghost use Rattle.directory_law.specs.Payloads.{Text};
ghost use Rattle.directory_law.specs.Views.{Each, In};
ghost use Rattle.directory_law.specs.Views as directory;
ghost use Rattle.words_law.specs.Views.{View, directories, gone, queues};
ghost use Rattle.words_law.specs.Law.{HasText, WasPopped, WasPushed, WordsLaw, head_of};
ghost use Rattle.words_law.specs.Owned.{join_directories};
ghost use Rattle.words_law.specs.Texts.{AllPieces, HasAll, HasOneText, HasRootText, IsAlive, IsLiving, IsOwnList, PushesAre, WordsAgree, all_kept, all_popped, all_pushed, text_of_item, word_of_item, word_times, words_of};
ghost use Rattle.words_law.specs.Fold.{added, gathered, taken_pieces};
ghost use Rattle.words_law.specs.Known.{KnowsMore, KnowsText, KnowsTexts};

/// Each item that was pushed has one text, which a view keeps for its slot, in its life. What a view tells of an
/// item's text is so.
pub fn items_have_texts()
    ensures pushed { (u : Ends) (z : Area) (p : Plain) (views : List View) → WordsLaw u z p views
        → (x : Item) → WasPushed (queues views) x → HasOneText (directories views) x }
    ensures known { (u : Ends) (z : Area) (p : Plain) (views : List View) → WordsLaw u z p views
        → (n : ℕ) (x : Item) (text : Text)
        → KnowsText (directory.view_at (directories views) n) x text
        → HasText (directories views) x text × HasOneText (directories views) x }
{}

/// An item that is alive is the live record of its text, in a cell. So two that are alive and have one text are in one
/// slot; and where all payloads are those of nodes, heads and parts, two that have one word.
pub fn living_items_are_records()
    ensures bound { (u : Ends) (z : Area) (p : Plain) (views : List View) → WordsLaw u z p views
        → (x : Item) (text : Text) → IsAlive p x → HasText (directories views) x text
        → IsBound z p text (head_of x) }
    ensures one { (u : Ends) (z : Area) (p : Plain) (views : List View) → WordsLaw u z p views
        → (x y : Item) (text : Text) → IsAlive p x → IsAlive p y
        → HasText (directories views) x text → HasText (directories views) y text
        → x.slot ≡ y.slot }
    ensures words { (u : Ends) (z : Area) (p : Plain) (views : List View)
        → Meets (WordsLaw u z) p views → AllPieces p → (x y : Item) (text other : Text)
        → IsAlive p x → IsAlive p y → HasText (directories views) x text
        → HasText (directories views) y other → text_bytes text ≡ text_bytes other
        → x.slot ≡ y.slot }
{}

/// Of items that are alive and have a text, those in the slot of one of them are those that have its word: so a count
/// of references to that slot tells how many of them have the word.
pub fn slots_tell_words()
    ensures { (u : Ends) (z : Area) (p : Plain) (views : List View)
        → Meets (WordsLaw u z) p views → AllPieces p → let ds = directories views in
        (y : Item) → IsLiving p ds y → (xs : List Item) → Each (IsLiving p ds) xs
        → count_by (λ (x : Item). x.slot == y.slot) xs
        ≡ word_times (all_kept ds) (word_of_item (all_kept ds) y) xs }
{}

/// A view that keeps and has read what another one does tells what that one tells. Where a seat leaves, seat 0's view
/// tells what the views of both told, of the items of both, in order.
pub fn known_texts_stay()
    ensures one { (v w : DirectoryView) → KnowsMore v w → (x : Item) (text : Text)
        → KnowsText v x text → KnowsText w x text }
    ensures all { (v w : DirectoryView) → KnowsMore v w → (xs : List Item) (ts : List Text)
        → KnowsTexts v xs ts → KnowsTexts w xs ts }
    ensures more { (v : DirectoryView) (xs ys : List Item) (ts us : List Text)
        → KnowsTexts v xs ts → KnowsTexts v ys us → KnowsTexts v (xs ++ ys) (ts ++ us) }
    ensures joined { (v w : DirectoryView) (xs ys : List Item) (ts us : List Text)
        → KnowsTexts v xs ts → KnowsTexts w ys us
        → KnowsTexts (join_directories v w) (xs ++ ys) (ts ++ us) }
{}

/// Each item that was popped was pushed, and at least as often.
pub fn popped_items_were_pushed()
    ensures was { (u : Ends) (p : Plain) (views : List QueueView) → QueueLaw u p views
        → (x : Item) → WasPopped views x → WasPushed views x }
    ensures often { (u : Ends) (p : Plain) (views : List QueueView) → QueueLaw u p views
        → (x : Item) → popped_times x views ≤ pushed_times x views }
{}

/// What stands in the lists of a seat but seat 0 it pushed or popped itself, and no other seat. While it is there,
/// nothing of it stands in seat 0's lists; and what a seat did in two lists is what it did in both together.
pub fn each_list_is_its_seats()
    ensures own { (u : Ends) (p : Plain) (views : List QueueView) (n : ℕ) → QueueLaw u p views
        → n ≢ 0 → IsOwnList n (queue.view_at views n).pushed
        × IsOwnList n (queue.view_at views n).popped }
    ensures others { (u : Ends) (p : Plain) (views : List QueueView) (n : ℕ) → QueueLaw u p views
        → n ≢ 0 → (m : ℕ) → m ≢ n → (tagged m (queue.view_at views n).pushed ≡ [])
        × (tagged m (queue.view_at views n).popped ≡ []) }
    ensures root { (u : Ends) (p : Plain) (views : List QueueView) (n : ℕ) → QueueLaw u p views
        → n ≢ 0 → (queue.view_at views n).here ≡ true
        → (tagged n (queue.view_at views 0).pushed ≡ [])
        × (tagged n (queue.view_at views 0).popped ≡ []) }
    ensures joined { (n : ℕ) (xs ys : List Taken)
        → tagged n (xs ++ ys) ≡ tagged n xs ++ tagged n ys }
{}

/// Where each item was pushed as often as it was popped and is among the rest, so was each word: what waits, or was
/// left, is such a rest. Words of two lists of items add up.
pub fn words_agree()
    ensures even { (kept : List Rope) (w : List ℕ) (views : List QueueView) (rest : List Item)
        → PushesAre views rest → word_times kept w (all_pushed views)
        ≡ word_times kept w (all_popped views) + word_times kept w rest }
    ensures more { (kept : List Rope) (w : List ℕ) (xs ys : List Item)
        → word_times kept w (xs ++ ys) ≡ word_times kept w xs + word_times kept w ys }
{}

/// Once seat 0 is alone, its view has all pushes and pops and all texts: each item that was pushed has one, by what
/// that view keeps, and it is the one that the view tells. Where the queue is shut and nothing was left, each word was
/// pushed as often as it was popped.
pub fn the_root_knows_all()
    ensures lists { (u : Ends) (z : Area) (p : Plain) (views : List View)
        → Meets (WordsLaw u z) p views → is_alone p 0 ≡ true
        → HasAll views (slice_index_or views 0 gone) }
    ensures texts { (u : Ends) (z : Area) (p : Plain) (views : List View)
        → Meets (WordsLaw u z) p views → is_alone p 0 ≡ true
        → let root = slice_index_or views 0 gone in
        (x : Item) → In x (taken_items root.0.pushed) → HasRootText root x }
    ensures known { (u : Ends) (z : Area) (p : Plain) (views : List View)
        → Meets (WordsLaw u z) p views → is_alone p 0 ≡ true
        → let root = slice_index_or views 0 gone in
        (x : Item) (text : Text) → KnowsText root.1 x text → text ≡ text_of_item root.1.kept x }
    ensures words { (u : Ends) (z : Area) (p : Plain) (views : List View)
        → Meets (WordsLaw u z) p views → is_alone p 0 ≡ true
        → let root = slice_index_or views 0 gone in
        3 ≤ root.0.stand.laid → root.0.stand.left ≡ [] → WordsAgree root }
{}

/// Once seat 0 is alone, what its view tells are the words of the items. Where besides the queue is shut and nothing
/// was left, each word is among the texts that it tells of pushed items as often as among those of popped items. So
/// where lanes pushed the pieces of files in some rounds, the words that seats popped add up to what occurs there.
pub fn what_was_read_is_what_was_pushed()
    ensures words { (u : Ends) (z : Area) (p : Plain) (views : List View)
        → Meets (WordsLaw u z) p views → is_alone p 0 ≡ true
        → let root = slice_index_or views 0 gone in
        (xs : List Item) (ts : List Text) → KnowsTexts root.1 xs ts
        → words_of root.1.kept xs ≡ map text_bytes ts }
    ensures even { (u : Ends) (z : Area) (p : Plain) (views : List View)
        → Meets (WordsLaw u z) p views → is_alone p 0 ≡ true
        → let root = slice_index_or views 0 gone in
        3 ≤ root.0.stand.laid → root.0.stand.left ≡ [] → (ts us : List Text)
        → KnowsTexts root.1 (taken_items root.0.pushed) ts
        → KnowsTexts root.1 (taken_items root.0.popped) us
        → (w : List ℕ) → times w (map text_bytes ts) ≡ times w (map text_bytes us) }
    ensures occurrences { (u : Ends) (z : Area) (p : Plain) (views : List View)
        → Meets (WordsLaw u z) p views → is_alone p 0 ≡ true
        → let root = slice_index_or views 0 gone in
        3 ≤ root.0.stand.laid → root.0.stand.left ≡ [] → (ts us : List Text)
        → KnowsTexts root.1 (taken_items root.0.pushed) ts
        → KnowsTexts root.1 (taken_items root.0.popped) us
        → (taker : ℕ → ℕ) (lanes rounds : ℕ) (files : List File) → ((k : ℕ) → taker k < lanes)
        → map text_bytes ts ≡ gathered (taken_pieces taker rounds files) lanes
        → (seats : ℕ) (words : ℕ → List (List ℕ)) → map text_bytes us ≡ gathered words seats
        → (w : List ℕ) → added (λ n. times w (words n)) seats ≡ occurrences_in w rounds files }
{}
