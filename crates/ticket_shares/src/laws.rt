//! What lanes draw, and what that adds up to.
ghost use Rattle.std.specs.Prelude.{◌≡◌, ◌*◌, ◌<◌, ◌≤◌, ℕ, Bool, List, length, map};
ghost use Rattle.std.specs.List.{count_by, filter, sum_by};
ghost use Rattle.ticket_shares.specs.Tickets.{AreLanes, DrewOnce, IsEachOnce, file_of, is_last, together};

/// Where the tickets that all lanes drew are the numbers below some number, each once, and each lane drew until it came
/// to a ticket of no file, or drew more tickets of files than there are, the lanes' tickets of files are all that there
/// are, each once. There is at least one lane. So no lane drew more of them than there are.
pub fn lanes_draw_each_ticket()
    ensures { (most below : ℕ) (drawn shares : List (List ℕ)) → 0 < length drawn
        → DrewOnce drawn below → AreLanes most drawn shares → IsEachOnce most (together shares) }
{}

/// Of the tickets of some rounds over files, each once: a number of the file of each ticket adds up to the rounds times
/// its sum over the files. Those of the last round stand for each file once, so they count files as they are.
pub fn tickets_go_round<A>()
    ensures sums { (none : A) (files : List A) (rounds : ℕ) (tickets : List ℕ)
        → IsEachOnce (rounds * length files) tickets → (number : A → ℕ)
        → sum_by (λ t. number (file_of none files t)) tickets ≡ rounds * sum_by number files }
    ensures last { (none : A) (files : List A) (rounds : ℕ) (tickets : List ℕ)
        → 1 ≤ rounds → IsEachOnce (rounds * length files) tickets → (is : A → Bool)
        → count_by is (map (file_of none files) (filter (is_last rounds files) tickets))
        ≡ count_by is files }
{}
