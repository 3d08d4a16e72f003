//! The rule of ejection, in its own words.
ghost use Rattle.std.specs.Prelude.{◌≡◌, ◌+◌, List, length};
ghost use Rattle.plain_state.specs.Lists.{Entry};
ghost use Rattle.plain_state.specs.Ejection.{Announcements, kept, ejected, IsSublist, KeepsTheSmaller, LosesNothing, KeepsTheEarlier};

/// What is kept and what is ejected, of every list and for all announcements. It does nothing.
pub fn laws_of_ejection()
    ensures smaller { (es : List Entry) (seen : Announcements) → KeepsTheSmaller es seen }
    ensures whole { (es : List Entry) (seen : Announcements) → LosesNothing es seen }
    ensures earlier { (front : List Entry) (seen : Announcements) → KeepsTheEarlier front seen }
    ensures kept_in_order { (es : List Entry) (seen : Announcements) → IsSublist (kept es seen) es }
    ensures ejected_in_order { (es : List Entry) (seen : Announcements)
        → IsSublist (ejected es seen) es }
    ensures lengths { (es : List Entry) (seen : Announcements)
        → length (kept es seen) + length (ejected es seen) ≡ length es }
{}
