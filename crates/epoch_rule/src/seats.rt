//! How seats come and go keeps the rule.
ghost use Rattle.std.specs.Prelude.{ℕ, ◌≡◌, ◌<◌, false, List, []};
ghost use Rattle.atomic_table.specs.Table.{Allows, Joins, Me, Splits, opening};
ghost use Rattle.epoch_core.specs.core_events.declared.shape.Quota.{Quota};
ghost use Rattle.epoch_core.specs.declared.act.EpochAct.TheVariants as act;
ghost use Rattle.epoch_core.specs.declared.outcome.EpochOutcome.TheVariants as outcome;
ghost use Rattle.epoch_core.specs.declared.shape.EpochShape.{EpochShape};
ghost use Rattle.epoch_core.specs.declared.view.EpochView.{EpochView};
ghost use Rattle.epoch_core.specs.Runs.{AreQuotas, IsShape, taken_over};
ghost use Rattle.epoch_core.specs.Sound.{SeatLaw};
ghost use Rattle.epoch_core.specs.Steps.{CanLeave, noted};
ghost use Rattle.epoch_core.specs.Views.{first_view};
ghost use Rattle.epoch_core.specs.Words.{first_words};
ghost use Rattle.epoch_rule.specs.declared.view.EpochSeatView.{EpochSeatView};
ghost use Rattle.epoch_rule.specs.Opening.{first_of, gone_view, joined_view, opened_more, opened_view};
ghost use Rattle.epoch_rule.specs.Reading.{HasRead};
ghost use Rattle.epoch_rule.specs.Rule.{Kept};
ghost use Rattle.epoch_rule.specs.Views.{quota_at};

use domain_rule::Protocol;

/// The rule holds of a table with the first words, and of its first seat.
pub fn epoch_opening_keeps<P: Protocol>()
    ensures { (it : P) (z : EpochShape) (qs : List Quota) → IsShape z → AreQuotas z qs
        → Kept (P.law it) (P.first it) P.gone P.Kind.fits z qs
        (opening (first_words z) [] (first_of (P.first it) z qs)) }
{}

/// Seat 0 keeps it where it opens one more seat.
pub fn epoch_split_keeps<P: Protocol>()
    ensures { (it : P) (z : EpochShape) (qs : List Quota) (id : ℕ) (v : EpochSeatView P.View)
        → v.gone ≡ false → v.core.seat ≡ 0 → v.opened < z.seats
        → Splits (Kept (P.law it) (P.first it) P.gone P.Kind.fits z qs) id v (opened_more v)
        (opened_view (P.first it) z qs v.opened) }
{}

/// Seat 0 keeps it where it takes over what another seat has, and that seat leaves. Neither has an open region.
pub fn epoch_leave_keeps<P: Protocol>()
    ensures { (it : P) (z : EpochShape) (qs : List Quota) (id other : ℕ)
        (v w : EpochSeatView P.View)
        → v.gone ≡ false → w.gone ≡ false → v.core.seat ≡ 0
        → CanLeave v.core → CanLeave w.core
        → Joins (Kept (P.law it) (P.first it) P.gone P.Kind.fits z qs) id v other w
        (joined_view (P.joined it) v w) (gone_view P.gone) }
{}

/// A seat keeps it where it reads a word. What its view says is so of the state in which it read, and from then on it
/// knows the whole core exactly where it is alone.
pub fn epoch_reading_keeps<P: Protocol>()
    ensures { (it : P) (z : EpochShape) (qs : List Quota) (slots id word : ℕ)
        (me : Me (Unit {0}) (EpochSeatView P.View)) → me.0.gone ≡ false
        → Allows (Kept (P.law it) (P.first it) P.gone P.Kind.fits z qs) slots id me word (λ w. w)
        (λ w m. HasRead P.Kind.fits z qs word w me.0 m.0 × (m.1 ≡ me.1)) }
{}

/// What holds of a seat by itself holds as it is opened,
pub fn epoch_opened_seat_law()
    ensures { (z : EpochShape) (qs : List Quota) (n : ℕ) → IsShape z → AreQuotas z qs → n < z.seats
        → SeatLaw z n (first_view z n (quota_at qs n)) }
{}

/// and of seat 0 where it takes over what a seat has that leaves.
pub fn epoch_joined_seat_law()
    ensures { (z : EpochShape) (j : ℕ) (root v : EpochView) → SeatLaw z 0 root → SeatLaw z j v
        → CanLeave root → CanLeave v
        → SeatLaw z 0 (noted (act.Leave j) outcome.Plain (taken_over root v)) }
{}
