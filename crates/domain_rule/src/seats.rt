//! How seats come and go keeps the rule.
ghost use Rattle.std.specs.Prelude.{ℕ, ◌≡◌, ◌<◌, false, List, []};
ghost use Rattle.atomic_table.specs.Table.{Allows, Joins, Me, Splits, opening};
ghost use Rattle.core_law.specs.core_events.declared.act.Act.TheVariants as act;
ghost use Rattle.core_law.specs.core_events.declared.outcome.Outcome.TheVariants as outcome;
ghost use Rattle.core_law.specs.core_events.declared.shape.Shape.{Shape};
ghost use Rattle.core_law.specs.core_events.Views.{Terms};
ghost use Rattle.core_law.specs.core_events.declared.view.CoreView.{CoreView};
ghost use Rattle.core_law.specs.core_events.Good.{SeatLaw};
ghost use Rattle.core_law.specs.core_events.Runs.{AreTerms, IsShape, taken_over};
ghost use Rattle.core_law.specs.core_events.Steps.{CanLeave, noted};
ghost use Rattle.core_law.specs.core_events.Views.{first_view};
ghost use Rattle.core_law.specs.core_events.Words.{first_words};
ghost use Rattle.domain_rule.specs.declared.view.SeatView.{SeatView};
ghost use Rattle.domain_rule.specs.Opening.{first_of, gone_view, joined_view, opened_more, opened_view};
ghost use Rattle.domain_rule.specs.Reading.{HasRead};
ghost use Rattle.domain_rule.specs.Rule.{Kept};
ghost use Rattle.domain_rule.specs.Views.{quota_at};

use plain_protocol::Protocol;

/// The rule holds of a table with the first words, and of its first seat.
pub fn opening_keeps<P: Protocol>()
    ensures { (it : P) (z : Shape) (ts : Terms) → IsShape z → AreTerms z ts
        → Kept (P.law it) (P.first it) P.gone P.Kind.fits z ts
        (opening (first_words z) [] (first_of (P.first it) z ts)) }
{}

/// Seat 0 keeps it where it opens one more seat.
pub fn split_keeps<P: Protocol>()
    ensures { (it : P) (z : Shape) (ts : Terms) (id : ℕ) (v : SeatView P.View)
        → v.gone ≡ false → v.core.seat ≡ 0 → v.opened < z.seats
        → Splits (Kept (P.law it) (P.first it) P.gone P.Kind.fits z ts) id v (opened_more v)
        (opened_view (P.first it) z ts v.opened) }
{}

/// Seat 0 keeps it where it takes over what another seat has, and that seat leaves.
pub fn leave_keeps<P: Protocol>()
    ensures { (it : P) (z : Shape) (ts : Terms) (id other : ℕ) (v w : SeatView P.View)
        → v.gone ≡ false → w.gone ≡ false → v.core.seat ≡ 0
        → CanLeave v.core → CanLeave w.core
        → Joins (Kept (P.law it) (P.first it) P.gone P.Kind.fits z ts) id v other w
        (joined_view (P.joined it) v w) (gone_view P.gone) }
{}

/// A seat keeps it where it reads a word. What its view says is so of the state in which it read, and from then on it
/// knows the whole core exactly where it is alone.
pub fn reading_keeps<P: Protocol>()
    ensures { (it : P) (z : Shape) (ts : Terms) (slots id word : ℕ)
        (me : Me (Unit {0}) (SeatView P.View)) → me.0.gone ≡ false
        → Allows (Kept (P.law it) (P.first it) P.gone P.Kind.fits z ts) slots id me word (λ w. w)
        (λ w m. HasRead P.Kind.fits z ts word w me.0 m.0 × (m.1 ≡ me.1)) }
{}

/// What holds of a seat by itself holds as it is opened,
pub fn opened_seat_law()
    ensures { (z : Shape) (ts : Terms) (n : ℕ) → IsShape z → AreTerms z ts → n < z.seats
        → SeatLaw z n (first_view z n (quota_at ts.quotas n) ts.grants) }
{}

/// and of seat 0 where it takes over what a seat has that leaves.
pub fn joined_seat_law()
    ensures { (z : Shape) (j : ℕ) (root v : CoreView) → SeatLaw z 0 root → SeatLaw z j v
        → CanLeave root → CanLeave v
        → SeatLaw z 0 (noted (act.Leave j) outcome.Plain (taken_over root v)) }
{}
