//! All seats leave.
ghost use Rattle.std.specs.Prelude.{◌≡◌, ◌↔◌, ◌+◌, All, length};
ghost use Rattle.seat_life.specs.domain_audit.domain_rule.Views.{IsAlone};
ghost use Rattle.seat_life.specs.Free.{IsRoot, OwnsNothing};
ghost use Rattle.version_map.specs.Playing.{Plays};

use seat_life::leave_all;
use version_map::{Domain, MapLaw, Seat};

/// Seats that play leave to seat 0 one after another, as `leave_all` has it: their entries become those of seat 0, in
/// their order. Seat 0 owns nothing then, and is alone exactly where these were all seats that hadn't left yet. A
/// collect for each seat at most.
pub fn leave_map(domain: &Domain<MapLaw>, root: &mut Seat<MapLaw>, others: Vec<Seat<MapLaw>>)
    requires root { Plays domain.now root.old × (root.old.view.core.seat ≡ 0) }
    requires others { All (Plays domain.now) others.items }
    ensures root { IsRoot domain.now root.new }
    ensures owns { OwnsNothing root.new.view.core }
    ensures alone { IsAlone root.new.view
        ↔ (length root.old.view.core.left_seats + length others.items + 1
        ≡ domain.now.shape.seats) }
{
    leave_all(domain, root, others);
}
