//! The makes that tickets grant.
ghost use Rattle.std.specs.Prelude.{◌≡◌, ◌↔◌, ◌<◌, IsTrue, slice_index_or};
ghost use Rattle.core_events.specs.Views.{granted};

/// How many makes who drew this ticket has more.
fn grant_of(grants: &[u64], ticket: u64) -> u64
    ensures { result ≡ slice_index_or grants.now ticket 0 }
{
    match grants.get(ticket as usize) {
        Some(grant) => *grant,
        None => 0,
    }
}

/// Whether these tickets grant more than `used` makes. It goes through them until that is known, and no sum is made
/// that could be too large.
pub fn grant_more(grants: &[u64], tickets: &[u64], used: u64) -> bool
    ensures { IsTrue result ↔ (used < granted grants.now tickets.now) }
{
    let mut left = used;
    for ticket in tickets {
        let grant = grant_of(grants, *ticket);
        if left < grant {
            return true;
        }
        left -= grant;
    }
    false
}
