//! Acts on slots: objects that are made, read and destroyed; and what a player may ask about itself.
ghost use Rattle.std.specs.Prelude.{◌≡◌, ◌≤◌, ◌^◌, slice_index};
ghost use Rattle.handle_tests.specs.Plays.{Plays};

use crate::acts::Said;
use crate::player::{FirstWord, Objects, Player, note_strong, strong_at};
use control_word::{AnyStep, Domain, Outcome};
use domain_audit::{Audit, audit_domain};
use slot_store::{Deleter, MakeError, read, settle};

fn refused(error: MakeError) -> Said {
    match error {
        MakeError::MakesSpent => Said::MakesSpent,
        MakeError::AddsSpent => Said::AddsSpent,
        MakeError::Full => Said::Full,
    }
}

/// The payload of an object of this weight.
fn payload_of(weight: u32) -> [u64; 16]
    ensures { slice_index result 0 ≤ 2 ^ 32 }
{
    let mut payload = [0; 16];
    payload[0] = u64::from(weight);
    payload
}

pub(crate) fn make(domain: &Domain<Objects>, player: &mut Player, weight: u32) -> Said
    requires { Plays domain.now player.old.seat player.old.strongs.items player.old.weaks.items }
    ensures plays { Plays domain.now player.new.seat player.new.strongs.items
        player.new.weaks.items }
    ensures notes { player.new.seat.view.core.notes ≡ player.old.seat.view.core.notes }
{
    let payload = payload_of(weight);
    match slot_store::make(domain, &mut player.seat, &payload, AnyStep) {
        Ok(strong) => note_strong(domain, player, strong),
        Err(error) => refused(error),
    }
}

pub(crate) fn read_first(domain: &Domain<Objects>, player: &mut Player, index: usize) -> Said
    requires { Plays domain.now player.old.seat player.old.strongs.items player.old.weaks.items }
    ensures plays { Plays domain.now player.new.seat player.new.strongs.items
        player.new.weaks.items }
    ensures notes { player.new.seat.view.core.notes ≡ player.old.seat.view.core.notes }
{
    let Some(slot) = strong_at(domain, player, index) else {
        return Said::Never;
    };
    Said::Number(read(domain, &mut player.seat, slot, 0))
}

pub(crate) fn collect(domain: &Domain<Objects>, player: &mut Player) -> Said
    requires { Plays domain.now player.old.seat player.old.strongs.items player.old.weaks.items }
    ensures plays { Plays domain.now player.new.seat player.new.strongs.items
        player.new.weaks.items }
    ensures notes { player.new.seat.view.core.notes ≡ player.old.seat.view.core.notes }
{
    slot_store::collect(domain, &mut player.seat);
    Said::Done
}

pub(crate) fn reap(domain: &Domain<Objects>, player: &mut Player) -> Said
    requires { Plays domain.now player.old.seat player.old.strongs.items player.old.weaks.items }
    ensures plays { Plays domain.now player.new.seat player.new.strongs.items
        player.new.weaks.items }
    ensures notes { player.new.seat.view.core.notes ≡ player.old.seat.view.core.notes }
{
    let deleter: Deleter<FirstWord, _> = Deleter::keep(|payload: &[u64; 16]| payload[0]);
    match slot_store::reap(domain, &mut player.seat, &deleter) {
        Some(weight) => Said::Number(weight),
        None => Said::Nothing,
    }
}

pub(crate) fn settle_all(domain: &Domain<Objects>, player: &mut Player) -> Said
    requires { Plays domain.now player.old.seat player.old.strongs.items player.old.weaks.items }
    ensures plays { Plays domain.now player.new.seat player.new.strongs.items
        player.new.weaks.items }
    ensures notes { player.new.seat.view.core.notes ≡ player.old.seat.view.core.notes }
{
    let deleter: Deleter<FirstWord, _> = Deleter::keep(|payload: &[u64; 16]| payload[0]);
    if !domain.alone(&player.seat) {
        return Said::Never;
    }
    Said::Number(settle(domain, &mut player.seat, &deleter))
}

pub(crate) fn draw_ticket(domain: &Domain<Objects>, player: &mut Player) -> Said
    requires { Plays domain.now player.old.seat player.old.strongs.items player.old.weaks.items }
    ensures plays { Plays domain.now player.new.seat player.new.strongs.items
        player.new.weaks.items }
    ensures notes { player.new.seat.view.core.notes ≡ player.old.seat.view.core.notes }
{
    if domain.adds_left(&player.seat) == 0 {
        return Said::Spent;
    }
    match domain.ticket(&mut player.seat, AnyStep) {
        Outcome::Number(ticket) => Said::Number(ticket),
        _ => Said::Never,
    }
}

/// What an audit found.
fn found_by(audit: &Audit) -> Said {
    let counts = (audit.live, audit.deferred, audit.cyclic, audit.bytes);
    match audit.walk.first() {
        Some(slot) => Said::Found(counts, (slot.0, audit.walk.len())),
        None => Said::Found(counts, (0, 0)),
    }
}

pub(crate) fn audit(domain: &Domain<Objects>, player: &mut Player, least: u32) -> Said
    requires { Plays domain.now player.old.seat player.old.strongs.items player.old.weaks.items }
    ensures plays { Plays domain.now player.new.seat player.new.strongs.items
        player.new.weaks.items }
    ensures notes { player.new.seat.view.core.notes ≡ player.old.seat.view.core.notes }
{
    if least >= 4 || domain.shape().slots != 4 {
        return Said::Never;
    }
    if !domain.alone(&player.seat) || domain.next_dying(&player.seat).is_some() {
        return Said::Never;
    }
    let mut rank = [1, 2, 3, 4];
    rank[least as usize] = 0;
    let weigh: Deleter<FirstWord, _> = Deleter::keep(|payload: &[u64; 16]| payload[0]);
    match audit_domain(player.alloc, domain, &mut player.seat, &weigh, &rank) {
        Ok(found) => found_by(&found),
        Err(_) => Said::Never,
    }
}
