//! Slots with the text of a record that doesn't stand in a cell yet.
ghost use Rattle.std.specs.Prelude.{◌≡◌, ◌+◌, ◌<◌, ◌≤◌, [], ◌∷◌, Err, IfOk, OnErr, drop, length};
ghost use Rattle.std.specs.Int.{div_ceil};
ghost use Rattle.atomic_shared.specs.plain_state.Lists.{times};
ghost use Rattle.slot_store.specs.core_events.Steps.{HasRoom};
ghost use Rattle.slot_store.specs.core_events.Views.{without};
ghost use Rattle.slot_store.specs.control_word.Resting.{IsAtRest, IsSpent};
ghost use Rattle.slot_store.specs.domain_rule.Views.{object_in};
ghost use Rattle.slot_store.specs.declared.making.MakeError.TheVariants as refused;
ghost use Rattle.slot_store.specs.Calls.{HasNoMake};
ghost use Rattle.directory_calls.specs.directory_law.Bytes.{IsPiece, IsTextOf};
ghost use Rattle.directory_calls.specs.directory_law.Payloads.{IsOwn, IsPart};
ghost use Rattle.directory_calls.specs.Steps.{Leaves, handle_by, with_found};
ghost use Rattle.record_making.specs.Making.{AddsAsMakes, HasText, HasTwo, Links, MissesWithin, Notes, NotesOnly, PutsBefore, candidate_in, made_by, with_notes};
ghost use Rattle.record_texts.specs.Texts.{parts_after, parts_of, text_of};

use crate::unless_ripe::UnlessRipe;
use atomic_shared::{Place, SlotId, Strong, drop_strong, store};
use directory_calls::{DirectoryLaw, HasDirectory, LinkPart, MakeSlot};
use record_texts::{head_of, part_at};
use slot_store::{Domain, InPart, MakeError, Seat, make};

/// Makes the slots of a text of 1 to 4,096 bytes, the last part first, and links each to the one that was made before
/// it. The head stands nowhere, and is noted last with the whole text. Where a make is refused, with its causes, what
/// was made so far is given up. One add for each make.
pub fn make_record<S, P: HasDirectory<S>>(
    domain: &Domain<P>,
    seat: &mut Seat<P>,
    text: &[u8],
) -> Result<Strong, MakeError>
    requires rest { IsAtRest domain.now seat.old }
    requires room { HasRoom seat.old.view.core }
    requires text { (1 ≤ length text.now) × (length text.now ≤ 4096) }
    ensures noted { IfOk result (λ head. Notes P.seen P.with_seen
        (candidate_in head.slot (text_of text.now) seat.new)
        seat.old.view.client seat.new.view.client) }
    ensures text { IsTextOf text.now (text_of text.now) }
    ensures no_make { result ≡ Err refused.MakesSpent → HasNoMake seat.new.view.core }
    ensures adds { result ≡ Err refused.AddsSpent → IsSpent seat.new.view.core }
    ensures full { result ≡ Err refused.Full
        → MissesWithin P.Kind.fits domain.now seat.old seat.new }
    ensures client { OnErr result
        (NotesOnly P.seen P.with_seen seat.old.view.client seat.new.view.client) }
    ensures owned { IfOk result (λ made. 0 < times made.slot seat.new.view.core.owned) }
    ensures leaves { Leaves (with_found (handle_by result) seat.old.view.core.owned)
        seat.old.view.core.weaks seat.old seat.new }
    ensures makes { seat.new.view.core.makes
        ≤ seat.old.view.core.makes + div_ceil (length text.now) 120 }
    ensures used { AddsAsMakes seat.old.view.core seat.new.view.core }
    ensures all { IfOk result (λ head. seat.new.view.core.makes
        ≡ seat.old.view.core.makes + div_ceil (length text.now) 120) }
    ensures room { HasRoom seat.new.view.core }
    ensures rest { IsAtRest domain.now seat.new }
{
    let head = head_of(text);
    if text.len() <= 120 {
        return make_slot::<S, P>(domain, seat, &head);
    }
    let rest = make_parts::<S, P>(domain, seat, text)?;
    make_before::<S, P>(domain, seat, &head, rest)
}

/// Makes all parts of a text of more than 120 bytes. The first one stands nowhere, and is noted last with them all.
fn make_parts<S, P: HasDirectory<S>>(
    domain: &Domain<P>,
    seat: &mut Seat<P>,
    text: &[u8],
) -> Result<Strong, MakeError>
    requires rest { IsAtRest domain.now seat.old }
    requires room { HasRoom seat.old.view.core }
    requires text { (120 < length text.now) × (length text.now ≤ 4096) }
    ensures noted { IfOk result (λ front. Notes P.seen P.with_seen
        (candidate_in front.slot (parts_of (parts_after (length text.now)) (drop 120 text.now))
        seat.new) seat.old.view.client seat.new.view.client) }
    ensures part { IfOk result (λ front. IsPart (object_in seat.new.view front.slot).payload) }
    ensures no_make { result ≡ Err refused.MakesSpent → HasNoMake seat.new.view.core }
    ensures adds { result ≡ Err refused.AddsSpent → IsSpent seat.new.view.core }
    ensures full { result ≡ Err refused.Full
        → MissesWithin P.Kind.fits domain.now seat.old seat.new }
    ensures client { OnErr result
        (NotesOnly P.seen P.with_seen seat.old.view.client seat.new.view.client) }
    ensures owned { IfOk result (λ made. 0 < times made.slot seat.new.view.core.owned) }
    ensures leaves { Leaves (with_found (handle_by result) seat.old.view.core.owned)
        seat.old.view.core.weaks seat.old seat.new }
    ensures makes { seat.new.view.core.makes
        ≤ seat.old.view.core.makes + parts_after (length text.now) }
    ensures used { AddsAsMakes seat.old.view.core seat.new.view.core }
    ensures all { IfOk result (λ front. seat.new.view.core.makes
        ≡ seat.old.view.core.makes + parts_after (length text.now)) }
    ensures room { HasRoom seat.new.view.core }
    ensures rest { IsAtRest domain.now seat.new }
{
    let parts = (text.len() - 1) / 120;
    let mut front = make_slot::<S, P>(domain, seat, &part_at(text, parts - 1))?;
    for made in 1..parts {
        front = make_before::<S, P>(domain, seat, &part_at(text, parts - 1 - made), front)?;
    }
    Ok(front)
}

/// Makes a slot with this payload, and links it to the part that was made before it, which it takes over.
fn make_before<S, P: HasDirectory<S>>(
    domain: &Domain<P>,
    seat: &mut Seat<P>,
    payload: &[u64; 16],
    rest: Strong,
) -> Result<Strong, MakeError>
    requires rest { IsAtRest domain.now seat.old }
    requires room { HasRoom seat.old.view.core }
    requires piece { IsPiece payload.now }
    requires owned { 0 < times rest.slot seat.old.view.core.owned }
    requires part { IsPart (object_in seat.old.view rest.slot).payload }
    requires noted { HasText P.seen rest.slot seat.old }
    ensures before { IfOk result (λ front. PutsBefore P.seen P.with_seen payload.now rest.slot
        front.slot seat.old seat.new) }
    ensures made { IfOk result (λ front. (object_in seat.new.view front.slot).payload
        ≡ payload.now) }
    ensures no_make { result ≡ Err refused.MakesSpent → HasNoMake seat.new.view.core }
    ensures adds { result ≡ Err refused.AddsSpent → IsSpent seat.new.view.core }
    ensures full { result ≡ Err refused.Full
        → MissesWithin P.Kind.fits domain.now seat.old seat.new }
    ensures client { OnErr result
        (NotesOnly P.seen P.with_seen seat.old.view.client seat.new.view.client) }
    ensures owned { IfOk result (λ made. 0 < times made.slot seat.new.view.core.owned) }
    ensures leaves { Leaves (with_found (handle_by result)
        (without rest.slot seat.old.view.core.owned)) seat.old.view.core.weaks seat.old seat.new }
    ensures makes { seat.new.view.core.makes ≡ seat.old.view.core.makes + made_by result }
    ensures used { AddsAsMakes seat.old.view.core seat.new.view.core }
    ensures room { HasRoom seat.new.view.core }
    ensures rest { IsAtRest domain.now seat.new }
{
    match make_slot::<S, P>(domain, seat, payload) {
        Ok(front) => {
            link::<S, P>(domain, seat, front.slot(), rest);
            Ok(front)
        }
        Err(error) => {
            drop_strong(domain, seat, rest);
            Err(error)
        }
    }
}

/// Field 1 of the slot that was made last gets the part that was made before it. One step, and a collect where one is
/// due then.
fn link<S, P: HasDirectory<S>>(domain: &Domain<P>, seat: &mut Seat<P>, front: SlotId, rest: Strong)
    requires rest { IsAtRest domain.now seat.old }
    requires room { HasRoom seat.old.view.core }
    requires own { IsOwn (object_in seat.old.view front).payload }
    requires owned { 0 < times front seat.old.view.core.owned }
    requires left { 0 < times front (without rest.slot seat.old.view.core.owned) }
    requires rest_owned { 0 < times rest.slot seat.old.view.core.owned }
    requires part { IsPart (object_in seat.old.view rest.slot).payload }
    requires noted { HasTwo P.seen front rest.slot seat.old }
    ensures links { Links P.seen P.with_seen front rest.slot seat.old seat.new }
    ensures leaves { Leaves (without rest.slot seat.old.view.core.owned)
        seat.old.view.core.weaks seat.old seat.new }
    ensures makes { seat.new.view.core.makes ≡ seat.old.view.core.makes }
    ensures used { AddsAsMakes seat.old.view.core seat.new.view.core }
    ensures room { HasRoom seat.new.view.core }
    ensures rest { IsAtRest domain.now seat.new }
{
    let deed = InPart::<DirectoryLaw, S, UnlessRipe<LinkPart>>::new(UnlessRipe { deed: LinkPart });
    store(domain, seat, Place::Field(front, 1), Some(rest), deed);
}

/// Makes a slot with the payload of a head or a part. It stands nowhere, and is noted last. Refused with the causes of
/// `make`, and then nothing is noted.
fn make_slot<S, P: HasDirectory<S>>(
    domain: &Domain<P>,
    seat: &mut Seat<P>,
    payload: &[u64; 16],
) -> Result<Strong, MakeError>
    requires rest { IsAtRest domain.now seat.old }
    requires room { HasRoom seat.old.view.core }
    requires piece { IsPiece payload.now }
    ensures made { IfOk result (λ slot. (object_in seat.new.view slot.slot).payload
        ≡ payload.now) }
    ensures noted { IfOk result (λ slot. seat.new.view.client
        ≡ P.with_seen seat.old.view.client (with_notes
        (candidate_in slot.slot (payload.now ∷ []) seat.new
        ∷ (P.seen seat.old.view.client).noted) (P.seen seat.old.view.client))) }
    ensures no_make { result ≡ Err refused.MakesSpent → HasNoMake seat.new.view.core }
    ensures adds { result ≡ Err refused.AddsSpent → IsSpent seat.new.view.core }
    ensures full { result ≡ Err refused.Full
        → MissesWithin P.Kind.fits domain.now seat.old seat.new }
    ensures client { OnErr result
        (NotesOnly P.seen P.with_seen seat.old.view.client seat.new.view.client) }
    ensures owned { IfOk result (λ made. 0 < times made.slot seat.new.view.core.owned) }
    ensures leaves { Leaves (with_found (handle_by result) seat.old.view.core.owned)
        seat.old.view.core.weaks seat.old seat.new }
    ensures makes { seat.new.view.core.makes ≡ seat.old.view.core.makes + made_by result }
    ensures used { AddsAsMakes seat.old.view.core seat.new.view.core }
    ensures room { HasRoom seat.new.view.core }
    ensures rest { IsAtRest domain.now seat.new }
{
    let deed = InPart::<DirectoryLaw, S, MakeSlot>::new(MakeSlot);
    make(domain, seat, payload, deed)
}
