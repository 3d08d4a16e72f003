//! A domain with a queue of either form, for the tests, and its seats.
ghost use Rattle.std.specs.Prelude.{◌≡◌, ◌<◌, All, IfOk, IfSome, length, slice_index_or};
ghost use Rattle.part_calls.specs.acquire_retire.Seats.{SeatState};
ghost use Rattle.part_calls.specs.Parts.{as_part};
ghost use Rattle.hand_queues.specs.linked_queue.Queues.{CanLay};
ghost use Rattle.hand_queues.specs.Queues.{IsAnyOf, queue_in};
ghost use Rattle.structure_tests.specs.Ready.{IsNew, View};

use crate::laying::law_of;
use crate::letters::Mail;
use hand_queues::{Form, QueueLaw};
use part_calls::{Domain, Left, OpenError, Part, Quota, Seat, Shape, open_domain};
use std::alloc::Global;

pub(crate) const BOTH: [Form; 2] = [Form::Linked, Form::Double];

pub(crate) const WIDE: Quota = Quota {
    makes: 1 << 40,
    adds: 1 << 40,
};

/// A domain with a queue, its seat 0, and its other seats.
pub(crate) struct Opened {
    pub(crate) domain: Domain<Mail>,
    pub(crate) root: Seat<Mail>,
    pub(crate) others: Vec<Seat<Mail>>,
}

/// A domain of so many seats and slots for a queue of this form, and these seats.
fn open_seats(
    alloc: Global,
    form: Form,
    seats: u32,
    slots: u32,
    quotas: &[Quota],
) -> Result<(Domain<Mail>, Vec<Seat<Mail>>), OpenError>
    ensures queue { IfOk result (λ opened. IsAnyOf (queue_in form 0 1)
        (as_part ⟦<Mail as Part<QueueLaw, Left>>⟧.part opened.0)) }
    ensures new { IfOk result (λ opened. All (IsNew opened.0) opened.1.items) }
    ensures first { IfOk result (λ opened. (d : SeatState View)
        → (slice_index_or opened.1.items 0 d).view.core.seat ≡ 0) }
    ensures unlaid { IfOk result (λ opened. (d : SeatState View)
        → CanLay (slice_index_or opened.1.items 0 d).view.client.0) }
    ensures some { IfOk result (λ opened. 0 < length opened.1.items) }
{
    let shape = Shape {
        seats,
        slots,
        cells: 2,
        weak_cells: 0,
        batch: 16,
    };
    let opened = open_domain(alloc, shape, quotas, law_of(form))?;
    Ok(opened)
}

/// The same, with seat 0 by itself.
pub(crate) fn open_mail(
    alloc: Global,
    form: Form,
    seats: u32,
    slots: u32,
    quotas: &[Quota],
) -> Result<Opened, OpenError>
    ensures queue { IfOk result (λ opened. IsAnyOf (queue_in form 0 1)
        (as_part ⟦<Mail as Part<QueueLaw, Left>>⟧.part opened.domain)) }
    ensures root { IfOk result (λ opened. IsNew opened.domain opened.root) }
    ensures first { IfOk result (λ opened. opened.root.view.core.seat ≡ 0) }
    ensures unlaid { IfOk result (λ opened. CanLay opened.root.view.client.0) }
    ensures others { IfOk result (λ opened. All (IsNew opened.domain) opened.others.items) }
{
    let (domain, mut others) = open_seats(alloc, form, seats, slots, quotas)?;
    let root = others.remove(0);
    Ok(Opened {
        domain,
        root,
        others,
    })
}

/// The last of these seats.
pub(crate) fn take_last(domain: &Domain<Mail>, seats: &mut Vec<Seat<Mail>>) -> Option<Seat<Mail>>
    requires { All (IsNew domain.now) seats.old.items }
    ensures seats { All (IsNew domain.now) seats.new.items }
    ensures last { IfSome result (IsNew domain.now) }
{
    seats.pop()
}
