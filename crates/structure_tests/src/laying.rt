//! The law of a queue in one of its forms, and how the queue is laid.
ghost use Rattle.std.specs.Prelude.{◌≡◌, IfOk};
ghost use Rattle.part_calls.specs.Parts.{as_part};
ghost use Rattle.hand_queues.specs.linked_queue.Queues.{CanLay};
ghost use Rattle.hand_queues.specs.Queues.{IsAnyOf, queue_in};
ghost use Rattle.structure_tests.specs.Ready.{IsNew, IsReady};

use crate::letters::{Letters, Mail};
use hand_queues::{AnyQueue, Form, QueueLaw};
use part_calls::{Domain, Left, Pair, Part, Seat};
use weak_intern::MakeError;

/// The law of a queue of this form over cells 0 and 1, and of letters beside it.
pub(crate) fn law_of(form: Form) -> Mail
    ensures form { result.left.form ≡ form }
    ensures cells { (result.left.head ≡ 0) × (result.left.tail ≡ 1) }
{
    match form {
        Form::Linked => Pair::new(QueueLaw::linked(0, 1), Letters, 2, 0),
        Form::Double => Pair::new(QueueLaw::double(0, 1), Letters, 2, 0),
    }
}

/// Lays the queue. It is for seat 0, once, and attaches it.
pub(crate) fn lay(
    domain: &Domain<Mail>,
    root: &mut Seat<Mail>,
    form: Form,
) -> Result<AnyQueue, MakeError>
    requires new { IsNew domain.now root.old }
    requires queue { IsAnyOf (queue_in form 0 1)
        (as_part ⟦<Mail as Part<QueueLaw, Left>>⟧.part domain.now) }
    requires unlaid { CanLay root.old.view.client.0 }
    ensures queue { IfOk result (λ queue.
        IsAnyOf queue (as_part ⟦<Mail as Part<QueueLaw, Left>>⟧.part domain.now)) }
    ensures ready { IfOk result (λ queue. IsReady domain.now root.new) }
    ensures same { root.new.view.core.seat ≡ root.old.view.core.seat }
    ensures laid { IfOk result (λ queue. root.new.view.client.0.stand.laid ≡ 2) }
{
    AnyQueue::lay::<Left, Mail>(domain, root, form, 0, 1)
}
