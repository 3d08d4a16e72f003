//! A queue as a protocol.
ghost use Rattle.std.specs.Prelude.{◌≡◌, ◌≢◌, ◌⊎◌};
ghost use Rattle.protocol_pairs.specs.plain_state.State.{no_payload};
ghost use Rattle.queue_law.specs.declared.view.Form.TheVariants.{Linked, Double};
ghost use Rattle.queue_law.specs.Chain.{ends};
ghost use Rattle.queue_law.specs.Views.{first_view, joined, view_of};
ghost use Rattle.queue_law.specs.Law.{WholeLaw};
ghost use Rattle.queue_law.proofs.Whole.{whole_calm, whole_foreign, whole_leave, whole_start};

use crate::node_kind::NodeKind;
use protocol_pairs::Protocol;
use queue_law::{Form, View};

/// The law of one queue over two strong cells, in one of the two forms.
#[derive(Clone, Copy, Debug, Drop)]
pub struct QueueLaw {
    pub head: u32,
    pub tail: u32,
    pub form: Form,
    pub ghost apart: { head ≢ tail },
}

impl QueueLaw {
    /// A linked queue over these cells.
    pub fn linked(head: u32, tail: u32) -> QueueLaw
        requires { head ≢ tail }
        ensures cells { (result.head ≡ head) × (result.tail ≡ tail) }
        ensures form { result.form ≡ Linked }
    {
        QueueLaw {
            head,
            tail,
            form: Form::Linked,
        }
    }

    /// A doubly linked queue over these cells.
    pub fn double(head: u32, tail: u32) -> QueueLaw
        requires { head ≢ tail }
        ensures cells { (result.head ≡ head) × (result.tail ≡ tail) }
        ensures form { result.form ≡ Double }
    {
        QueueLaw {
            head,
            tail,
            form: Form::Double,
        }
    }
}

impl Protocol for QueueLaw {
    type View = View;

    type Kind = NodeKind;

    ghost first = { λ it. view_of it.form };

    ghost law = { λ it. WholeLaw (ends it.form it.head it.tail) };

    ghost joined = { λ it. joined };

    ghost gone = { first_view };

    ghost owns_cell = { λ it i. (i ≡ it.head) ⊎ (i ≡ it.tail) };

    ghost owns_weak_cell = { λ it i. ⊥ };

    ghost owns_payload = { λ it words. words ≡ no_payload };

    ghost owns_tickets = { λ it. ⊥ };

    ghost start = { λ it. whole_start (ends it.form it.head it.tail) };

    ghost calm = { λ it. whole_calm (ends it.form it.head it.tail) };

    ghost leave = { λ it. whole_leave (ends it.form it.head it.tail) };

    ghost foreign = { λ it. whole_foreign (ends it.form it.head it.tail) };
}
