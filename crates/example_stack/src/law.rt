//! A stack as a protocol.
ghost use Rattle.std.specs.Prelude.{◌≡◌};
ghost use Rattle.example_stack.specs.Stack.{Stack};
ghost use Rattle.example_stack.specs.Views.{joined, no_view};
ghost use Rattle.example_stack.specs.Kept.{stack_calm, stack_foreign, stack_start};
ghost use Rattle.example_stack.specs.Leave.{stack_leave};

use crate::view::View;
use cdrc::{PayloadKind, Protocol};
use std::marker::PhantomData;

/// The law of a stack whose top is in one strong cell, and whose nodes have payloads of the kind `K`.
#[derive(Debug, Drop)]
pub struct StackLaw<K> {
    pub cell: u32,
    kind: PhantomData<K>,
}

impl<K: PayloadKind> StackLaw<K> {
    /// A stack in this cell.
    pub fn new(cell: u32) -> StackLaw<K>
        ensures { result.cell ≡ cell }
    {
        StackLaw {
            cell,
            kind: PhantomData,
        }
    }
}

impl<K: PayloadKind> Protocol for StackLaw<K> {
    type View = View;

    type Kind = K;

    ghost first = { λ it n. no_view };

    ghost law = { λ it. Stack it.cell K.fits };

    ghost joined = { λ it. joined };

    ghost gone = { no_view };

    ghost owns_cell = { λ it i. i ≡ it.cell };

    ghost owns_weak_cell = { λ it i. ⊥ };

    ghost owns_payload = { λ it. K.fits };

    ghost owns_tickets = { λ it. ⊥ };

    ghost start = { λ it. stack_start it.cell K.fits };

    ghost calm = { λ it. stack_calm it.cell K.fits };

    ghost leave = { λ it. stack_leave it.cell K.fits };

    ghost foreign = { λ it. stack_foreign it.cell K.fits };
}
