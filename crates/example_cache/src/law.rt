//! A cache as a protocol.
ghost use Rattle.std.specs.Prelude.{◌≡◌};
ghost use Rattle.example_cache.specs.Cache.{Cache};
ghost use Rattle.example_cache.specs.Views.{joined, no_view};
ghost use Rattle.example_cache.specs.Kept.{cache_calm, cache_foreign, cache_leave, cache_start};

use crate::view::View;
use cdrc::{PayloadKind, Protocol};
use std::marker::PhantomData;

/// The law of a cache in one weak cell, whose values are payloads of the kind `K`.
#[derive(Debug, Drop)]
pub struct CacheLaw<K> {
    pub cell: u32,
    kind: PhantomData<K>,
}

impl<K: PayloadKind> CacheLaw<K> {
    /// A cache in this weak cell.
    pub fn new(cell: u32) -> CacheLaw<K>
        ensures { result.cell ≡ cell }
    {
        CacheLaw {
            cell,
            kind: PhantomData,
        }
    }
}

impl<K: PayloadKind> Protocol for CacheLaw<K> {
    type View = View;

    type Kind = K;

    ghost first = { λ it n. no_view };

    ghost law = { λ it. Cache it.cell };

    ghost joined = { λ it. joined };

    ghost gone = { no_view };

    ghost owns_cell = { λ it i. ⊥ };

    ghost owns_weak_cell = { λ it i. i ≡ it.cell };

    ghost owns_payload = { λ it words. ⊥ };

    ghost owns_tickets = { λ it. ⊥ };

    ghost start = { λ it. cache_start it.cell };

    ghost calm = { λ it. cache_calm it.cell };

    ghost leave = { λ it. cache_leave it.cell };

    ghost foreign = { λ it. cache_foreign it.cell };
}
