//! A setting as a protocol.
ghost use Rattle.std.specs.Prelude.{◌≡◌};
ghost use Rattle.example_setting.specs.Setting.{Setting};
ghost use Rattle.example_setting.specs.Views.{joined, no_view};
ghost use Rattle.example_setting.specs.Kept.{setting_calm, setting_foreign, setting_start};
ghost use Rattle.example_setting.specs.Leave.{setting_leave};

use crate::view::View;
use cdrc::{PayloadKind, Protocol};
use std::marker::PhantomData;

/// The law of a setting in one strong cell, whose values are payloads of the kind `K`.
#[derive(Debug, Drop)]
pub struct SettingLaw<K> {
    pub cell: u32,
    kind: PhantomData<K>,
}

impl<K: PayloadKind> SettingLaw<K> {
    /// A setting in this cell.
    pub fn new(cell: u32) -> SettingLaw<K>
        ensures { result.cell ≡ cell }
    {
        SettingLaw {
            cell,
            kind: PhantomData,
        }
    }
}

impl<K: PayloadKind> Protocol for SettingLaw<K> {
    type View = View;

    type Kind = K;

    ghost first = { λ it n. no_view };

    ghost law = { λ it. Setting it.cell };

    ghost joined = { λ it. joined };

    ghost gone = { no_view };

    ghost owns_cell = { λ it i. i ≡ it.cell };

    ghost owns_weak_cell = { λ it i. ⊥ };

    ghost owns_payload = { λ it words. ⊥ };

    ghost owns_tickets = { λ it. ⊥ };

    ghost start = { λ it. setting_start it.cell };

    ghost calm = { λ it. setting_calm it.cell };

    ghost leave = { λ it. setting_leave it.cell };

    ghost foreign = { λ it. setting_foreign it.cell };
}
