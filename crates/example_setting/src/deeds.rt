//! The deeds by which seats store a value and read it.
ghost use Rattle.example_setting.specs.Deeds.{ReadReady, ReadTells, StoreReady, StoreTells, read_next, store_next};
ghost use Rattle.example_setting.specs.Makes.{read_keeps, store_keeps};

use crate::law::SettingLaw;
use cdrc::{Deed, PayloadKind};

/// The cell gets an object of the seat's own, whose value joins those that the seat stored; or null.
#[derive(Clone, Copy, Debug, Drop)]
pub struct StoreValue;

impl<K: PayloadKind> Deed<SettingLaw<K>> for StoreValue {
    ghost ready = { λ it of. StoreReady of.cell };

    ghost next = { λ it of. store_next };

    ghost allows = { λ it of. StoreTells of.cell };

    ghost keeps = { λ it of. store_keeps of.cell };
}

/// What the cell holds, by a look or a check. If the seat has the object afterwards, as under a snapshot, its value
/// joins those that the seat read.
#[derive(Clone, Copy, Debug, Drop)]
pub struct ReadValue;

impl<K: PayloadKind> Deed<SettingLaw<K>> for ReadValue {
    ghost ready = { λ it of. ReadReady of.cell };

    ghost next = { λ it of. read_next };

    ghost allows = { λ it of. ReadTells of.cell };

    ghost keeps = { λ it of. read_keeps of.cell };
}
