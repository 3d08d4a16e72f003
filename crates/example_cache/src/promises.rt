//! What the law gives a user of a cache.
ghost use Rattle.std.specs.Prelude.{ℕ, List};
ghost use Rattle.cdrc.specs.plain_state.State.{Plain, slot_at};
ghost use Rattle.cdrc.specs.plain_state.declared.slot.SlotId.{SlotId};
ghost use Rattle.example_cache.specs.Views.{View, WasRecalled, WasRemembered};
ghost use Rattle.example_cache.specs.Cache.{Cache, Holds};

use crate::law::CacheLaw;
use cdrc::PayloadKind;

/// Each value that a seat recalled was remembered, by some seat; and so was the value of what the cell holds. The call
/// does nothing.
pub fn each_value_was_remembered<K: PayloadKind>(_cache: &CacheLaw<K>)
    ensures recalled { (p : Plain) (views : List View) → Cache _cache.now.cell p views
        → (value : List ℕ) → WasRecalled views value → WasRemembered views value }
    ensures held { (p : Plain) (views : List View) → Cache _cache.now.cell p views
        → (s : SlotId) → Holds _cache.now.cell p s → WasRemembered views (slot_at p s).payload }
{}
