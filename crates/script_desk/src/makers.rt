//! What the makes of a desk tell of its slots: their numbers, and the names that they bound.
ghost use Rattle.std.specs.Prelude.{◌≡◌, ◌<◌, IfOk, length, map, string_bytes};
ghost use Rattle.std.specs.List.{All};
ghost use Rattle.script_desk.specs.Desks.{maker_at};

use crate::maker::Make;
use plain_settling::SlotId;
use script_lines::OutOfMemory;
use std::alloc::Global;

/// The number of the make that made it, for each slot. Linear in the slots.
pub fn ranks(alloc: Global, makers: &[Make]) -> Result<Vec<u64>, OutOfMemory>
    ensures { IfOk result (λ ranks. ranks.items ≡ map (λ maker. maker.number) makers.now) }
{
    let mut ranks = Vec::with_capacity(alloc, makers.len())?;
    for maker in makers {
        ranks.push_reserved(maker.number());
    }
    Ok(ranks)
}

/// The names of the makes that made the slots, of which there are makers. Linear in the slots that are asked for.
pub fn makers_of(
    alloc: Global,
    makers: &[Make],
    slots: &[SlotId],
) -> Result<Vec<String>, OutOfMemory>
    requires { All (λ s. s.0 < length makers.now) slots.now }
    ensures { IfOk result (λ names.
        map string_bytes names.items ≡ map (λ s. (maker_at makers.now s).name) slots.now) }
{
    let mut names = Vec::with_capacity(alloc, slots.len())?;
    for slot in slots {
        names.push_reserved(String::from_str(alloc, maker_name(makers, *slot))?);
    }
    Ok(names)
}

/// The name of the make that made the slot.
fn maker_name(makers: &[Make], slot: SlotId) -> &str
    requires { slot.0 < length makers.now }
    ensures { result.now ≡ (maker_at makers.now slot).name }
{
    makers[slot.0 as usize].name()
}
