//! The same changes made to a map of the toolchain's.
use map_life::Change;
use std::alloc::{AllocFailed, Global};
use std::collections::BTreeMap;

/// Changes a key of the map, and answers what it had.
pub(crate) fn change_model(
    model: &mut BTreeMap<u64, u64>,
    key: u64,
    change: Change,
) -> Result<Option<u64>, AllocFailed<(u64, u64)>> {
    match change {
        Change::Put(value) => model.insert(key, value),
        Change::Bump(more) => {
            let number = model.get(&key).copied().unwrap_or(0);
            model.insert(key, number.saturating_add(more))
        }
        Change::Take => Ok(model.remove(&key)),
    }
}

/// The least pair with at least this key.
pub(crate) fn next_in(model: &BTreeMap<u64, u64>, key: u64) -> Option<(u64, u64)> {
    let (key, value) = model.range(key..).next()?;
    Some((*key, *value))
}

/// Whether these are the first pairs of the range, as many as there is room for.
pub(crate) fn is_range(
    model: &BTreeMap<u64, u64>,
    low: u64,
    high: u64,
    room: usize,
    found: &[(u64, u64)],
) -> bool {
    let mut count: usize = 0;
    for (key, value) in model.range(low..) {
        if *key > high || count >= room {
            break;
        }
        if count >= found.len() || found[count] != (*key, *value) {
            return false;
        }
        count += 1;
    }
    count == found.len()
}
