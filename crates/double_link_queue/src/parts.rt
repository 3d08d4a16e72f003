//! The calls of handles of a part of a protocol, as a structure beside the queue makes them.
pub use weak_part_calls::{
    copy_strong, copy_weak, drop_strong, drop_weak, look, make, store, store_weak, try_load,
    try_load_weak, try_replace, upgrade, weaken,
};
