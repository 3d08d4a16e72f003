//! The calls on handles for one of several laws that share a domain: each deed is that of the part's law.
pub use hand_queues::parts::{
    copy_strong, copy_weak, drop_strong, drop_weak, look, make, store, store_weak, try_load,
    try_load_weak, try_replace, upgrade, weaken,
};
