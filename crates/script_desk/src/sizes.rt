//! How many cells a heap has.

/// How many cells there are for strong references, and how many for weak ones.
#[derive(Clone, Copy, Debug, Drop)]
pub struct Sizes {
    pub cells: u32,
    pub weak_cells: u32,
}
