//! How large a domain is, and what its seats may use up.

/// The sizes of a domain.
#[derive(Clone, Copy, PartialEq, Eq, Debug, Drop)]
pub struct Shape {
    /// 1 to 32.
    pub seats: u32,
    /// 1 to 4,194,304.
    pub slots: u32,
    /// Strong cells, 0 to 65,536.
    pub cells: u32,
    /// Weak cells, 0 to 4,194,304.
    pub weak_cells: u32,
    /// How many entries a seat may retire beyond one for each announcement word, 1 to 1,024.
    pub batch: u32,
}

/// What one seat may use up: at most 2^40 of each.
#[derive(Clone, Copy, PartialEq, Eq, Debug, Drop)]
pub struct Quota {
    /// Claims that succeed, beside those that its tickets grant.
    pub makes: u64,
    /// Adds to a strong or a weak word, and first references.
    pub adds: u64,
}

/// What of a shape and its quotas is out of range.
#[derive(Clone, Copy, PartialEq, Eq, Debug, Drop)]
pub enum ShapeField {
    Seats,
    Slots,
    Cells,
    WeakCells,
    Batch,
    Quotas,
}
