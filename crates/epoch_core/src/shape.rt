//! How large a domain under epochs is.

/// The sizes of a domain under epochs.
#[derive(Clone, Copy, PartialEq, Eq, Debug, Drop)]
pub struct EpochShape {
    /// 1 to 32.
    pub seats: u32,
    /// 1 to 4,194,304.
    pub slots: u32,
    /// 0 to 4,194,304.
    pub cells: u32,
}
