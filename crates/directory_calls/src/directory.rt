//! A range of weak cells as a directory.
ghost use Rattle.std.specs.Prelude.{◌≡◌, ◌<◌};

/// A directory of texts over a range of weak cells of a domain.
#[derive(Clone, Copy, PartialEq, Eq, Debug, Drop)]
pub struct Directory {
    /// The first weak cell of the range.
    pub first: u32,
    /// How many they are, at least one.
    pub cells: u32,
}

impl Directory {
    /// The directory over these weak cells.
    pub fn over(first: u32, cells: u32) -> Directory
        requires some_cells { 0 < cells }
        ensures over { (result.first ≡ first) × (result.cells ≡ cells) }
    {
        Directory { first, cells }
    }
}
