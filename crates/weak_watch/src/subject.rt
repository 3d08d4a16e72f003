//! The weak cells by which a subject knows its observers.
ghost use Rattle.std.specs.Prelude.{◌≡◌};

/// A range of weak cells of a domain, one for each id. It gives no right by itself: a call asks that they are the cells
/// of the observers in the domain's law.
#[derive(Clone, Copy, PartialEq, Eq, Debug, Drop)]
pub struct Subject {
    /// The weak cell of id 0.
    pub first: u32,
    /// How many ids there are.
    pub cells: u32,
}

impl Subject {
    /// The subject whose ids have these weak cells. It takes no step.
    pub fn over(first: u32, cells: u32) -> Subject
        ensures { (result.first ≡ first) × (result.cells ≡ cells) }
    {
        Subject { first, cells }
    }
}
