//! Why a line is refused.

ghost use Rattle.std.specs.Prelude.{◌≡◌};

/// Why a line is refused.
#[derive(Clone, Copy, PartialEq, Eq, Debug, Drop)]
pub enum Reason {
    /// The line isn't spelled as it should be.
    Syntax,
    /// A number leaves its range.
    Range,
    /// A name that must be bound isn't, or one to be bound is bound already.
    Name,
    /// A name is bound to another kind of thing, or a place is of the other kind.
    Kind,
    /// There is no such step.
    NotEnabled,
}
