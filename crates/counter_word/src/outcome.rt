//! What a step on the word comes to.

/// What a subtraction leaves to its caller.
#[derive(Clone, Copy, PartialEq, Eq, Debug)]
pub enum Sub {
    /// Other counts are left, so the call is over.
    Done,
    /// That was the last count: the caller is to finish.
    Finish,
}

/// What a finish step came to.
#[derive(Clone, Copy, PartialEq, Eq, Debug)]
pub enum Fin {
    /// It set the zero flag: its caller has ended the counter.
    Ended,
    /// A reader had set both flags: the caller is to take the help flag.
    Help,
    /// The counter lives again, or another caller has ended it.
    Lost,
}
