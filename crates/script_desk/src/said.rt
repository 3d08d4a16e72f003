//! What a command answers.

/// What a command answers. The first is the answer of a command for which a script writes no line.
#[derive(Debug, Drop)]
pub enum Said {
    Nothing,
    /// An object was made.
    Made,
    /// No slot was free.
    Full,
    /// An upgrade gained a reference.
    Up,
    /// The object had ended.
    Dead,
    /// A place held a reference, which was loaded.
    Loaded,
    /// A place held null.
    Null,
    /// A place held what was expected, and was replaced.
    Done,
    /// A place held something else.
    Lost,
    /// A snapshot without a count.
    Snapped,
    /// A snapshot that holds a reference.
    Counted,
    /// A word of a payload.
    Word(u64),
    /// The strong and the weak references to an object.
    Counts(u64, u64),
    Audited(Shown),
}

/// An audit, with the walk by names.
#[derive(Debug, Drop)]
pub struct Shown {
    /// How many objects are alive.
    pub live: u64,
    /// How many references wait to be given up.
    pub deferred: u64,
    /// How many live objects only cycles keep alive.
    pub cyclic: u64,
    /// What the live objects weigh together.
    pub bytes: u64,
    /// The objects round one cycle, each by the name that the make that made it bound.
    pub walk: Vec<String>,
}
