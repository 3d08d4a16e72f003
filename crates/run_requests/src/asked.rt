//! What can be asked for.

/// What the words of a command line ask for.
#[derive(Debug, Drop)]
pub enum Request {
    /// Count the words of files.
    Words(WordsArgs),
    /// Run the pointer commands of a file.
    Script(String),
    /// Check the atomic steps of a file.
    Steps(String),
    /// Draw words.
    Generate(Draws),
    /// Draw words and count them.
    Bulk(Bulk),
}

/// The files whose words are counted, and how.
#[derive(Debug, Drop)]
pub struct WordsArgs {
    pub names: Vec<String>,
    pub lanes: u32,
    pub rounds: u64,
    pub slots: Option<u32>,
    pub double: bool,
    pub protect: Protect,
}

/// How what lanes read is kept: by announcements, or by regions that lanes open.
#[derive(Clone, Copy, PartialEq, Eq, Debug, Drop)]
pub enum Protect {
    Announce,
    Epoch,
}

/// So many words of a vocabulary of some size, drawn from a seed.
#[derive(Clone, Copy, PartialEq, Eq, Debug, Drop)]
pub struct Draws {
    pub seed: u64,
    pub words: u64,
    pub vocabulary: u64,
}

/// The draws that so many lanes count.
#[derive(Clone, Copy, PartialEq, Eq, Debug, Drop)]
pub struct Bulk {
    pub draws: Draws,
    pub lanes: u32,
}
