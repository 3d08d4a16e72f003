//! What a report is made of.

/// One line of words: how often the word occurs, how many files have it, and its bytes.
#[derive(Drop)]
pub struct Row<'a> {
    pub occurrences: u64,
    pub holders: u64,
    pub word: &'a [u8],
}

/// The numbers of an audit of a heap: live records, deferred decrements, records in cycles, and bytes.
#[derive(Clone, Copy, PartialEq, Eq, Debug, Drop)]
pub struct AuditLine {
    pub live: u64,
    pub deferred: u64,
    pub cyclic: u64,
    pub bytes: u64,
}

/// The numbers after the rows: how many files and pieces there were, and the audits before and after all was freed.
#[derive(Clone, Copy, PartialEq, Eq, Debug, Drop)]
pub struct Totals {
    pub files: u64,
    pub pieces: u64,
    pub held: AuditLine,
    pub freed: AuditLine,
}
