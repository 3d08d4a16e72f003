//! What an index is made of.

use cdrc_text::AuditLine;

/// One line of an index: how often the number occurs, and the number.
#[derive(Clone, Copy, PartialEq, Eq, Debug, Drop)]
pub struct CountOf {
    pub count: u64,
    pub number: u64,
}

/// The numbers after the rows: how many files, numbers and skipped fields there were, and the audits before and after
/// all was freed.
#[derive(Clone, Copy, PartialEq, Eq, Debug, Drop)]
pub struct IndexTotals {
    pub files: u64,
    pub numbers: u64,
    pub skipped: u64,
    pub held: AuditLine,
    pub freed: AuditLine,
}
