//! Scripts for one seat, each act beside the answer that was worked out by the rules.
use crate::opening::WIDE;
use crate::playing::Line;
use control_word::Quota;

/// A script for a seat with this quota, in a domain with so many slots, two cells of each kind and a batch of one,
/// whose tickets grant so many makes.
#[derive(Clone, Copy, Drop)]
pub(crate) struct Row {
    pub(crate) name: &'static str,
    pub(crate) slots: u32,
    pub(crate) quota: Quota,
    pub(crate) grants: &'static [u64],
    pub(crate) script: &'static [Line],
    /// What is played after it under so many snapshots of cell 0, none of them counted.
    pub(crate) depth: u32,
    pub(crate) deep: &'static [Line],
    /// Whether a cycle is left, once all is given up.
    pub(crate) cyclic: bool,
}

/// Nothing is done by a seat that may do as much as it likes.
pub(crate) const ROW: Row = Row {
    name: "",
    slots: 4,
    quota: WIDE,
    grants: &[],
    script: &[],
    depth: 0,
    deep: &[],
    cyclic: false,
};
