//! Tests of runs past a limit, and of counts that begin with too few slots, as calls of these libraries.
//!
//! They are contents, files and pieces past a limit, counts that begin anew, and how often objects are weighed. Here is
//! nothing but tests, so nothing is promised.
#![tactic(auto)]

#[cfg(test)]
mod beginnings;
#[cfg(test)]
mod limits;
