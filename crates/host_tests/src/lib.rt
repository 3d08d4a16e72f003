//! Tests of the host's files and output over a runtime that has trouble.
//!
//! Here is nothing but tests, so nothing is promised.
//!
//! ```text
//! HostFiles::new(&rt)     // over a runtime whose reads are interrupted, come to few bytes, and fail
//! ```
#![tactic(auto)]

#[cfg(test)]
mod host_trouble;
