//! Tests of whole runs as calls of these libraries: what no clause says and no command line can tell.
//!
//! They are runs over files and sinks that fail where they are told to, gates, and the evidence that a run leaves. Here
//! is nothing but tests, so nothing is promised.
#![tactic(auto)]

#[cfg(test)]
mod gates;
#[cfg(test)]
mod runs;
