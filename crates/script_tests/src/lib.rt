//! Tests of scripts and audits as calls of these libraries: what no clause says and no command line can tell.
//!
//! They are scripts on a heap for one thread, which no command runs; audits and laws of heaps that are built by hand;
//! and scripts for runs that want memory. Here is nothing but tests, so nothing is promised.
#![tactic(auto)]

#[cfg(test)]
mod heap_images;
#[cfg(test)]
mod plain_scripts;
