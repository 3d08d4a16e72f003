//! Tests of the example clients of a domain as calls of these libraries: what no clause says and their programs don't
//! show.
//!
//! They are the refusals of a setting, a stack and a cache, and in which order a stack pops. Here is nothing but tests,
//! so nothing is promised.
#![tactic(auto)]

#[cfg(test)]
mod caches;
#[cfg(test)]
mod domains;
#[cfg(test)]
mod settings;
#[cfg(test)]
mod stacks;
