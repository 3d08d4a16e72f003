//! Tests of the counter, the parts, the core, and lists of steps, as calls of these libraries: what no clause says and
//! no command line can tell.
//!
//! They are worked rows of the pure counter and of announcement words, threads that race for a counter's last count, a
//! list of events that is played at once, the refusals that `steps` never comes to, random events of the core against
//! its laws, and a text of steps for runs that want memory. Here is nothing but tests, so nothing is promised.
#![tactic(auto)]

#[cfg(test)]
mod contents;
#[cfg(test)]
mod counters;
#[cfg(test)]
mod dice;
#[cfg(test)]
mod laws;
#[cfg(test)]
mod random_events;
#[cfg(test)]
mod replays;
