//! Tests of the structures over a domain: both forms of a queue, and the directory of texts, by one seat and by
//! threads.
//!
//! It is for its tests alone, and promises nothing: without them it is empty.
//!
//! Seats send letters to one another by a queue. A letter says who sent it, and which of that sender's letters it is;
//! so after the join the tallies of all takers tell whether each was taken once, and in its sender's order. Texts are
//! interned, found, read back and given up, and must stand in the cells that the rule of places gives.
//!
//! ```text
//! send(&rt, &domain, &mut seat, &queue, Letter { sender: 3, number: 10 })?;
//! take(&rt, &domain, &mut seat, &queue)?;                                       // Some of that letter
//! intern_once(&rt, &domain, &mut seat, &directory, b"ab");                      // the slot of its record
//! ```
#![tactic(auto)]

#[cfg(test)]
mod calls;
#[cfg(test)]
mod enclosing;
#[cfg(test)]
mod jobs;
#[cfg(test)]
mod laying;
#[cfg(test)]
mod letters;
#[cfg(test)]
mod opening;
#[cfg(test)]
mod sending;
#[cfg(test)]
mod taking;
#[cfg(test)]
mod tallies;
#[cfg(test)]
mod tests_adds;
#[cfg(test)]
mod tests_contents;
#[cfg(test)]
mod tests_places;
#[cfg(test)]
mod tests_protocols;
#[cfg(test)]
mod tests_scripts;
#[cfg(test)]
mod tests_spent;
#[cfg(test)]
mod tests_text_spent;
#[cfg(test)]
mod tests_text_threads;
#[cfg(test)]
mod tests_texts;
#[cfg(test)]
mod tests_threads;
#[cfg(test)]
mod text_calls;
#[cfg(test)]
mod text_opening;
#[cfg(test)]
mod text_seats;
#[cfg(test)]
mod text_turns;
#[cfg(test)]
mod tidying;
