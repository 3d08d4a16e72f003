//! Tests of counted references under epochs, by threads: a reader that stays in its region beside a writer, and four
//! threads that share cells.
//!
//! It is for its tests alone, and promises nothing: without them it is empty. Its players are those of `epoch_players`.
//!
//! ```text
//! play_all(&domain, &mut player, &[Act::Enter, Act::Look(CELL), Act::Keep(0), Act::Exit]);
//! ```
#![tactic(auto)]

#[cfg(test)]
mod beside;
#[cfg(test)]
mod threads;
