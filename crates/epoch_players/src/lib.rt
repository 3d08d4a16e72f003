//! Players of a domain whose readers open regions, for tests: a player is a seat with the references that it has, and
//! with what its open region has seen.
//!
//! What a player does is an act, and each act answers something; so a test is a table of scripts, in which each act
//! stands beside the player that makes it and the answer that was worked out by the rules. The rule that is kept: each
//! act is one that the player may make then, under whatever other threads do.
//!
//! Nothing is promised of what an act answers.
//!
//! ```text
//! play_on(&domain, &mut player, Act::Flush)       // Said::Work(1, 0, 0)
//! ```
#![tactic(auto)]

mod acts;
mod counting_acts;
mod draws;
mod ending;
mod flush_acts;
mod opening;
mod place_acts;
mod player;
mod playing;
mod region_acts;

pub use acts::{Act, Said, Spot};
pub use draws::Draws;
pub use ending::{clear_all, flush_all, give_back, hand_back, is_empty, taken};
pub use opening::{Opened, WIDE, open, player_of, take_last};
pub use player::{FirstWord, Objects, Player};
pub use playing::{Line, Who, play, play_on, run};
