//! Tickets that stand for files in rounds: who draws which, and what the files of all of them have together.
//!
//! Lanes draw tickets from one counter, each number once. Ticket t stands for file t mod F in round t div F, where F is
//! the number of files. A lane draws until it comes to a ticket of no file. The rule: then each ticket of a file is
//! some lane's, once (`lanes_draw_each_ticket`); so a number of each file, added up over the tickets of all lanes, is
//! the rounds times its sum over the files, and over the tickets of the last round its sum (`tickets_go_round`).
//!
//! Nothing here runs, and nothing is said of who draws which ticket.
//!
//! ```text
//! DrewOnce drawn 7  →  AreLanes 6 drawn shares  →  IsEachOnce 6 (together shares)
//! ```
#![tactic(auto)]

mod laws;

pub use laws::{lanes_draw_each_ticket, tickets_go_round};
