//! What the words of a command line ask for.
//!
//! The first word is the command. The words after it are read from left to right: options with their values, and
//! operands. Before a word `--`, a word `--x` with x one of the command's options takes the next word as its value, a
//! word `--x=v` has the value v, and every other word of two or more bytes that begins with `-` is refused. The first
//! word `--` ends the options and is dropped, and all later words are operands. Every other word is an operand, also
//! the word `-`. An option that comes twice, a missing value, and a value out of its range are refused. A number is an
//! optional `+` and one or more decimal digits. Nothing asks for help or a version.
//!
//! | Command | Options | Operands |
//! |---|---|---|
//! | `words` | `--lanes`, `--rounds`, `--slots`, `--queue`, `--protect` | one or more files |
//! | `script`, `steps` | none | one file |
//! | `gen` | none | SEED below 2^64, WORDS up to 1,000,000, VOCABULARY 1 to 1,000,000 |
//! | `bulk` | `--lanes` | SEED, WORDS up to 500,000, VOCABULARY as in `gen` |
//!
//! `--lanes` has 1 to 31, by default 2. `--rounds` has 1 to 1,000, by default 1. `--slots` has 1 to 4,194,304, and
//! there are none by default. `--queue` has `linked` or `double`, by default `linked`. `--protect` has `announce` or
//! `epoch`, by default `announce`; `epoch` is refused beside `--queue`, whatever value that has, since lanes under
//! regions share no queue.
//!
//! Only an allocation failure is left open: no contract says when it comes. Files aren't opened here.
//!
//! ```text
//! let words = ["words", "--lanes=4", "a.txt", "b.txt"];
//! match request(alloc, &words)? {
//!     Some(Request::Words(args)) => ..,    // a.txt and b.txt, 4 lanes, 1 round
//!     Some(..) => ..,
//!     None => ..,                          // the words ask for nothing
//! }
//! ```
#![tactic(auto)]

mod asking;
pub mod laws;
mod matching;
mod numbers;
mod options;
mod settings;

pub use crate::asking::request;
pub use line_words::{OutOfMemory, Tally, generate};
pub use plain_state::PayloadKind;
pub use run_requests::{Bulk, Draws, Protect, Request, WordsArgs};
