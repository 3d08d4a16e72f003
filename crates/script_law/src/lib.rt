//! The law that a script has one output, command by command.
//!
//! The rule: a make takes any free slot, and a heap settles in any order. So two runs of the same commands may have
//! their objects in other slots and their lists in other orders; but by a renaming of slots, one to one, their desks
//! are the same (`Alike`). Such desks refuse the same commands for the same reasons, and a command without a fault
//! answers the same at both, up to the bytes that are written, and leaves such desks again.
//!
//! It isn't promised that a command runs at all, nor in which order objects end. Nothing here runs, and nothing is said
//! of how lines are spelled.
//!
//! ```text
//! fresh_desks_are_alike();      // at first the desks are alike,
//! commands_answer_alike();      // and each command leaves them so, and answers alike
//! ```
#![tactic(auto)]

mod laws;

pub use laws::{
    alike_desks_have_the_same_faults, alike_is_an_equivalence, commands_answer_alike,
    fresh_desks_are_alike, orderly_desks_stay_orderly, tidying_has_one_end,
};
pub use script_desk::{
    Command, CommandRefused, Deleter, Desk, Heap, Kind, MOST_CELLS, MOST_SLOTS, MOST_WEAK_CELLS,
    Name, NoLaw, PayloadKind, Said, ScriptKind, ScriptLine, Shown, SlotId, SlotImage, ZERO, audit,
    check_walk, lawful, script_line,
};
