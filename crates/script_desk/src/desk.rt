//! What a script has between two commands.
ghost use Rattle.script_desk.specs.Desks.{Desk as DeskState};
ghost use Rattle.script_desk.specs.Holding.{Kept};

use crate::kind::ScriptKind;
use crate::maker::Make;
use crate::names::NameTable;
use plain_audit::PlainHeap;
use std::alloc::Global;
use std::marker::Model;

/// A heap for one thread, names that are bound to handles of it, and of each slot the make that made it last. The heap
/// has just the handles to which names are bound. Contracts see it as a value of `specs/Desks`.
#[derive(Drop)]
pub struct Desk {
    pub(crate) alloc: Global,
    pub(crate) heap: PlainHeap<ScriptKind>,
    pub(crate) names: NameTable,
    pub(crate) makers: Vec<Make>,
    pub(crate) makes: u64,
    pub(crate) cells: u32,
    pub(crate) weak_cells: u32,
}

impl Model for Desk {
    ghost Value = { DeskState };

    ghost view = { λ d. record {
      plain = d.heap;
      names = d.names;
      makers = d.makers.items;
      makes = d.makes;
    } };

    ghost invariant = { λ d. Kept d.heap d.names d.makers.items d.cells d.weak_cells };
}
