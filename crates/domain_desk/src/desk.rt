//! What a script has between two commands.
ghost use Rattle.script_desk.specs.plain_protocol.declared.no_law.NoLaw.{NoLaw as NoLawOf};
ghost use Rattle.script_desk.specs.declared.kind.ScriptKind.{ScriptKind as Kind};
ghost use Rattle.domain_desk.specs.Desks.{DeskState};

use lone_heap::{Domain, Seat, Words};
use script_desk::{Make, NameTable, NoLaw, ScriptKind};
use std::alloc::Global;
use std::marker::Model;

/// A domain and its one seat, which slots the seat's announcement words protect, names that are bound to handles of it,
/// and of each slot the make that made it last. Contracts see it as a value of `specs/Desks`.
#[derive(Drop)]
pub struct DomainDesk {
    pub(crate) alloc: Global,
    pub(crate) domain: Domain<NoLaw<ScriptKind>>,
    pub(crate) seat: Seat<NoLaw<ScriptKind>>,
    pub(crate) words: Words,
    pub(crate) names: NameTable,
    pub(crate) makers: Vec<Make>,
    pub(crate) makes: u64,
    pub(crate) cells: u32,
    pub(crate) weak_cells: u32,
}

impl Model for DomainDesk {
    ghost Value = { DeskState (NoLawOf Kind) };

    ghost view = { λ d. record {
      domain = d.domain;
      seat = d.seat;
      words = d.words;
      names = d.names;
      makers = d.makers.items;
      makes = d.makes;
      cells = d.cells;
      weak_cells = d.weak_cells;
    } };
}
