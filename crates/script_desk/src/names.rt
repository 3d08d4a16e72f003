//! The names of a script, and what each of them is bound to.
ghost use Rattle.std.specs.Prelude.{◌≡◌, [], ◌∷◌, IfErr, IfSome, MatchOption, IfNone, OnOk, OnErr, Some, None, option_and_then, option_copied};
ghost use Rattle.std.specs.Map.{values_of};
ghost use Rattle.script_desk.specs.Desks.{Names, bound, Binds};
ghost use Rattle.script_desk.specs.Holding.{CountsMore};
ghost use Rattle.script_desk.specs.Tables.{names_of};

use crate::handle::Handle;
use script_lines::{Back, Name};
use std::alloc::{AllocFailed, Global};
use std::collections::BTreeMap;
use std::marker::Model;

/// What each name is bound to. Contracts see the bound names, each with its handle.
#[derive(Drop)]
pub struct NameTable {
    map: BTreeMap<String, Handle>,
}

impl Model for NameTable {
    ghost Value = { Names };

    ghost view = { λ t. names_of t.map.entries };
}

impl NameTable {
    pub fn new(alloc: Global) -> NameTable
        ensures { result ≡ [] }
    {
        NameTable {
            map: BTreeMap::new(alloc),
        }
    }

    /// What the name is bound to, if it is bound. Logarithmic in the names.
    pub fn get(&self, name: &Name) -> Option<&Handle>
        ensures { option_copied result ≡ bound self.now name.now }
    {
        self.map.get(name.as_str())
    }

    /// Binds a name that isn't bound. An allocation failure changes nothing, and hands the handle back.
    pub fn bind(&mut self, alloc: Global, name: &Name, handle: Handle) -> Result<(), Back<Handle>>
        requires { bound self.old name.now ≡ None }
        ensures binds { OnOk result (Binds self.old name.now (Some handle) self.new) }
        ensures more { OnOk result (CountsMore (values_of self.old) handle (values_of self.new)) }
        ensures err { OnErr result (self.new ≡ self.old) }
        ensures back { IfErr result (λ e. e.back ≡ handle) }
    {
        let Ok(key) = String::from_str(alloc, name.as_str()) else {
            return Err(Back { back: handle });
        };
        match self.map.insert(key, handle) {
            Ok(_none) => Ok(()),
            Err(
                AllocFailed {
                    value: (_key, back),
                },
            ) => Err(Back { back }),
        }
    }

    /// The name isn't bound any more. Answers what it was bound to, if it was.
    pub fn unbind(&mut self, name: &Name) -> Option<Handle>
        ensures was { result ≡ bound self.old name.now }
        ensures binds { Binds self.old name.now None self.new }
        ensures fewer { IfSome result (λ handle.
            CountsMore (values_of self.new) handle (values_of self.old)) }
    {
        self.map.remove(name.as_str())
    }

    /// The same for a name, if there is one.
    pub fn unbind_if_some(&mut self, name: &Option<Name>)
        ensures binds { MatchOption name.now (self.new ≡ self.old)
            (λ name. Binds self.old name None self.new) }
        ensures fewer { IfSome (option_and_then (bound self.old) name.now) (λ handle.
            CountsMore (values_of self.new) handle (values_of self.old)) }
    {
        if let Some(name) = name {
            self.unbind(name);
        }
    }

    /// One handle that is bound, whose name isn't any more. None exactly where no name is bound.
    pub fn pop(&mut self) -> Option<Handle>
        ensures fewer { IfSome result (λ handle. values_of self.old ≡ handle ∷ values_of self.new) }
        ensures none { IfNone result (self.old ≡ []) }
    {
        let (_, handle) = self.map.pop_first()?;
        Some(handle)
    }
}
