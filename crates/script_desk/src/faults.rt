//! Why a command is refused.
ghost use Rattle.std.specs.Prelude.{◌≡◌, ◌↔◌, ◌++◌, Bool, IsTrue, IsSome, IsSomeAnd, None, option_copied};
ghost use Rattle.std.specs.List.{Any};
ghost use Rattle.script_desk.specs.Desks.{bound, scope};
ghost use Rattle.script_desk.specs.Faults.{IsPlaceInRange, IsInRange, is_weak_place, taken_by, place_needs, need_of, needs, binds, IsMissing, IsOther, IsWrongPlace, HasNameFault, HasKindFault, IsFault};
ghost use Rattle.script_desk.specs.declared.handle.Handle.{Handle};
ghost use Rattle.script_desk.specs.Handles.{is_firm, is_strong};
ghost use Rattle.script_desk.specs.Places.{admitted};

use crate::names::NameTable;
use crate::sizes::Sizes;
use crate::wanted::Wanted;
use script_lines::{Command, Name, Reason, TextPlace};

/// Whether the place is one for weak references.
fn is_weak_place(place: &TextPlace) -> bool
    ensures { result ≡ is_weak_place place.now }
{
    matches!(place, TextPlace::WeakCell(_) | TextPlace::WeakField(_))
}

/// What the place may take.
fn taken_by(place: &TextPlace) -> Wanted
    ensures { admitted result ≡ taken_by place.now }
{
    if is_weak_place(place) {
        Wanted::Weak
    } else {
        Wanted::Strong
    }
}

/// The name that the command binds, if it binds one.
fn bound_by(command: &Command) -> Option<&Name>
    ensures { option_copied result ≡ binds command.now }
{
    match command {
        Command::Make(new, _)
        | Command::Copy(_, new)
        | Command::Weaken(_, new)
        | Command::CopyWeak(_, new)
        | Command::Upgrade(_, new)
        | Command::Load(_, new)
        | Command::Snap(_, new)
        | Command::Keep(_, new) => Some(new),
        _ => None,
    }
}

/// Why the command is refused: the first of range, name and kind that is wrong with it, or None where nothing is. A
/// constant number of look-ups of names.
pub fn fault(names: &NameTable, sizes: Sizes, command: &Command) -> Option<Reason>
    ensures { IsFault (scope names.now sizes) command.now result }
{
    if !is_in_range(sizes, command) {
        Some(Reason::Range)
    } else if names.has_name_fault(command) {
        Some(Reason::Name)
    } else if names.has_kind_fault(command) {
        Some(Reason::Kind)
    } else {
        None
    }
}

fn is_place_in_range(sizes: Sizes, place: &TextPlace) -> bool
    ensures { IsTrue result ↔ IsPlaceInRange sizes place.now }
{
    match place {
        TextPlace::Cell(cell) => *cell < u128::from(sizes.cells),
        TextPlace::WeakCell(cell) => *cell < u128::from(sizes.weak_cells),
        TextPlace::Field(_, field) => *field < 2,
        TextPlace::WeakField(_) => true,
    }
}

fn is_in_range(sizes: Sizes, command: &Command) -> bool
    ensures { IsTrue result ↔ IsInRange sizes command.now }
{
    match command {
        Command::Make(_, weight) => *weight <= 1 << 32,
        Command::Put(place, _)
        | Command::Clear(place)
        | Command::Load(place, _)
        | Command::Replace(place, _, _)
        | Command::Snap(place, _) => is_place_in_range(sizes, place),
        Command::Read(_, word) => *word < 16,
        _ => true,
    }
}

impl NameTable {
    fn is_bound(&self, name: &Name) -> bool
        ensures { IsTrue result ↔ IsSome (bound self.now name.now) }
    {
        self.get(name).is_some()
    }

    fn is_missing(&self, name: &Name) -> bool
        ensures { IsTrue result ↔ (bound self.now name.now ≡ None) }
    {
        self.get(name).is_none()
    }

    /// Whether the object of a field has no name that is bound.
    fn lacks_owner(&self, place: &TextPlace) -> bool
        ensures { IsTrue result ↔ Any (IsMissing self.now) (place_needs place.now) }
    {
        match place {
            TextPlace::Field(name, _) | TextPlace::WeakField(name) => self.is_missing(name),
            TextPlace::Cell(_) | TextPlace::WeakCell(_) => false,
        }
    }

    /// Whether there is a name, and it isn't bound.
    fn lacks(&self, name: &Option<Name>) -> bool
        ensures { (kind : Handle → Bool) →
            IsTrue result ↔ Any (IsMissing self.now) (need_of name.now kind) }
    {
        match name {
            Some(name) => self.is_missing(name),
            None => false,
        }
    }

    /// The same of the two references of a replacement.
    fn lacks_either(&self, old: &Option<Name>, new: &Option<Name>) -> bool
        ensures { IsTrue result
            ↔ Any (IsMissing self.now) (need_of old.now is_firm ++ need_of new.now is_strong) }
    {
        self.lacks(old) || self.lacks(new)
    }

    /// Whether a name that must be bound isn't.
    fn lacks_name(&self, command: &Command) -> bool
        ensures { IsTrue result ↔ Any (IsMissing self.now) (needs command.now) }
    {
        match command {
            Command::Make(_, _) | Command::Audit => false,
            Command::Copy(name, _)
            | Command::Drop(name)
            | Command::Weaken(name, _)
            | Command::CopyWeak(name, _)
            | Command::DropWeak(name)
            | Command::Upgrade(name, _)
            | Command::EndSnapshot(name)
            | Command::Keep(name, _)
            | Command::Read(name, _)
            | Command::Counts(name) => self.is_missing(name),
            Command::Put(place, name) => self.lacks_owner(place) || self.is_missing(name),
            Command::Clear(place) | Command::Load(place, _) | Command::Snap(place, _) => {
                self.lacks_owner(place)
            }
            Command::Replace(place, old, new) => {
                self.lacks_owner(place) || self.lacks_either(old, new)
            }
        }
    }

    fn has_name_fault(&self, command: &Command) -> bool
        ensures { IsTrue result ↔ HasNameFault self.now command.now }
    {
        let binds_again = match bound_by(command) {
            Some(new) => self.is_bound(new),
            None => false,
        };
        self.lacks_name(command) || binds_again
    }

    /// Whether the name is bound, to another kind of handle.
    fn is_other(&self, name: &Name, wanted: Wanted) -> bool
        ensures { IsTrue result ↔ IsOther self.now (name.now, admitted wanted) }
    {
        match self.get(name) {
            Some(handle) => !wanted.admits(handle),
            None => false,
        }
    }

    /// The same of a name, if there is one.
    fn is_other_if_some(&self, name: &Option<Name>, wanted: Wanted) -> bool
        ensures { IsTrue result ↔ Any (IsOther self.now) (need_of name.now (admitted wanted)) }
    {
        match name {
            Some(name) => self.is_other(name, wanted),
            None => false,
        }
    }

    /// The same of the two references of a replacement.
    fn has_other_pair(&self, old: &Option<Name>, new: &Option<Name>) -> bool
        ensures { IsTrue result
            ↔ Any (IsOther self.now) (need_of old.now is_firm ++ need_of new.now is_strong) }
    {
        self.is_other_if_some(old, Wanted::Firm) || self.is_other_if_some(new, Wanted::Strong)
    }

    /// Whether the object of a field is bound by a name that doesn't keep it alive.
    fn has_weak_owner(&self, place: &TextPlace) -> bool
        ensures { IsTrue result ↔ Any (IsOther self.now) (place_needs place.now) }
    {
        match place {
            TextPlace::Field(name, _) | TextPlace::WeakField(name) => {
                self.is_other(name, Wanted::Firm)
            }
            TextPlace::Cell(_) | TextPlace::WeakCell(_) => false,
        }
    }

    /// Whether a name is bound to another kind of handle than the command needs.
    fn has_other_kind(&self, command: &Command) -> bool
        ensures { IsTrue result ↔ Any (IsOther self.now) (needs command.now) }
    {
        match command {
            Command::Make(_, _) | Command::Read(_, _) | Command::Counts(_) | Command::Audit =>
                false,
            Command::Copy(name, _) | Command::Drop(name) | Command::Weaken(name, _) => {
                self.is_other(name, Wanted::Strong)
            }
            Command::CopyWeak(name, _) | Command::DropWeak(name) | Command::Upgrade(name, _) => {
                self.is_other(name, Wanted::Weak)
            }
            Command::EndSnapshot(name) | Command::Keep(name, _) => {
                self.is_other(name, Wanted::Snapshot)
            }
            Command::Put(place, name) => {
                self.has_weak_owner(place) || self.is_other(name, taken_by(place))
            }
            Command::Clear(place) | Command::Load(place, _) | Command::Snap(place, _) => {
                self.has_weak_owner(place)
            }
            Command::Replace(place, old, new) => {
                self.has_weak_owner(place) || self.has_other_pair(old, new)
            }
        }
    }

    fn has_kind_fault(&self, command: &Command) -> bool
        ensures { IsTrue result ↔ HasKindFault self.now command.now }
    {
        let wrong_place = match command {
            Command::Replace(place, _, _) | Command::Snap(place, _) => is_weak_place(place),
            _ => false,
        };
        self.has_other_kind(command) || wrong_place
    }
}
