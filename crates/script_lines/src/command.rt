//! What a line of a script says.

use crate::name::Name;

/// Where a reference stands, as a script names it.
#[derive(PartialEq, Eq, Debug, Drop)]
pub enum TextPlace {
    /// `@i`, a strong cell.
    Cell(u128),
    /// `~i`, a weak cell.
    WeakCell(u128),
    /// `NAME:0` or `NAME:1`, a strong field.
    Field(Name, u32),
    /// `NAME:w`, the weak field.
    WeakField(Name),
}

/// A line of a script.
#[derive(PartialEq, Eq, Debug, Drop)]
pub enum ScriptLine {
    /// `heap SLOTS CELLS WEAKCELLS`
    Heap(u128, u128, u128),
    /// A command on the heap.
    Command(Command),
}

/// A command of a script.
#[derive(PartialEq, Eq, Debug, Drop)]
pub enum Command {
    /// `make N W`: an object with W in its first payload word, bound to N.
    Make(Name, u128),
    /// `copy N M`: one more strong reference to N's object, bound to M.
    Copy(Name, Name),
    /// `drop N`: a strong reference is given up.
    Drop(Name),
    /// `weaken N M`: a weak reference to N's object, bound to M.
    Weaken(Name, Name),
    /// `wcopy N M`: one more weak reference, bound to M.
    CopyWeak(Name, Name),
    /// `unweak N`: a weak reference is given up.
    DropWeak(Name),
    /// `up N M`: a strong reference from a weak one, bound to M.
    Upgrade(Name, Name),
    /// `put PLACE N`: what N is bound to is stored.
    Put(TextPlace, Name),
    /// `clear PLACE`: null is stored.
    Clear(TextPlace),
    /// `load PLACE N`: a reference to what is stored, bound to N.
    Load(TextPlace, Name),
    /// `cas PLACE OLD NEW`: what is stored is replaced where it is OLD. None is `null`.
    Replace(TextPlace, Option<Name>, Option<Name>),
    /// `snap PLACE N`: a snapshot of what is stored, bound to N.
    Snap(TextPlace, Name),
    /// `unsnap N`: a snapshot is ended.
    EndSnapshot(Name),
    /// `keep N M`: a strong reference from a snapshot, bound to M.
    Keep(Name, Name),
    /// `read N I`: payload word I of N's object.
    Read(Name, u128),
    /// `counts N`: the counts of N's object.
    Counts(Name),
    /// `audit`: what lives, waits and lies in cycles.
    Audit,
}
