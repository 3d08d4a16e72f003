//! The words that begin a line.

ghost use Rattle.std.specs.Prelude.{◌≡◌, IfSome, IsNone};
ghost use Rattle.script_lines.specs.Verbs.{spelling};
ghost use Rattle.script_lines.specs.declared.verb.Verb.{Verb as AnyVerb};

/// What the first word of a line asks for.
#[derive(Clone, Copy, Drop)]
pub enum Verb {
    Heap,
    Make,
    Copy,
    Drop,
    Weaken,
    CopyWeak,
    DropWeak,
    Upgrade,
    Put,
    Clear,
    Load,
    Replace,
    Snap,
    EndSnapshot,
    Keep,
    Read,
    Counts,
    Audit,
}

/// The verb that the word spells. None exactly where it spells none.
pub fn find_verb(word: &[u8]) -> Option<Verb>
    ensures some { IfSome result (λ verb. word.now ≡ spelling verb) }
    ensures none { IsNone result → (verb : AnyVerb) → word.now ≡ spelling verb → ⊥ }
{
    match word {
        b"heap" => Some(Verb::Heap),
        b"make" => Some(Verb::Make),
        b"copy" => Some(Verb::Copy),
        b"drop" => Some(Verb::Drop),
        b"weaken" => Some(Verb::Weaken),
        b"wcopy" => Some(Verb::CopyWeak),
        b"unweak" => Some(Verb::DropWeak),
        b"up" => Some(Verb::Upgrade),
        b"put" => Some(Verb::Put),
        b"clear" => Some(Verb::Clear),
        b"load" => Some(Verb::Load),
        b"cas" => Some(Verb::Replace),
        b"snap" => Some(Verb::Snap),
        b"unsnap" => Some(Verb::EndSnapshot),
        b"keep" => Some(Verb::Keep),
        b"read" => Some(Verb::Read),
        b"counts" => Some(Verb::Counts),
        b"audit" => Some(Verb::Audit),
        _ => None,
    }
}
