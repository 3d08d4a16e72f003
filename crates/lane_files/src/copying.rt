//! A copy of a reference to a record goes on the queue.
ghost use Rattle.std.specs.Prelude.{◌≤◌, ◌<◌, ◌+◌, ◌∷◌, [], IfErr, OnErr, OnOk, Some};
ghost use Rattle.control_word.specs.plain_state.Lists.{times};
ghost use Rattle.words_protocol.specs.directory_law.Bytes.{text_bytes};
ghost use Rattle.words_protocol.specs.directory_law.Payloads.{Text};
ghost use Rattle.weak_intern.specs.Knowing.{Knows};
ghost use Rattle.words_protocol.specs.words_law.Views.{View};
ghost use Rattle.lane_files.specs.Passed.{Counts, UsesInterns};
ghost use Rattle.lane_files.specs.PieceMakes.{LacksMake};
ghost use Rattle.lane_files.specs.Ready.{IsReady, Owns};
ghost use Rattle.lane_files.specs.Whys.{IsWhyNotCopied};

use crate::offering::offer;
use crate::shared::Shared;
use control_word::{Domain, PayloadKind, Seat, Strong, copy_strong, drop_strong};
use hand_queues::MakeError;
use std::sync::Wait;
use words_protocol::{NodeKind, PairKind, RecordKind, WordsLaw};

/// Pushes one reference more to a record whose text the seat knows, and keeps its own. It is refused as `offer` is,
/// and besides with `AddsSpent` where the seat has no add left for that reference. Then it has pushed nothing. One
/// make at most, and one add more than `offer`. After `MakesSpent` no make is used, and none is left; after `Full`
/// none is used, and the domain was given more makes than it has slots. It may wait for other threads.
pub fn offer_copy<R: Wait>(
    rt: &R,
    domain: &Domain<WordsLaw>,
    seat: &mut Seat<WordsLaw>,
    shared: &Shared,
    handle: &Strong,
) -> Result<(), MakeError>
    requires ready { IsReady domain.now shared.now seat.old }
    requires owned { 0 < times handle.now.slot seat.old.view.core.owned }
    requires known { (text : Text) × Knows (λ (v : View). v.1) handle.now.slot text seat.old }
    ensures counts { OnOk result ((text : Text)
        → Knows (λ (v : View). v.1) handle.now.slot text seat.old
        → Counts (text_bytes text ∷ []) [] seat.old.view.client seat.new.view.client) }
    ensures refused { OnErr result (Counts [] [] seat.old.view.client seat.new.view.client) }
    ensures owns { Owns seat.old.view.core.owned seat.old seat.new }
    ensures why { IfErr result (λ why. IsWhyNotCopied
        ⟦<PairKind<NodeKind, RecordKind> as PayloadKind>⟧.fits domain.now handle.now.slot why
        seat.old seat.new) }
    ensures makes { seat.new.view.core.makes ≤ seat.old.view.core.makes + 1 }
    ensures lacks { IfErr result (λ why. LacksMake domain.now 0 (Some why)
        seat.old.view.core seat.new.view.core) }
    ensures adds { seat.old.view.core.adds ≤ seat.new.view.core.adds }
    ensures interns { UsesInterns 0 seat.old.view.client seat.new.view.client }
    ensures ready { IsReady domain.now shared.now seat.new }
{
    let Ok(copy) = copy_strong(domain, seat, handle) else {
        return Err(MakeError::AddsSpent);
    };
    match offer(rt, domain, seat, shared, copy) {
        Ok(()) => Ok(()),
        Err(refused) => {
            drop_strong(domain, seat, refused.back);
            Err(refused.why)
        }
    }
}
