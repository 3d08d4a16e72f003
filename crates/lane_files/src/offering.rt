//! A record goes on the queue.
ghost use Rattle.std.specs.Prelude.{◌≡◌, ◌≤◌, ◌<◌, ◌+◌, List, ℕ, [], ◌∷◌, IfErr, OnErr, OnOk, Some};
ghost use Rattle.control_word.specs.plain_state.Lists.{times};
ghost use Rattle.control_word.specs.core_events.Views.{without};
ghost use Rattle.words_protocol.specs.directory_law.Bytes.{text_bytes};
ghost use Rattle.words_protocol.specs.directory_law.Payloads.{Text};
ghost use Rattle.hand_queues.specs.linked_queue.Pushes.{UsesNone};
ghost use Rattle.weak_intern.specs.Knowing.{Knows};
ghost use Rattle.words_protocol.specs.words_law.Views.{View};
ghost use Rattle.lane_files.specs.Passed.{Counts, UsesInterns};
ghost use Rattle.lane_files.specs.Ready.{IsReady, Owns};
ghost use Rattle.lane_files.specs.Whys.{IsWhyNotOffered};

use crate::shared::Shared;
use control_word::{Domain, PayloadKind, Seat, Strong};
use hand_queues::{HandQueue, PushRefused};
use std::sync::Wait;
use words_protocol::{Left, NodeKind, PairKind, RecordKind, WordsLaw};

/// Pushes a record whose text the seat knows, and gives the seat's reference to it. It is refused as a push is:
/// `MakesSpent` where the seat has no make left, `Full` where each slot of the domain was found taken, `AddsSpent`
/// where no add is left. Then nothing is pushed, and the reference is handed back. One make at most, and none after
/// `MakesSpent` and `Full`. Its steps are those of a push. It may wait for other threads.
pub fn offer<R: Wait>(
    rt: &R,
    domain: &Domain<WordsLaw>,
    seat: &mut Seat<WordsLaw>,
    shared: &Shared,
    handle: Strong,
) -> Result<(), PushRefused>
    requires ready { IsReady domain.now shared.now seat.old }
    requires owned { 0 < times handle.slot seat.old.view.core.owned }
    requires known { (text : Text) × Knows (λ (v : View). v.1) handle.slot text seat.old }
    ensures counts { OnOk result ((text : Text)
        → Knows (λ (v : View). v.1) handle.slot text seat.old
        → Counts (text_bytes text ∷ []) [] seat.old.view.client seat.new.view.client) }
    ensures owns { OnOk result
        (Owns (without handle.slot seat.old.view.core.owned) seat.old seat.new) }
    ensures back { IfErr result (λ refused. refused.back ≡ handle) }
    ensures refused { OnErr result (Counts [] [] seat.old.view.client seat.new.view.client) }
    ensures kept { OnErr result (Owns seat.old.view.core.owned seat.old seat.new) }
    ensures why { IfErr result (λ refused. IsWhyNotOffered
        ⟦<PairKind<NodeKind, RecordKind> as PayloadKind>⟧.fits domain.now refused.why
        seat.old seat.new) }
    ensures makes { seat.new.view.core.makes ≤ seat.old.view.core.makes + 1 }
    ensures unmade { IfErr result (λ refused. UsesNone (Some refused.why)
        seat.old.view.core seat.new.view.core) }
    ensures adds { seat.old.view.core.adds ≤ seat.new.view.core.adds }
    ensures interns { UsesInterns 0 seat.old.view.client seat.new.view.client }
    ensures ready { IsReady domain.now shared.now seat.new }
{
    let queue = &shared.queue;
    queue.push::<Left, WordsLaw, R>(rt, domain, seat, handle)
}
