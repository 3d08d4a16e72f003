//! The invariant: it holds at the start, each event keeps it, so it holds after every list of events.
ghost use Rattle.std.specs.Prelude.{ℕ, ◌+◌, ◌<◌, List};
ghost use Rattle.core_law.specs.core_events.declared.shape.Quota.{Quota};
ghost use Rattle.core_law.specs.plain_state.declared.slot.SlotId.{SlotId};
ghost use Rattle.core_law.specs.plain_state.Sound as plain;
ghost use Rattle.epoch_core.specs.declared.act.Dated.{Dated};
ghost use Rattle.epoch_core.specs.declared.act.EpochAct.{EpochAct};
ghost use Rattle.epoch_core.specs.declared.act.EpochEvent.{EpochEvent};
ghost use Rattle.epoch_core.specs.declared.shape.EpochShape.{EpochShape};
ghost use Rattle.epoch_core.specs.Alone.{Acts, Flushed, IsOnly, flush_acts};
ghost use Rattle.epoch_core.specs.Destroyed.{DestroyedOnce};
ghost use Rattle.epoch_core.specs.Good.{Good};
ghost use Rattle.epoch_core.specs.Runs.{AreQuotas, Core, Enabled, History, IsShape, after, epoch, found, start, view_at};
ghost use Rattle.epoch_core.specs.Shows.{shows};
ghost use Rattle.epoch_core.specs.ShownSteps.{Chain, shown_steps};
ghost use Rattle.epoch_core.specs.Sound.{Sound};
ghost use Rattle.epoch_core.specs.Steps.{CanLeave, IsDue, dated_times};
ghost use Rattle.epoch_core.specs.Words.{last_epoch};

/// The invariant in the form that one event keeps holds where nothing has happened.
pub fn epochs_start()
    ensures { (z : EpochShape) (qs : List Quota) → IsShape z → AreQuotas z qs
        → Sound z (start z qs) }
{}

/// Each event keeps it.
pub fn epoch_step_keeps()
    ensures { (z : EpochShape) (c : Core) (n : ℕ) (a : EpochAct) → Sound z c → Enabled z c n a
        → Sound z (after z c n a) }
{}

/// It holds of every state that has a history.
pub fn epoch_history_is_sound()
    ensures { (z : EpochShape) (qs : List Quota) (es : List EpochEvent) (c : Core) → IsShape z
        → AreQuotas z qs → History z qs es c → Sound z c }
{}

/// Where it holds, the count word of a live slot is the number of its references, what an open region has seen stands
/// in a place or has an entry that isn't due, and what a seat owns or its region has seen is live.
pub fn epoch_sound_is_good()
    ensures { (z : EpochShape) (c : Core) → Sound z c → Good z c }
{}

/// Where it holds, the plain state that is shown is sound, and so lawful.
pub fn epoch_shows_sound()
    ensures { (z : EpochShape) (c : Core) → Sound z c → plain.Sound (shows z c) }
{}

/// Each event shows plain steps of the same seat: a look is followed by a snapshot of the slot that it finds, an exit
/// the end of all snapshots of its region; what gives up the last reference shows the end of the object too, and a free
/// both that the object is destroyed and that its slot is given back. Events on the epoch, and those that open a
/// region, show nothing.
pub fn epoch_event_shows()
    ensures { (z : EpochShape) (c : Core) (n : ℕ) (a : EpochAct) → Sound z c → Enabled z c n a
        → Chain n (shows z c) (shown_steps a (found z c n a) (view_at c n))
        (shows z (after z c n a)) }
{}

/// Over every history each object is destroyed at most once: how often the object in a slot was destroyed, and 1 where
/// one stands, add up to the lives of the slot.
pub fn epochs_destroy_once()
    ensures { (z : EpochShape) (qs : List Quota) (es : List EpochEvent) (c : Core) (s : SlotId)
        → IsShape z → AreQuotas z qs → History z qs es c → s.0 < z.slots
        → DestroyedOnce z es c s }
{}

/// A seat that is alone and in no region advances the epoch by each flush, while the epoch is below its last one. So
/// what was pending before the first of two flushes is due after the second.
pub fn epoch_alone_flushes()
    ensures once { (z : EpochShape) (n : ℕ) (c d : Core) → Sound z c → n < z.seats → IsOnly z c n
        → CanLeave (view_at c n) → epoch c < last_epoch → Acts z n (flush_acts z) c d
        → Flushed z n c d }
    ensures twice { (z : EpochShape) (n : ℕ) (c b d : Core) (x : Dated) → Sound z c → n < z.seats
        → IsOnly z c n → CanLeave (view_at c n) → epoch c + 1 < last_epoch
        → Acts z n (flush_acts z) c b → Acts z n (flush_acts z) b d
        → 0 < dated_times x (view_at c n).pending → IsDue x (view_at d n) }
{}
