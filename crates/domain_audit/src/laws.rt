//! What holds of the image of a domain that one seat alone is in, whatever takes it.
ghost use Rattle.std.specs.Prelude.{List};
ghost use Rattle.plain_audit.specs.plain_state.declared.image.Heap.{Heap};
ghost use Rattle.plain_audit.specs.plain_state.Fits.{AllFit};
ghost use Rattle.plain_audit.specs.plain_state.Images.{IsImage};
ghost use Rattle.protected_loads.specs.core_events.declared.act.Event.{Event};
ghost use Rattle.protected_loads.specs.core_events.declared.shape.Shape.{Shape};
ghost use Rattle.protected_loads.specs.core_events.Runs.{AreTerms, Core, History, IsShape};
ghost use Rattle.protected_loads.specs.core_events.Shows.{shows};
ghost use Rattle.protected_loads.specs.core_events.Views.{Terms};
ghost use Rattle.domain_audit.specs.Lone.{CanBeAudited, IsLone};

use protected_loads::PayloadKind;

/// Of each state that events reach, where every seat but seat 0 has left, and that one is in the middle of nothing and
/// has nothing dying: its image is lawful, all names in it are in range, and where the payloads of its objects fit,
/// those of the image's Live slots do. That is what an audit asks.
pub fn image_can_be_audited<W: PayloadKind>()
    ensures { (z : Shape) (ts : Terms) (events : List Event) (c : Core) (heap : Heap) → IsShape z
        → AreTerms z ts → History z ts events c → IsLone c → AllFit W.fits (shows z c)
        → IsImage (shows z c) heap → CanBeAudited W.fits heap }
{}
