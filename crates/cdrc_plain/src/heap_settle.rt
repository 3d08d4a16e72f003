//! A plain heap settles.
ghost use Rattle.std.specs.Prelude.{◌≡◌, ◌+◌, IfOk, OnOk, OnErr};
ghost use Rattle.plain_protocol.specs.plain_state.declared.slot.SlotId.{SlotId};
ghost use Rattle.plain_protocol.specs.plain_state.Fits.{AllFit};
ghost use Rattle.plain_store.specs.Settling.{SettlesTo, SettlesInOrder, IsSettled};
ghost use Rattle.plain_store.specs.Stores.{plain_of, Kept};
ghost use Rattle.cdrc_plain.specs.Watching.{IsRestlessOnly};
ghost use Rattle.plain_store.specs.Draining.{SettlesFreely, HasRoom, IsCalm};

use crate::heap::PlainHeap;
use crate::restless::Restless;
use plain_protocol::PayloadKind;
use plain_store::{OutOfMemory, Store};

/// The slots where the heap may be restless end, or are given again, where nothing keeps them.
fn calm_down(store: &mut Store, restless: Restless)
    requires kept { Kept store.old }
    requires room { HasRoom store.old }
    requires only { IsRestlessOnly restless (plain_of store.old) }
    ensures settles { SettlesFreely (plain_of store.old) (plain_of store.new) }
    ensures kept { Kept store.new }
    ensures room { HasRoom store.new }
    ensures calm { (s : SlotId) → IsCalm (plain_of store.new) s }
{
    match restless {
        Restless::Nowhere => {}
        Restless::At(slot) => store.end_or_give(slot),
        Restless::Anywhere => store.sweep(),
    }
}

/// Destroys what is dying and ejects what is surplus, until nothing more may go. Answers the weights.
fn drain<W: PayloadKind>(store: &mut Store) -> u64
    requires kept { Kept store.old }
    requires room { HasRoom store.old }
    requires fit { AllFit W.fits (plain_of store.old) }
    requires calm { (s : SlotId) → IsCalm (plain_of store.old) s }
    ensures settles { SettlesTo W.weight (plain_of store.old) result (plain_of store.new) }
    ensures settled { IsSettled (plain_of store.new) }
    ensures kept { Kept store.new }
{
    let mut total: u64 = 0;
    let mut stays: usize = 0;
    loop {
        if let Some(payload) = store.destroy_next() {
            total += W::weigh(&payload);
        } else if stays < store.deferred.len() {
            stays = store.eject_or_keep(stays);
        } else {
            return total;
        }
    }
}

impl<W: PayloadKind> PlainHeap<W> {
    /// Ejects and destroys until nothing more may go, and answers the weights of what it destroyed. Of the deferred
    /// entries as many copies of each stay as there are snapshots of it, the earlier ones, in their order. An
    /// allocation failure changes nothing.
    ///
    /// It looks at each object that it destroys and at each entry that it ejects or keeps once, and at each entry
    /// counts the snapshots. Where references to more than one slot were dropped since it settled last, it looks at
    /// each slot besides; else at that slot alone. The first time it takes memory for four entries a slot.
    pub fn settle(&mut self) -> Result<u64, OutOfMemory>
        ensures settles { IfOk result (λ total. SettlesTo W.weight self.old total self.new) }
        ensures settled { OnOk result (IsSettled self.new) }
        ensures ejects { IfOk result (λ total.
            SettlesInOrder W.weight self.old total self.new) }
        ensures err { OnErr result (self.new ≡ self.old) }
    {
        self.store.make_room()?;
        calm_down(&mut self.store, self.restless);
        self.restless = Restless::Nowhere;
        Ok(drain::<W>(&mut self.store))
    }
}
