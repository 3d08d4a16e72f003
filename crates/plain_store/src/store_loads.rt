//! References that the seat of a store gains to what a place holds.
ghost use Rattle.std.specs.Prelude.{◌≡◌, IfOk, OnErr};
ghost use Rattle.plain_state.specs.declared.slot.Kind.TheVariants.{Strong, Weak};
ghost use Rattle.plain_state.specs.Places.{IsOpen, place_kind};
ghost use Rattle.plain_store.specs.Calls.{Loads, WeaklyLoads};
ghost use Rattle.plain_store.specs.Stores.{plain_of, Kept};

use crate::hand::{Hand, WeakHand};
use crate::store::Store;
use out_of_memory::OutOfMemory;
use plain_state::EventPlace;

impl Store {
    /// One more owned reference to what a strong place holds.
    pub fn load(&mut self, place: EventPlace) -> Result<Option<Hand>, OutOfMemory>
        requires kept { Kept self.old }
        requires opened { IsOpen (plain_of self.old) 0 place }
        requires strong { place_kind place ≡ Strong }
        ensures loads { IfOk result (λ h. Loads (plain_of self.old) place h (plain_of self.new)) }
        ensures slots { self.new.slots.items ≡ self.old.slots.items }
        ensures err { OnErr result (plain_of self.new ≡ plain_of self.old) }
        ensures kept { Kept self.new }
    {
        match self.content(place) {
            None => Ok(None),
            Some(slot) => {
                self.own(slot)?;
                Ok(Some(Hand::of(slot)))
            }
        }
    }

    /// One more weak reference to what a weak place holds.
    pub fn load_weak(&mut self, place: EventPlace) -> Result<Option<WeakHand>, OutOfMemory>
        requires kept { Kept self.old }
        requires opened { IsOpen (plain_of self.old) 0 place }
        requires weak { place_kind place ≡ Weak }
        ensures loads { IfOk result (λ w.
            WeaklyLoads (plain_of self.old) place w (plain_of self.new)) }
        ensures slots { self.new.slots.items ≡ self.old.slots.items }
        ensures err { OnErr result (plain_of self.new ≡ plain_of self.old) }
        ensures kept { Kept self.new }
    {
        match self.content(place) {
            None => Ok(None),
            Some(slot) => {
                self.own_weakly(slot)?;
                Ok(Some(WeakHand::of(slot)))
            }
        }
    }
}
