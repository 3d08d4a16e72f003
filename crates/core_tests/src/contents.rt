//! What the places of a core hold and how many tickets are drawn, kept beside it by what its events answer.
use cdrc_steps::{Act, EventPlace, Outcome, SlotId};
use std::alloc::AllocError;

/// The places that aren't null, each with the slot that it holds, and the tickets drawn.
#[derive(Drop)]
pub struct Contents {
    pub holds: Vec<(EventPlace, SlotId)>,
    pub tickets: u64,
}

impl Contents {
    fn found(&self, place: EventPlace) -> Option<SlotId> {
        let held = self.holds.iter().find(|held| held.0 == place)?;
        Some(held.1)
    }

    /// The place holds this from now on. Answers what it held.
    fn put(
        &mut self,
        place: EventPlace,
        new: Option<SlotId>,
    ) -> Result<Option<SlotId>, AllocError> {
        let old = self.found(place);
        self.holds.retain(|held| held.0 != place);
        if let Some(slot) = new {
            self.holds.push((place, slot))?;
        }
        Ok(old)
    }

    /// Notes an event that was made. Whether it answered what is kept here.
    pub fn agree(&mut self, act: Act, outcome: Outcome) -> Result<bool, AllocError> {
        Ok(match (act, outcome) {
            (Act::Look(place), Outcome::Found(slot)) => slot == self.found(place),
            (Act::Check(_, place), Outcome::Valid) => self.found(place).is_some(),
            (Act::Check(_, place), Outcome::Moved(slot)) => slot == self.found(place),
            (Act::Swap(place, new), Outcome::Found(slot)) => slot == self.put(place, new)?,
            (Act::Cas(place, old, new), Outcome::Done) => old == self.put(place, new)?,
            (Act::Cas(place, old, _), Outcome::LostTo(slot)) => {
                slot == self.found(place) && slot != old
            }
            (Act::Ticket, Outcome::Number(ticket)) => {
                self.tickets = self.tickets.saturating_add(1);
                ticket.saturating_add(1) == self.tickets
            }
            _ => true,
        })
    }

    /// How many strong places hold the slot.
    pub fn strong(&self, slot: SlotId) -> usize {
        let holds = self.holds.iter();
        holds
            .filter(|held| is_strong(held.0) && held.1 == slot)
            .count()
    }

    /// How many weak places hold the slot.
    pub fn weak(&self, slot: SlotId) -> usize {
        let holds = self.holds.iter();
        holds
            .filter(|held| !is_strong(held.0) && held.1 == slot)
            .count()
    }

    /// Whether no field of the slot holds anything.
    pub fn has_null_fields(&self, slot: SlotId) -> bool {
        self.holds.iter().all(|held| match held.0 {
            EventPlace::Field(own, _) | EventPlace::WeakField(own) => own != slot,
            EventPlace::Cell(_) | EventPlace::WeakCell(_) => true,
        })
    }
}

pub fn is_strong(place: EventPlace) -> bool {
    matches!(place, EventPlace::Cell(_) | EventPlace::Field(_, _))
}
