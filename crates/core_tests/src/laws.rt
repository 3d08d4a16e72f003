//! The laws of a core, read from their definitions and tested slowly: every reference is looked for in every list and
//! place.
use crate::contents::Contents;
use cdrc_steps::{Core, Kind, Note, OwnView, Phase, SlotId};

const ZERO: u64 = 1 << 63;

const HELP: u64 = 1 << 62;

fn times(slots: &[SlotId], slot: SlotId) -> usize {
    slots.iter().filter(|s| **s == slot).count()
}

/// How often the reference stands in what the seat has retired and what it owes.
fn deferred_times(view: &OwnView, kind: Kind, slot: SlotId) -> usize {
    let retired = view
        .retired()
        .iter()
        .filter(|e| **e == (kind, slot))
        .count();
    let owed = view.owed().iter().filter(|e| **e == (kind, slot)).count();
    usize::saturating_add(retired, owed)
}

/// What all seats have of something, together.
fn sum<F: Fn(&OwnView) -> usize>(core: &Core, of: F) -> usize
    requires { F.IsAlwaysCallable of }
{
    let mut all: usize = 0;
    for seat in 0..core.shape().seats {
        all = all.saturating_add(of(core.seat(seat)));
    }
    all
}

/// In how many seats' phases the slot stands so.
fn in_phase(core: &Core, phase: Phase) -> usize {
    sum(core, |view| usize::from(view.phase() == phase))
}

/// The words of a slot count its references, and flags stand only where somebody is to end it.
fn are_counts_good(core: &Core, contents: &Contents, slot: SlotId) -> bool {
    if slot.0 >= core.shape().slots {
        return false;
    }
    let (strong, weak) = (core.strong_word(slot), core.weak_word(slot));
    let strong_refs = sum(core, |view| {
        usize::saturating_add(
            times(view.owned(), slot),
            deferred_times(view, Kind::Strong, slot),
        )
    });
    let weak_refs = sum(core, |view| {
        usize::saturating_add(
            times(view.weaks(), slot),
            deferred_times(view, Kind::Weak, slot),
        )
    });
    let finishing = in_phase(core, Phase::Finish(slot));
    let helps = strong % ZERO >= HELP;
    let ends_once = strong < ZERO || !helps;
    let has_own = strong < ZERO
        || helps
        || in_phase(core, Phase::Blank(slot)) > 0
        || sum(core, |view| times(view.dying(), slot)) > 0;
    let own = usize::from(has_own && !core.is_free(slot));
    let count = if strong < ZERO { strong } else { 0 };
    let weaks = weak_refs
        .saturating_add(contents.weak(slot))
        .saturating_add(own);
    let adds = sum(core, |view| view.adds() as usize);
    count == strong_refs.saturating_add(contents.strong(slot)) as u64
        && weak == weaks as u64
        && (strong >= ZERO || !helps)
        && (strong != 0 || finishing > 0)
        && (ends_once || finishing > 0 || in_phase(core, Phase::Help(slot)) > 0)
        && strong % HELP <= adds as u64
}

/// One seat ends a slot, and one has it from its claim to its start or is to give it back.
fn has_one_ender(core: &Core, contents: &Contents, slot: SlotId) -> bool {
    if slot.0 >= core.shape().slots {
        return false;
    }
    let (strong, weak) = (core.strong_word(slot), core.weak_word(slot));
    let dying = sum(core, |view| times(view.dying(), slot));
    let (bare, blank) = (
        in_phase(core, Phase::Bare(slot)),
        in_phase(core, Phase::Blank(slot)),
    );
    let giving = in_phase(core, Phase::Give(slot));
    let keepers = bare.saturating_add(blank).saturating_add(giving);
    let is_over = strong >= ZERO && strong % ZERO < HELP;
    let is_free = core.is_free(slot);
    dying <= 1
        && keepers <= 1
        && (dying == 0 || is_over && !is_free && bare == 0 && blank == 0)
        && (keepers == 0 || is_over && !is_free && weak == blank as u64)
        && (weak != 0 || is_free || keepers == 1)
        && (!is_free || is_over && weak == 0)
        && (dying > 0 || strong < ZERO || !is_over || contents.has_null_fields(slot))
}

/// The announcement word of a note.
pub fn announced(note: Note) -> u64 {
    match note {
        Note::Idle => 0,
        Note::Announced(kind, slot) | Note::Valid(kind, slot) => {
            let first = 4 * (slot.0 as u64 + 1);
            match kind {
                Kind::Strong => first,
                Kind::Weak => first + 1,
                Kind::Disposal => first + 2,
            }
        }
    }
}

/// Whether a scan of the seat has read another word there than this.
fn has_passed(view: &OwnView, at: usize, word: u64) -> bool {
    match view.seen().get(at) {
        Some(seen) => *seen != word,
        None => false,
    }
}

/// What is under a valid note is in a place, or lives, or waits where no scan has passed the note's word.
fn is_note_good(core: &Core, contents: &Contents, note: Note, at: usize) -> bool {
    let word = announced(note);
    match note {
        Note::Idle | Note::Announced(_, _) => true,
        Note::Valid(_, slot) if slot.0 >= core.shape().slots => false,
        Note::Valid(Kind::Disposal, slot) => {
            let strong = core.strong_word(slot);
            let lives = !core.is_free(slot) && (strong < ZERO || strong % ZERO >= HELP);
            let waits = sum(core, |view| {
                times(view.dying(), slot) * usize::from(!has_passed(view, at, word))
            });
            sum(core, |view| times(view.ripe(), slot)) == 0 && (lives || waits > 0)
        }
        Note::Valid(kind, slot) => {
            let places = match kind {
                Kind::Strong => contents.strong(slot),
                _ => contents.weak(slot),
            };
            let waits = sum(core, |view| {
                let retired = view
                    .retired()
                    .iter()
                    .filter(|e| **e == (kind, slot))
                    .count();
                retired * usize::from(!has_passed(view, at, word))
            });
            places > 0 || waits > 0
        }
    }
}

/// How often a ticket was drawn, by the lists of all seats, left ones among them.
fn ticket_times(core: &Core, ticket: u64) -> usize {
    sum(core, |view| {
        let own = view.tickets().iter().filter(|t| **t == ticket).count();
        let past = view.left_seats().iter();
        past.fold(own, |all, left| {
            let more = left.tickets().iter().filter(|t| **t == ticket).count();
            usize::saturating_add(all, more)
        })
    })
}

/// What the laws say of the notes of one seat, and of its room.
fn is_seat_good(core: &Core, contents: &Contents, seat: u32) -> bool {
    if seat >= core.shape().seats {
        return false;
    }
    let view = core.seat(seat);
    let entries = view.retired().len().saturating_add(view.owed().len());
    let first = 4 * seat as usize;
    entries <= view.room() as usize
        && view.notes().iter().enumerate().all(|(at, note)| is_note_good(
            core,
            contents,
            *note,
            first.saturating_add(at),
        ))
}

/// All laws of a core, beside which its contents were kept.
pub fn is_good(core: &Core, contents: &Contents) -> bool {
    let shape = core.shape();
    (0..shape.slots).all(|slot| {
        are_counts_good(core, contents, SlotId(slot)) && has_one_ender(core, contents, SlotId(slot))
    }) && (0..shape.seats).all(|seat| is_seat_good(core, contents, seat))
        && ticket_times(core, contents.tickets) == 0
        && (0..contents.tickets).all(|ticket| ticket_times(core, ticket) == 1)
}
