//! The words that a scan has noted.
ghost use Rattle.std.specs.Prelude.{◌≡◌, ◌<◌, ◌≤◌, ◌+◌, ◌-◌, ◌^◌, [], IfErr, IfOk, vec_capacity, vec_len};
ghost use Rattle.eject_scan.specs.Seen.{IsAscending, announced, note_in, total, with_word};
ghost use Rattle.eject_scan.specs.Rows.{IsGap, StandsAt};

use announce_slots::{Announced, Kind, SlotId, announced_as};
use out_of_memory::OutOfMemory;
use std::alloc::Global;
use std::marker::Model;

/// A word that announces a slot under a kind, and how often it was noted.
#[derive(Clone, Copy, Debug, Drop)]
pub struct Row {
    pub word: u64,
    pub times: u32,
}

/// The announcement words noted since `clear`, but for words of 0, as rows in ascending order.
#[derive(Drop)]
pub struct Seen {
    rows: Vec<Row>,
    room: u32,
}

impl Model for Seen {
    ghost use Rattle.std.specs.Prelude.{◌≤◌, ◌<◌, ◌^◌, vec_len, vec_capacity};
    ghost use Rattle.eject_scan.specs.Seen.{IsAscending, Noted, total};

    ghost Value = { Noted };

    ghost view = { λ seen. record { rows = seen.rows.items; room = seen.room } };

    ghost invariant = { λ seen. IsAscending 0 seen.rows.items
        × (vec_len seen.rows ≤ total seen.rows.items) × (total seen.rows.items ≤ seen.room)
        × (seen.room < 2 ^ 32) × (seen.room ≤ vec_capacity seen.rows) };
}

impl Seen {
    /// No word is noted yet, and there is room for `a` words.
    pub fn with_room(alloc: Global, a: u32) -> Result<Seen, OutOfMemory>
        ensures { IfOk result (λ seen. seen ≡ record { rows = []; room = a }) }
    {
        let rows = Vec::with_capacity(alloc, a as usize)?;
        Ok(Seen { rows, room: a })
    }

    /// Forgets all words.
    pub fn clear(&mut self)
        ensures { self.new ≡ record self.old { rows = [] } }
    {
        self.rows.clear();
    }

    /// Notes a word that a scan has read. Of the words noted since `clear` fewer than there is room for are not 0,
    /// as holds where fewer were noted at all.
    #[inline(always)]
    pub fn note(&mut self, word: u64)
        requires { total self.old.rows < self.old.room }
        ensures { self.new ≡ record self.old { rows = with_word word self.old.rows } }
    {
        if word != 0 {
            note_in(&mut self.rows, word);
        }
    }
}

/// Notes a word that announces something in rows that are ascending. Most words that a scan reads are 0, so this stays
/// out of its loop.
#[inline(never)]
fn note_in(rows: &mut Vec<Row>, word: u64)
    requires word { 0 < word }
    requires ascending { IsAscending 0 rows.old.items }
    requires room { vec_len rows.old < vec_capacity rows.old }
    requires times { total rows.old.items < 2 ^ 32 - 1 }
    ensures noted { rows.new.items ≡ note_in word rows.old.items }
    ensures few { vec_len rows.new ≤ vec_len rows.old + 1 }
    ensures capacity { vec_capacity rows.old ≤ vec_capacity rows.new }
{
    match place_of(rows, word) {
        Ok(place) => rows[place].times += 1,
        Err(place) => {
            // There is room, so this never fails.
            let Ok(()) = rows.insert(place, Row { word, times: 1 }) else {
                unreachable!()
            };
        },
    }
}

/// Where the word's row stands among ascending ones, or else where it would.
fn place_of(rows: &[Row], word: u64) -> Result<usize, usize>
    requires { IsAscending 0 rows.now }
    ensures place { IfOk result (StandsAt word rows.now) }
    ensures gap { IfErr result (IsGap word rows.now) }
{
    let place = rows.partition_point(|row| row.word < word);
    if place < rows.len() && rows[place].word == word {
        Ok(place)
    } else {
        Err(place)
    }
}

impl Announced for Seen {
    ghost announced = { λ seen kind slot. announced seen.rows kind slot };

    /// How many noted words announce the slot under this kind, by a search in the rows.
    fn times(&self, kind: Kind, slot: SlotId) -> u32 {
        match place_of(&self.rows, announced_as(kind, slot)) {
            Ok(place) => self.rows[place].times,
            Err(_) => 0,
        }
    }
}
