ghost use Rattle.std.specs.Prelude.{◌≡◌, ◌<◌, ◌≤◌, ℕ, [], length, slice_index};
ghost use Rattle.uds_chapters.specs.Names.{AreNamed, AreRising, AreSorted, IsName};
ghost use Rattle.uds_chapters.specs.Chapters.{Adds};

use crate::ordered::place_of;
use crate::{Added, Chapter, Record};
use arrayvec::ArrayVec;
use blk_base::Pbn;
use block_names::Name;
use std::marker::Model;

// The records lie in the value itself, so that neither making, filling nor closing one asks for memory. Sorted, so that
// a name is found by halving and closing is a move.
/// The records that were learnt since the last chapter was closed, which contracts see as a list, sorted by name. There
/// is room for 680 in the value itself, so that no call asks for memory.
#[derive(Drop)]
pub struct OpenChapter {
    records: ArrayVec<Record, 680>,
}

impl Model for OpenChapter {
    ghost use Rattle.std.specs.Prelude.{List};
    ghost use Rattle.uds_chapters.specs.declared.entry.Record.{Record};
    ghost use Rattle.uds_chapters.specs.Names.{AreSorted};

    ghost Value = { List Record };

    ghost view = { λ o. o.records.items };

    ghost invariant = { λ o. AreSorted o.records.items };
}

impl OpenChapter {
    /// No record.
    pub fn new() -> OpenChapter
        ensures { result ≡ [] }
    {
        OpenChapter {
            records: ArrayVec::new(),
        }
    }

    /// The records, sorted by name.
    pub fn records(&self) -> &[Record]
        ensures value { result.now ≡ self.now }
        ensures rising { AreRising self.now }
        ensures named { AreNamed self.now }
        ensures few { length self.now ≤ 680 }
    {
        self.records.as_slice()
    }

    /// Adds a record, in place of an older one of its name. It is full exactly where 680 other names are there.
    pub fn add(&mut self, name: &Name, at: Pbn) -> Added
        ensures { Adds self.old self.new (record { name = name.now; at = at }) result }
    {
        // For the proof alone, as what it calls does nothing.
        is_name(name);
        let record = Record { name: *name, at };
        match place_of(self.records.as_slice(), name) {
            Ok(place) => {
                self.records.as_mut_slice()[place] = record;
                Added::Replaced
            }
            Err(_) if self.records.is_full() => Added::Full,
            Err(place) => {
                self.records.insert(place, record);
                Added::New
            }
        }
    }

    /// Closes the chapter: its records become those of the chapter with this number, and the open chapter is empty.
    pub fn close(&mut self, number: u32) -> Chapter
        ensures closed { result ≡ record { number = number; records = self.old } }
        ensures sorted { AreSorted self.old }
        ensures empty { self.new ≡ [] }
    {
        Chapter::new(number, self.records.take())
    }
}

// A name has 16 bytes, each below 256.
fn is_name(name: &Name)
    ensures { IsName name.now }
{
    are_bytes(name.as_bytes());
}

fn are_bytes(bytes: &[u8])
    ensures { (k : ℕ) → slice_index bytes.now k < 256 }
{}
