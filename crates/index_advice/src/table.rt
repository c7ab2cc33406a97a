ghost use Rattle.std.specs.Prelude.{◌≡◌, [], IfOk, None};
ghost use Rattle.index_advice.specs.Kept.{known, kept_with};
ghost use Rattle.uds_chapters.specs.Chapters.{location_of};

use crate::{Advisor, Look};
use blk_base::{Block, Pbn};
use block_names::Name;
use std::alloc::{AllocError, Global};
use std::marker::Model;
use uds_chapters::{Record, location, place_of};

/// An advisor without a device: it keeps the last location of each of at most so many names. Contracts see them as
/// records, sorted by name.
#[derive(Drop)]
pub struct Table {
    room: u32,
    records: Vec<Record>,
}

impl Model for Table {
    ghost use Rattle.std.specs.Prelude.{◌≤◌, vec_len, vec_capacity};
    ghost use Rattle.index_advice.specs.Kept.{Tabled};
    ghost use Rattle.uds_chapters.specs.Names.{AreRising};

    ghost Value = { Tabled };

    ghost view = { λ t. record { room = t.room; records = t.records.items } };

    ghost invariant = { λ t. record {
      few : vec_len t.records ≤ t.room;
      capacity : t.room ≤ vec_capacity t.records;
      rising : AreRising t.records.items;
    } };
}

impl Table {
    /// An advisor that keeps at most `room` names, and knows none yet.
    pub fn new(alloc: Global, room: u32) -> Result<Table, AllocError>
        ensures { IfOk result (λ table. table ≡ record { room = room; records = [] }) }
    {
        Ok(Table {
            room,
            records: Vec::with_capacity(alloc, room as usize)?,
        })
    }
}

impl Advisor for Table {
    ghost use Rattle.std.specs.Prelude.{false};
    ghost use Rattle.index_advice.specs.Books.{no_book};

    ghost tells = { false };

    ghost book = { λ t. no_book };

    ghost unread = { λ t. false };

    /// Answers with the location of a name that it keeps, and never asks for a page.
    fn look(&mut self, name: &Name) -> Look
        ensures answer { result ≡ known (location_of name.now self.old.records) }
        ensures same { self.new ≡ self.old }
    {
        match location(&self.records, name) {
            Some(at) => Look::Known(at),
            None => Look::Nothing,
        }
    }

    fn page(&mut self, _at: Pbn, _read: Option<&Block>)
        ensures { self.new ≡ self.old }
    {}

    /// Keeps the location in place of an older one of its name. It is forgotten where there is no room for another name.
    fn learn(&mut self, name: &Name, at: Pbn)
        ensures { self.new ≡ kept_with (record { name = name.now; at = at }) self.old }
    {
        let one = Record { name: *name, at };
        match place_of(&self.records, name) {
            Ok(place) => self.records[place] = one,
            Err(place) if self.records.len() < self.room as usize => {
                let Ok(()) = self.records.insert(place, one) else {
                    unreachable!()
                };
            }
            Err(_) => {}
        }
    }

    fn write_due(&mut self, _into: &mut Block) -> Option<Pbn>
        ensures none { result ≡ None }
        ensures same { self.new ≡ self.old }
    {
        None
    }

    fn finish(&mut self)
        ensures { self.new ≡ self.old }
    {}
}
