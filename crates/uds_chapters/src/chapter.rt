ghost use Rattle.std.specs.Prelude.{◌≡◌, ◌<◌, ◌≤◌, ◌↔◌, length};
ghost use Rattle.uds_chapters.specs.Names.{AreNamed, AreRising, AreSorted};
ghost use Rattle.uds_chapters.specs.Chapters.{records_in};
ghost use Rattle.uds_chapters.specs.Pages.{IsPage};

use crate::Record;
use crate::page_writer::put_page;
use arrayvec::ArrayVec;
use blk_base::Block;
use std::marker::Model;

/// A closed chapter: its number, and at most 680 records, sorted by name.
#[derive(Drop)]
pub struct Chapter {
    number: u32,
    records: ArrayVec<Record, 680>,
}

impl Model for Chapter {
    ghost use Rattle.uds_chapters.specs.Chapters.{Numbered};
    ghost use Rattle.uds_chapters.specs.Names.{AreSorted};

    ghost Value = { Numbered };

    ghost view = { λ chapter. record { number = chapter.number; records = chapter.records.items } };

    ghost invariant = { λ chapter. AreSorted chapter.records.items };
}

impl Chapter {
    pub(crate) fn new(number: u32, records: ArrayVec<Record, 680>) -> Chapter
        requires { AreSorted records.items }
        ensures { result ≡ record { number = number; records = records.items } }
    {
        Chapter { number, records }
    }

    /// The number.
    pub fn number(&self) -> u32
        ensures { result ≡ self.now.number }
    {
        self.number
    }

    /// The records, sorted by name.
    pub fn records(&self) -> &[Record]
        ensures value { result.now ≡ self.now.records }
        ensures rising { AreRising self.now.records }
        ensures named { AreNamed self.now.records }
        ensures few { length self.now.records ≤ 680 }
    {
        self.records.as_slice()
    }

    /// Writes the page `i` of the four pages, for the image with this nonce.
    pub fn page(&self, i: u8, nonce: u64, into: &mut Block)
        requires { i < 4 }
        ensures { IsPage nonce self.now.number i into.new (records_in i self.now.records) }
    {
        let records = part(self.records.as_slice(), i);
        put_page(&mut into.bytes, nonce, self.number, i, records);
    }
}

// The records of one page.
fn part(records: &[Record], page: u8) -> &[Record]
    ensures part { result.now ≡ records_in page records.now }
    ensures few { length result.now ≤ 170 }
{
    let first = (170 * usize::from(page)).min(records.len());
    let rest = &records[first..];
    let count = rest.len().min(170);
    &rest[..count]
}
