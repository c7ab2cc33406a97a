ghost use Rattle.std.specs.Prelude.{◌≡◌, ◌+◌, ◌≤◌, ◌++◌, ◌↔◌, ℕ, List, All, IsTrue, IfSome, IfNone, length, take, drop, flat_map};
ghost use Rattle.byte_fields.specs.Fields.{number_at};
ghost use Rattle.uds_chapters.specs.declared.entry.Record.{Record};
ghost use Rattle.uds_chapters.specs.Pages.{IsPage, HoldsRecord, record_bytes, page_bytes};

use crate::Record;
use crate::ordered::are_rising;
use crate::page_writer::{HEAD, WIDTH, put_page};
use blk_base::{Block, Pbn};
use block_names::Name;
use byte_fields::{read_u8, read_u32};
use sector_records::Records;

/// The records of a page.
pub type PageRecords = Records<Record, 170>;

/// The records of a block that is this page of this chapter, of the image with this nonce; `None` exactly where it isn't.
pub fn read_page(block: &Block, nonce: u64, number: u32, i: u8) -> Option<PageRecords>
    ensures some { IfSome result (λ records. IsPage nonce number i block.now records) }
    ensures none { IfNone result
        ((records : List Record) → IsPage nonce number i block.now records → ⊥) }
{
    read_bytes(&block.bytes, nonce, number, i)
}

fn read_bytes(bytes: &[u8], nonce: u64, number: u32, i: u8) -> Option<PageRecords>
    requires { length bytes.now ≡ 4096 }
    ensures some { IfSome result (λ records. IsPage nonce number i bytes.now records) }
    ensures none { IfNone result
        ((records : List Record) → IsPage nonce number i bytes.now records → ⊥) }
{
    let count = read_u8(bytes, 13);
    if i > 3 || count > 170 {
        return None;
    }
    let records = read_records(bytes, count);
    if is_spelled(bytes, nonce, number, i, records.as_slice()) && are_rising(records.as_slice()) {
        Some(records)
    } else {
        None
    }
}

// The records that the bytes spell, if they spell this many.
fn read_records(bytes: &[u8], count: u8) -> PageRecords
    requires size { length bytes.now ≡ 4096 }
    requires few { count ≤ 170 }
    ensures count { length result ≡ count }
    ensures read { (records : List Record) (rest : List ℕ) → All HoldsRecord records →
        length records ≡ count
        → drop 16 bytes.now ≡ flat_map record_bytes records ++ rest → result ≡ records }
{
    let mut records = Records::new();
    for k in 0..count {
        records.push(read_record(bytes, HEAD + WIDTH * usize::from(k)));
    }
    records
}

// The record that the bytes at a place spell, if they spell one.
fn read_record(bytes: &[u8], at: usize) -> Record
    requires { at + 24 ≤ length bytes.now }
    ensures { (one : Record) → HoldsRecord one → take 24 (drop at bytes.now) ≡ record_bytes one →
        result ≡ one }
{
    Record {
        name: read_name(bytes, at),
        at: Pbn(read_u32(bytes, at + 16)),
    }
}

// The name at a place.
fn read_name(bytes: &[u8], at: usize) -> Name
    requires { at + 16 ≤ length bytes.now }
    ensures { result ≡ take 16 (drop at bytes.now) }
{
    let mut name = [0; 16];
    name.copy_from_slice(&bytes[at..at + 16]);
    Name::new(name)
}

// Whether the bytes are those of the page with these records.
fn is_spelled(bytes: &[u8], nonce: u64, number: u32, i: u8, records: &[Record]) -> bool
    requires { length records.now ≤ 170 }
    ensures spelled { IsTrue result ↔ (bytes.now ≡ page_bytes nonce number i records.now) }
    ensures held { All HoldsRecord records.now }
{
    let mut page = [0; 4096];
    put_page(&mut page, nonce, number, i, records);
    bytes == page.as_slice()
}
