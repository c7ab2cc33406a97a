ghost use Rattle.std.specs.Prelude.{◌≡◌, ◌+◌, ◌*◌, ◌≤◌, ◌++◌, All, length, take, flat_map};
ghost use Rattle.uds_chapters.specs.Pages.{HoldsRecord, record_bytes, head_bytes, page_bytes};

use crate::Record;
use byte_fields::{put, put_u8, put_u16, put_u32, put_u64, put_zeros};

/// How many bytes stand before the first record.
pub(crate) const HEAD: usize = 16;

/// How many bytes a record has.
pub(crate) const WIDTH: usize = 24;

/// Writes a page's bytes, as the table of this crate says.
pub(crate) fn put_page(page: &mut [u8], nonce: u64, number: u32, i: u8, records: &[Record])
    requires size { length page.old ≡ 4096 }
    requires few { length records.now ≤ 170 }
    ensures spelled { page.new ≡ page_bytes nonce number i records.now }
    ensures held { All HoldsRecord records.now }
{
    put_head(page, nonce, number, i, records.len() as u8);
    put_records(page, records);
    let end = HEAD + WIDTH * records.len();
    put_zeros(page, end, 4096 - end);
}

#[tactic(auto, unfolding(crate::specs::Pages::head_bytes))]
fn put_head(page: &mut [u8], nonce: u64, number: u32, i: u8, count: u8)
    requires { 16 ≤ length page.old }
    ensures { take 16 page.new ≡ head_bytes nonce number i count }
{
    put_u64(page, 0, nonce);
    put_u32(page, 8, number);
    put_u8(page, 12, i);
    put_u8(page, 13, count);
    put_u16(page, 14, 0);
}

fn put_records(page: &mut [u8], records: &[Record])
    requires { 16 + 24 * length records.now ≤ length page.old }
    ensures written { take (16 + 24 * length records.now) page.new
        ≡ take 16 page.old ++ flat_map record_bytes records.now }
    ensures held { All HoldsRecord records.now }
{
    for (place, one) in records.iter().enumerate() {
        put_record(page, HEAD + WIDTH * place, one);
    }
}

#[tactic(auto, unfolding(crate::specs::Pages::record_bytes))]
fn put_record(page: &mut [u8], at: usize, one: &Record)
    requires { at + 24 ≤ length page.old }
    ensures written { take (at + 24) page.new ≡ take at page.old ++ record_bytes one.now }
    ensures held { HoldsRecord one.now }
{
    let location = one.at.0;
    put(page, at, one.name.as_bytes());
    put_u64(page, at + 16, u64::from(location));
}
