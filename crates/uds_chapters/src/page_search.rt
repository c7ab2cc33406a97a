ghost use Rattle.uds_chapters.specs.Names.{AreRising};
ghost use Rattle.uds_chapters.specs.Finds.{Says, Finds};

use crate::ordered::place_of;
use crate::{PageFind, Record, read_page};
use blk_base::Block;
use block_names::Name;

// The page is read whole before a name is looked for: only then is it known to be a page.
/// What a block says of a name, taken for this page of this chapter of the image with this nonce. The name is found by
/// halving.
pub fn page_find(block: &Block, nonce: u64, number: u32, i: u8, name: &Name) -> PageFind
    ensures { Finds nonce number i block.now name.now result }
{
    match read_page(block, nonce, number, i) {
        Some(records) => find(records.as_slice(), name),
        None => PageFind::NotAPage,
    }
}

// What these records say of a name.
fn find(records: &[Record], name: &Name) -> PageFind
    requires { AreRising records.now }
    ensures { Says records.now name.now result }
{
    match place_of(records, name) {
        Ok(place) => PageFind::At(records[place].at),
        Err(0) => PageFind::Before,
        Err(place) if place == records.len() => PageFind::After,
        Err(_) => PageFind::Absent,
    }
}
