//! Guards of the format of pages.
ghost use Rattle.std.specs.Prelude.{◌≡◌, ◌≢◌, ◌<◌, IfSome, Ok, false, length, slice_index_or};
ghost use Rattle.blk_base.specs.Limits.{IsGeometry};
ghost use Rattle.blk_base.specs.declared.place.Mapping.TheVariants.{Unmapped};
ghost use Rattle.blk_base.specs.declared.sizes.TheConstants.{PAGE_SLOTS};
ghost use Rattle.page_codec.specs.Grammar.{AreHeld};

use blk_base::{Block, Mapping, Mappings};
use byte_fields::read_u8;
use page_codec::{
    MapPage, PageFault, PageHead, are_unmapped, bytes_have_one_reading, decode_mappings, encode,
    slot, what_is_written_is_read,
};

// A page is read as it was written.
fn a_page_is_read_as_written(page: &MapPage, into: &mut Mappings) -> Result<(), PageFault>
    requires geometry { IsGeometry page.now.head.geometry }
    requires held { AreHeld page.now.head.geometry page.now.head.page.level page.now.mappings }
    ensures ok { result ≡ Ok tt }
    ensures read { into.new ≡ page.now.mappings }
{
    what_is_written_is_read();
    bytes_have_one_reading();
    let mut block = Block::zero();
    encode(page, &mut block);
    decode_mappings(&block, &page.head, into)
}

// Where a slot says a mapping, its first byte is a state, and has no bit above it.
fn a_slot_with_high_bits_says_nothing(block: &Block, want: &PageHead, number: u16) -> Option<u8>
    requires geometry { IsGeometry want.now.geometry }
    requires slot { number < PAGE_SLOTS }
    ensures { IfSome result (λ first. first < 2) }
{
    match slot(block, want, number) {
        Ok(_) => Some(read_u8(&block.bytes, 36 + 5 * usize::from(number))),
        Err(_) => None,
    }
}

// A mapping is seen, wherever it stands among unmapped slots.
fn a_mapping_is_seen(slots: &[Mapping], at: usize) -> bool
    requires inside { at < length slots.now }
    requires mapped { slice_index_or slots.now at Unmapped ≢ Unmapped }
    ensures { result ≡ false }
{
    are_unmapped(slots)
}
