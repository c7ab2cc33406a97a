ghost use Rattle.std.specs.Prelude.{◌≡◌, ◌*◌, ◌≤◌, length, take, replicate, flat_map};
ghost use Rattle.std.specs.Bool.{OnTrue};
ghost use Rattle.blk_base.specs.declared.place.Mapping.TheVariants.{Unmapped};
ghost use Rattle.blk_base.specs.declared.sizes.TheConstants.{PAGE_SLOTS};
ghost use Rattle.byte_fields.specs.Mappings.{mapping_bytes};
ghost use Rattle.page_codec.specs.PageBytes.{head_bytes, page_bytes};

use crate::{MapPage, PageHead};
use blk_base::{Block, Mapping};
use byte_fields::{put, put_mapping, put_u8, put_u16, put_u32, put_u64};

/// How many bytes stand before the first slot.
pub(crate) const HEAD: usize = 36;

/// How many bytes a slot has.
pub(crate) const WIDTH: usize = 5;

/// How many slots of a page are looked at at once: all of them are so many runs.
pub(crate) const RUN: u16 = 28;

/// How many runs a page has.
pub(crate) const RUNS: u16 = 29;

/// How many bytes a run has.
pub(crate) const RUN_BYTES: usize = 140;

/// Writes the page's bytes, as the tables of this crate say.
pub fn encode(page: &MapPage, into: &mut Block)
    ensures { into.new ≡ page_bytes page.now.head page.now.mappings }
{
    into.bytes = [0; 4096];
    let (head, slots) = into.bytes.split_at_mut(HEAD);
    put_head(head, &page.head);
    put_slots(slots, page.mappings.as_slice());
}

/// The same for a page whose slots are all unmapped, without a list of them.
pub fn encode_unmapped(head: &PageHead, into: &mut Block)
    ensures { into.new ≡ page_bytes head.now (replicate PAGE_SLOTS Unmapped) }
{
    into.bytes = [0; 4096];
    let (front, _) = into.bytes.split_at_mut(HEAD);
    put_head(front, head);
}

// Long to prove: eight fields are put behind one another.
/// Writes the first bytes of a page.
#[tactic(auto, unfolding(crate::specs::PageBytes::head_bytes))]
pub(crate) fn put_head(page: &mut [u8], head: &PageHead)
    requires { 36 ≤ length page.old }
    ensures { take 36 page.new ≡ head_bytes head.now }
{
    put(page, 0, b"VMP1");
    put_u64(page, 4, head.geometry.nonce);
    put_u64(page, 12, u64::from(head.at.0));
    put_u8(page, 20, head.page.tree);
    put_u8(page, 21, head.page.level);
    put_u16(page, 22, 0);
    put_u32(page, 24, head.page.index);
    put_u64(page, 28, 0);
}

// Writes all slots of a page over zeros.
// Most pages have few mappings, so what is unmapped is passed over by runs.
fn put_slots(page: &mut [u8], mappings: &[Mapping])
    requires zeros { page.old ≡ replicate 4060 0 }
    requires count { length mappings.now ≡ 812 }
    ensures { page.new ≡ flat_map mapping_bytes mappings.now }
{
    for run in 0..RUNS {
        let first = (RUN * run) as usize;
        let slots = &mappings[first..first + RUN as usize];
        if !are_unmapped(slots) {
            let at = RUN_BYTES * run as usize;
            put_run(&mut page[at..at + RUN_BYTES], slots);
        }
    }
}

// No slot ends the loop, so it takes about one instruction for each.
/// Whether each slot is unmapped.
#[inline(always)]
pub fn are_unmapped(slots: &[Mapping]) -> bool
    ensures { OnTrue result (slots.now ≡ replicate (length slots.now) Unmapped) }
{
    let mut unmapped = true;
    for mapping in slots {
        unmapped &= matches!(mapping, Mapping::Unmapped);
    }
    unmapped
}

// Writes the slots of a run.
fn put_run(run: &mut [u8], slots: &[Mapping])
    requires { length run.old ≡ 5 * length slots.now }
    ensures { run.new ≡ flat_map mapping_bytes slots.now }
{
    for (slot, mapping) in slots.iter().enumerate() {
        put_mapping(run, WIDTH * slot, *mapping);
    }
}
