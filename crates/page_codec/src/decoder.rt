ghost use Rattle.std.specs.Prelude.{◌≡◌, ◌+◌, ◌*◌, ◌<◌, ◌≤◌, ◌↔◌, List, length, replicate, IsTrue, IfOk, IfErr, OnOk, OnErr, IfSome, IfNone};
ghost use Rattle.blk_base.specs.declared.place.Mapping.{Mapping};
ghost use Rattle.blk_base.specs.declared.place.Mapping.TheVariants.{Unmapped};
ghost use Rattle.blk_base.specs.Limits.{IsGeometry};
ghost use Rattle.byte_fields.specs.Mappings.{state_of, target_of};
ghost use Rattle.page_codec.specs.Grammar.{HoldsMapping, IsPage, HasHead, IsSlot, IsSlotFault, IsPageFault};
ghost use Rattle.page_codec.specs.Runs.{AreReadTo, HasZeros};

use crate::encoder::{HEAD, RUN, RUN_BYTES, RUNS, WIDTH, put_head};
use crate::{MapPage, PageFault, PageHead};
use blk_base::{Block, Layout, Mapping, Mappings, PAGE_SLOTS, Pbn};
use byte_fields::{read_u8, read_u32};
use lane_kernels::all_zeros;

// Which numbers are data blocks is a question of the sizes, so it asks for some within their limits.
/// Reads a page. The fault is that the block begins as another page does, or else that of the least slot that has one.
/// After a fault each slot of `into` is unmapped.
pub fn decode(block: &Block, want: &PageHead, into: &mut MapPage) -> Result<(), PageFault>
    requires geometry { IsGeometry want.now.geometry }
    ensures head { into.new.head ≡ want.now }
    ensures ok { OnOk result (IsPage want.now block.now into.new.mappings) }
    ensures fault { IfErr result (λ fault. IsPageFault want.now block.now fault) }
    ensures outside { OnErr result
        ((mappings : List Mapping) → IsPage want.now block.now mappings → ⊥) }
    ensures emptied { OnErr result (into.new.mappings ≡ replicate PAGE_SLOTS Unmapped) }
{
    into.head = *want;
    match decode_mappings(block, want, &mut into.mappings) {
        Ok(()) => Ok(()),
        Err(fault) => {
            into.mappings.clear();
            Err(fault)
        }
    }
}

/// The same where the mappings alone are wanted. After a fault `into` has any mappings.
pub fn decode_mappings(block: &Block, want: &PageHead, into: &mut Mappings) -> Result<(), PageFault>
    requires { IsGeometry want.now.geometry }
    ensures ok { OnOk result (IsPage want.now block.now into.new) }
    ensures fault { IfErr result (λ fault. IsPageFault want.now block.now fault) }
{
    read_page(&block.bytes, want, into)
}

/// What one slot of a page says, whatever the others are. The fault is that the block begins as another page does, or
/// else that of the slot.
pub fn slot(block: &Block, want: &PageHead, slot: u16) -> Result<Mapping, PageFault>
    requires geometry { IsGeometry want.now.geometry }
    requires slot { slot < PAGE_SLOTS }
    ensures ok { IfOk result (λ mapping. IsSlot want.now block.now slot mapping) }
    ensures fault { IfErr result (λ fault. IsSlotFault want.now block.now slot fault) }
    ensures outside { OnErr result
        ((mapping : Mapping) → IsSlot want.now block.now slot mapping → ⊥) }
{
    if !has_head(&block.bytes, want) {
        return Err(PageFault::Header);
    }
    read_slot(&block.bytes, want, slot)
}

// The same for the bytes of a block.
// Most pages have no mapping or few, so what is unmapped is passed over at once, or else by runs.
fn read_page(bytes: &[u8], want: &PageHead, into: &mut Mappings) -> Result<(), PageFault>
    requires geometry { IsGeometry want.now.geometry }
    requires size { length bytes.now ≡ 4096 }
    ensures ok { OnOk result (IsPage want.now bytes.now into.new) }
    ensures fault { IfErr result (λ fault. IsPageFault want.now bytes.now fault) }
{
    if !has_head(bytes, want) {
        return Err(PageFault::Header);
    }
    into.clear();
    if all_zeros(&bytes[HEAD..]) {
        return Ok(());
    }
    for run in 0..RUNS {
        read_run(bytes, want, run, into)?;
    }
    Ok(())
}

// Reads the slots of a run, behind those of the runs before it.
fn read_run(bytes: &[u8], want: &PageHead, run: u16, into: &mut Mappings) -> Result<(), PageFault>
    requires geometry { IsGeometry want.now.geometry }
    requires size { length bytes.now ≡ 4096 }
    requires head { HasHead want.now bytes.now }
    requires run { run < 29 }
    requires read { AreReadTo want.now bytes.now (28 * run) into.old }
    ensures ok { OnOk result (AreReadTo want.now bytes.now (28 * (run + 1)) into.new) }
    ensures fault { IfErr result (λ fault. IsPageFault want.now bytes.now fault) }
{
    if has_zeros(bytes, run) {
        return Ok(());
    }
    for slot in RUN * run..RUN * (run + 1) {
        into.set(slot, read_slot(bytes, want, slot)?);
    }
    Ok(())
}

// Whether the slots of a run are all zeros.
// Long to prove: a run of bytes is tied to its slots.
fn has_zeros(bytes: &[u8], run: u16) -> bool
    requires size { length bytes.now ≡ 4096 }
    requires run { run < 29 }
    ensures { IsTrue result ↔ HasZeros run bytes.now }
{
    let at = HEAD + RUN_BYTES * run as usize;
    all_zeros(&bytes[at..at + RUN_BYTES])
}

// Whether the bytes begin as this page does.
fn has_head(bytes: &[u8], want: &PageHead) -> bool
    requires { 36 ≤ length bytes.now }
    ensures { IsTrue result ↔ HasHead want.now bytes.now }
{
    let mut head = [0; HEAD];
    put_head(&mut head, want);
    let front = &bytes[..HEAD];
    front == head.as_slice()
}

// What a slot says of a page that has the right head.
fn read_slot(bytes: &[u8], want: &PageHead, slot: u16) -> Result<Mapping, PageFault>
    requires geometry { IsGeometry want.now.geometry }
    requires size { length bytes.now ≡ 4096 }
    requires slot { slot < PAGE_SLOTS }
    requires head { HasHead want.now bytes.now }
    ensures ok { IfOk result (λ mapping. IsSlot want.now bytes.now slot mapping) }
    ensures fault { IfErr result (λ fault. IsSlotFault want.now bytes.now slot fault) }
{
    let at = HEAD + WIDTH * slot as usize;
    let first = read_u8(bytes, at);
    if first % 16 > 1 {
        return Err(PageFault::Compressed(slot));
    }
    match mapping_of(first, read_u32(bytes, at + 1), want) {
        Some(mapping) => Ok(mapping),
        None => Err(PageFault::OutOfRange(slot)),
    }
}

// The mapping that has this first byte and this block, if the page can hold it.
fn mapping_of(first: u8, block: u32, want: &PageHead) -> Option<Mapping>
    requires { IsGeometry want.now.geometry }
    ensures some { IfSome result (λ m.
        (state_of m ≡ first) × (target_of m ≡ block)
        × HoldsMapping want.now.geometry want.now.page.level m) }
    ensures none { IfNone result
        ((m : Mapping) → state_of m ≡ first → target_of m ≡ block →
        HoldsMapping want.now.geometry want.now.page.level m → ⊥) }
{
    if first == 0 && block == 0 {
        Some(Mapping::Unmapped)
    } else if first == 1 && block == 0 && want.page.level == 0 {
        Some(Mapping::Zero)
    } else if first == 1 && Layout::of(&want.geometry).is_data_block(Pbn(block)) {
        Some(Mapping::At(Pbn(block)))
    } else {
        None
    }
}
