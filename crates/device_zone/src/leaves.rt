ghost use Rattle.std.specs.Prelude.{◌≡◌, ◌<◌, ◌↔◌, List, length, drop, replicate, IsTrue, IfOk, IfErr, Some, slice_index_or};
ghost use Rattle.blk_base.specs.Pages.{slot_of_address};
ghost use Rattle.blk_base.specs.Limits.{IsGeometry};
ghost use Rattle.blk_base.specs.declared.place.Mapping.{Mapping as Mapped};
ghost use Rattle.blk_base.specs.declared.place.Mapping.TheVariants.{Unmapped};
ghost use Rattle.disk_model.specs.Seen.{Stays};
ghost use Rattle.page_codec.specs.Grammar.{IsPage, IsPageFault};
ghost use Rattle.core_model.specs.DeviceRules as rules;
ghost use Rattle.core_model.specs.DeviceRules.{DeviceServes, IsReady};
ghost use Rattle.core_model.specs.PageLinks.{leaf_head};
ghost use Rattle.core_model.specs.Trace.{Trace};
ghost use Rattle.data_vio.specs.declared.items.Phase.TheVariants as phase;
ghost use Rattle.step_parts.specs.DeviceLog.{HasCalled};
ghost use Rattle.device_zone.specs.Served.{CanServe, MayServe};

use crate::device_calls::read_block;
use crate::harms::harm;
use blk_base::{Answer, Block, Lba, Mapping, Mappings, PAGE_SLOTS, Pbn};
use core_model::DeviceZone;
use data_vio::{BoxedVio, Item, Phase, Sizes};
use disk_model::Disk;
use lane_kernels::all_zeros;
use page_codec::{PageFault, PageHead, decode_mappings, slot};
use step_parts::Posts;
use vdo_model::Damage;

// How many bytes of a page stand before its first slot.
const HEAD: usize = 36;

// What the leaf of an address, which stands at this block, maps it to. It is read whole: one that doesn't decode says
// nothing.
fn mapping_in(sizes: &Sizes, at: Lba, leaf: Pbn, bytes: &Block) -> Result<Mapping, PageFault>
    requires { IsGeometry sizes.now.geometry }
    ensures ok { IfOk result (λ mapping.
        (mappings : List Mapped)
        × IsPage (leaf_head sizes.now.geometry at.0 leaf) bytes.now mappings
        × (mapping ≡ slice_index_or mappings (slot_of_address at.0) Unmapped)) }
    ensures fault { IfErr result (λ fault.
        IsPageFault (leaf_head sizes.now.geometry at.0 leaf) bytes.now fault) }
{
    let want = PageHead {
        geometry: sizes.geometry,
        page: at.leaf(),
        at: leaf,
    };
    // Most leaves have no mapping. Where all bytes behind the head are zeros, each slot says what the first one does.
    if has_zero_slots(&bytes.bytes) {
        return slot(bytes, &want, 0);
    }
    decoded_mapping(bytes, &want, at.slot())
}

// Whether all bytes behind the head of a page are zeros.
// Long to prove: a run of bytes is tied to its slots.
fn has_zero_slots(bytes: &[u8]) -> bool
    requires { length bytes.now ≡ 4096 }
    ensures { IsTrue result ↔ (drop 36 bytes.now ≡ replicate 4060 0) }
{
    all_zeros(&bytes[HEAD..])
}

// What a slot of a page says, all of which is decoded.
// Not inlined, so that a leaf without mappings needs no room for 812 of them.
#[inline(never)]
fn decoded_mapping(bytes: &Block, want: &PageHead, slot: u16) -> Result<Mapping, PageFault>
    requires geometry { IsGeometry want.now.geometry }
    requires slot { slot < PAGE_SLOTS }
    ensures ok { IfOk result (λ mapping.
        (mappings : List Mapped) × IsPage want.now bytes.now mappings
        × (mapping ≡ slice_index_or mappings slot Unmapped)) }
    ensures fault { IfErr result (λ fault. IsPageFault want.now bytes.now fault) }
{
    let mut mappings = Mappings::new();
    decode_mappings(bytes, want, &mut mappings)?;
    Ok(mappings.get(slot))
}

// The leaf of an address, at this block.
fn load_leaf<D: Disk>(
    sizes: &Sizes,
    zone: &mut DeviceZone,
    vio: BoxedVio,
    leaf: Pbn,
    disk: &mut D,
    posts: &mut Posts,
)
    requires phase { vio.phase ≡ phase.LoadLeaf }
    requires leaf { vio.leaf ≡ Some leaf }
    requires inside { rules.IsInside sizes.now leaf }
    requires ready { IsReady zone.old }
    requires may { MayServe sizes.now zone.old (D.seen disk.old) posts.old }
    ensures stays { Stays (D.seen disk.old) (D.seen disk.new) }
    ensures serves { (made : Trace) × DeviceServes sizes.now zone.old vio zone.new made posts.new
        × HasCalled D.trust (D.seen disk.old) (D.seen disk.new) made }
{
    let home = vio.get().home;
    let at = vio.get().at;
    let mut bytes = Block::zero();
    let Ok(()) = read_block(disk, leaf, &mut bytes) else {
        let failed = vio.end(Phase::Abort, Answer::ReadFault);
        posts.first(home, Item::Request(failed));
        return;
    };
    zone.calls += 1;
    match mapping_in(sizes, at, leaf, &bytes) {
        Ok(mapping) => posts.first(home, Item::Request(vio.has_leaf(mapping))),
        Err(fault) => {
            let damage = Damage::Page { at: leaf, fault };
            let harmed = vio.end(Phase::Abort, Answer::Damaged);
            posts.first(home, Item::Request(harmed));
            harm(sizes, zone, damage, posts);
        }
    }
}

/// The leaf of the address of a request, which says what that is mapped to.
pub(crate) fn serve_load_leaf<D: Disk>(
    sizes: &Sizes,
    zone: &mut DeviceZone,
    vio: BoxedVio,
    disk: &mut D,
    posts: &mut Posts,
)
    requires phase { vio.phase ≡ phase.LoadLeaf }
    requires can { CanServe sizes.now zone.old vio phase.LoadLeaf }
    requires ready { IsReady zone.old }
    requires may { MayServe sizes.now zone.old (D.seen disk.old) posts.old }
    ensures stays { Stays (D.seen disk.old) (D.seen disk.new) }
    ensures serves { (made : Trace) × DeviceServes sizes.now zone.old vio zone.new made posts.new
        × HasCalled D.trust (D.seen disk.old) (D.seen disk.new) made }
{
    let Some(leaf) = vio.get().leaf else {
        unreachable!();
    };
    load_leaf(sizes, zone, vio, leaf, disk, posts);
}
