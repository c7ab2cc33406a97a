ghost use Rattle.std.specs.Prelude.{◌≡◌, ◌<◌, [], ◌∷◌, true, false, IsTrue, Some, OnOk, OnErr};
ghost use Rattle.blk_base.specs.declared.request.Writer.{Writer};
ghost use Rattle.disk_model.specs.declared.call.Call.{Call};
ghost use Rattle.disk_model.specs.Seen.{Stays};
ghost use Rattle.core_model.specs.DeviceRules as rules;
ghost use Rattle.core_model.specs.DeviceRules.{Announces, IsReady, superblock_call};
ghost use Rattle.core_model.specs.Superblocks.{superblock_bytes};
ghost use Rattle.core_model.specs.Trace.{Trace, Calls};
ghost use Rattle.data_vio.specs.declared.items.Item.{Item as Front};
ghost use Rattle.step_parts.specs.DeviceLog.{HasCalled};
ghost use Rattle.device_zone.specs.DeviceCalls.{HasFailed, is_awaited};
ghost use Rattle.device_zone.specs.Served.{MayServe};

use crate::device_calls::{flush, write_block};
use crate::stop_notices::halt;
use blk_base::{Block, Pbn, Super, ZoneId};
use core_model::{DeviceZone, SuperblockStage};
use data_vio::{Item, Sizes};
use disk_model::{Disk, Failed};
use image_layout::write_super;
use step_parts::Posts;

/// Whether an item in front waits until the superblock is durable.
pub(crate) fn waits(zone: &DeviceZone) -> bool
    ensures yes { IsTrue result → (zone.now.stopped ≡ false)
        × (is_awaited zone.now.superblock ≡ true) }
    ensures no { (result ≡ false) → IsReady zone.now }
{
    !zone.stopped && zone.superblock != SuperblockStage::Durable
}

// The superblock while the session goes on.
fn superblock(sizes: &Sizes) -> Block
    ensures { result ≡ superblock_bytes sizes.now }
{
    let mut bytes = Block::zero();
    write_super(
        &Super {
            geometry: sizes.geometry,
            clean: false,
            start: sizes.start,
        },
        &mut bytes,
    );
    bytes
}

// The stage behind this one.
fn next_stage(stage: SuperblockStage) -> SuperblockStage
    ensures { result ≡ rules.next_superblock stage }
{
    match stage {
        SuperblockStage::AsOpened => SuperblockStage::Written,
        SuperblockStage::Written | SuperblockStage::Durable => SuperblockStage::Durable,
    }
}

// The call that the superblock needs.
fn make_call<D: Disk>(sizes: &Sizes, stage: SuperblockStage, disk: &mut D) -> Result<(), Failed>
    requires awaited { is_awaited stage ≡ true }
    requires some { 0 < (D.seen disk.old).size }
    ensures stays { Stays (D.seen disk.old) (D.seen disk.new) }
    ensures ok { OnOk result
        ((made : Call) × (superblock_call sizes.now true stage ≡ Some made)
        × HasCalled D.trust (D.seen disk.old) (D.seen disk.new) (Calls made ∷ [])) }
    ensures err { OnErr result
        ((failed : Call) × (superblock_call sizes.now false stage ≡ Some failed)
        × HasFailed D.trust (D.seen disk.old) (D.seen disk.new) failed) }
{
    match stage {
        SuperblockStage::AsOpened => write_block(disk, Pbn(0), &superblock(sizes)),
        SuperblockStage::Written | SuperblockStage::Durable => flush(disk),
    }
}

/// The next call for the superblock, for which the item in front waits. It goes to the end of the inbox.
pub(crate) fn announce<D: Disk>(
    sizes: &Sizes,
    zone: &mut DeviceZone,
    front: Item,
    disk: &mut D,
    posts: &mut Posts,
)
    requires runs { zone.old.stopped ≡ false }
    requires awaited { is_awaited zone.old.superblock ≡ true }
    requires may { MayServe sizes.now zone.old (D.seen disk.old) posts.old }
    ensures stays { Stays (D.seen disk.old) (D.seen disk.new) }
    ensures announces { (w : Writer) → (made : Trace)
        × Announces sizes.now zone.old front w zone.new made posts.new
        × HasCalled D.trust (D.seen disk.old) (D.seen disk.new) made }
{
    let Ok(()) = make_call(sizes, zone.superblock, disk) else {
        halt(sizes, zone, ZoneId::Device, front, posts);
        return;
    };
    zone.calls += 1;
    zone.superblock = next_stage(zone.superblock);
    posts.first(ZoneId::Device, front);
}
