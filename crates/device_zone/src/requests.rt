ghost use Rattle.std.specs.Prelude.{◌≡◌, ◌<◌, [], ◌∷◌, true, false, OnOk, OnErr};
ghost use Rattle.blk_base.specs.declared.place.Mapping.TheVariants.{At};
ghost use Rattle.disk_model.specs.declared.call.Call.TheVariants as call;
ghost use Rattle.disk_model.specs.Seen.{Stays};
ghost use Rattle.core_model.specs.DeviceRules as rules;
ghost use Rattle.core_model.specs.DeviceRules.{DeviceServes, IsReady};
ghost use Rattle.core_model.specs.declared.zones.SuperblockStage.TheVariants.{Durable};
ghost use Rattle.core_model.specs.Trace.{Calls, Trace};
ghost use Rattle.data_vio.specs.declared.items.Phase.TheVariants as phase;
ghost use Rattle.step_parts.specs.DeviceLog.{HasCalled};
ghost use Rattle.device_zone.specs.DeviceCalls.{HasFailed};
ghost use Rattle.device_zone.specs.Served.{CanServe, MayServe};

use crate::device_calls::{flush, read_block, write_block};
use crate::leaves::serve_load_leaf;
use crate::stop_notices::halt;
use crate::superblock::{announce, waits};
use blk_base::{Answer, Block, Mapping, PageId, Pbn, ZoneId};
use core_model::DeviceZone;
use data_vio::{BoxedVio, Item, Phase, Sizes, Vio};
use disk_model::{Disk, Failed};
use page_codec::{PageHead, encode_unmapped};
use step_parts::{Posts, counts_of};

// An empty page of the block map, at this block.
fn empty_page(sizes: &Sizes, page: PageId, at: Pbn) -> Block
    ensures { result ≡ rules.page_at sizes.now page at }
{
    let head = PageHead {
        geometry: sizes.geometry,
        page,
        at,
    };
    let mut bytes = Block::zero();
    encode_unmapped(&head, &mut bytes);
    bytes
}

// What is written for a write: its data as they stand in its box, or the page that it makes.
fn write_stored<D: Disk>(sizes: &Sizes, vio: &Vio, block: Pbn, disk: &mut D) -> Result<(), Failed>
    requires inside { block.0 < (D.seen disk.old).size }
    ensures stays { Stays (D.seen disk.old) (D.seen disk.new) }
    ensures ok { OnOk result
        (HasCalled D.trust (D.seen disk.old) (D.seen disk.new)
        (Calls (call.Write block (rules.stored sizes.now vio.now block) true) ∷ [])) }
    ensures err { OnErr result
        (HasFailed D.trust (D.seen disk.old) (D.seen disk.new)
        (call.Write block (rules.stored sizes.now vio.now block) false)) }
{
    match vio.page {
        Some(page) => write_block(disk, block, &empty_page(sizes, page, block)),
        None => write_block(disk, block, &vio.bytes),
    }
}

// The data of a write, or its page.
fn store<D: Disk>(
    sizes: &Sizes,
    zone: &mut DeviceZone,
    vio: BoxedVio,
    block: Pbn,
    disk: &mut D,
    posts: &mut Posts,
)
    requires phase { vio.phase ≡ phase.Store }
    requires block { vio.new ≡ At block }
    requires inside { rules.IsInside sizes.now block }
    requires runs { zone.old.stopped ≡ false }
    requires durable { zone.old.superblock ≡ Durable }
    requires may { MayServe sizes.now zone.old (D.seen disk.old) posts.old }
    ensures stays { Stays (D.seen disk.old) (D.seen disk.new) }
    ensures serves { (made : Trace) × DeviceServes sizes.now zone.old vio zone.new made posts.new
        × HasCalled D.trust (D.seen disk.old) (D.seen disk.new) made }
{
    let Ok(()) = write_stored(sizes, vio.get(), block, disk) else {
        let to = counts_of(sizes, vio.get());
        let failed = vio.end(Phase::AbortClaim, Answer::Stopped);
        halt(sizes, zone, to, Item::Request(failed), posts);
        return;
    };
    zone.calls += 1;
    posts.first(ZoneId::Journal, Item::Request(vio.turn(Phase::Enter)));
}

// The block of a read.
fn load<D: Disk>(
    sizes: &Sizes,
    zone: &mut DeviceZone,
    vio: BoxedVio,
    block: Pbn,
    disk: &mut D,
    posts: &mut Posts,
)
    requires phase { vio.phase ≡ phase.Load }
    requires block { vio.old ≡ At block }
    requires inside { rules.IsInside sizes.now block }
    requires ready { IsReady zone.old }
    requires may { MayServe sizes.now zone.old (D.seen disk.old) posts.old }
    ensures stays { Stays (D.seen disk.old) (D.seen disk.new) }
    ensures serves { (made : Trace) × DeviceServes sizes.now zone.old vio zone.new made posts.new
        × HasCalled D.trust (D.seen disk.old) (D.seen disk.new) made }
{
    let home = vio.get().home;
    let mut bytes = Block::zero();
    let Ok(()) = read_block(disk, block, &mut bytes) else {
        let failed = vio.end(Phase::Abort, Answer::ReadFault);
        posts.first(home, Item::Request(failed));
        return;
    };
    zone.calls += 1;
    posts.first(home, Item::Request(vio.load(bytes)));
}

// A flush request.
fn flush_for<D: Disk>(
    sizes: &Sizes,
    zone: &mut DeviceZone,
    vio: BoxedVio,
    disk: &mut D,
    posts: &mut Posts,
)
    requires phase { vio.phase ≡ phase.Flush }
    requires ready { IsReady zone.old }
    requires may { MayServe sizes.now zone.old (D.seen disk.old) posts.old }
    ensures stays { Stays (D.seen disk.old) (D.seen disk.new) }
    ensures serves { (made : Trace) × DeviceServes sizes.now zone.old vio zone.new made posts.new
        × HasCalled D.trust (D.seen disk.old) (D.seen disk.new) made }
{
    if zone.stopped {
        let unmade = vio.end(Phase::Reply, Answer::Stopped);
        posts.first(ZoneId::Desk, Item::Request(unmade));
        return;
    }
    let Ok(()) = flush(disk) else {
        let failed = vio.end(Phase::Reply, Answer::Stopped);
        halt(sizes, zone, ZoneId::Desk, Item::Request(failed), posts);
        return;
    };
    zone.calls += 1;
    posts.first(ZoneId::Desk, Item::Request(vio.mark(zone.calls)));
}

// The data of a write, which isn't written once the session is stopped.
fn serve_store<D: Disk>(
    sizes: &Sizes,
    zone: &mut DeviceZone,
    vio: BoxedVio,
    disk: &mut D,
    posts: &mut Posts,
)
    requires phase { vio.phase ≡ phase.Store }
    requires can { CanServe sizes.now zone.old vio phase.Store }
    requires ready { IsReady zone.old }
    requires may { MayServe sizes.now zone.old (D.seen disk.old) posts.old }
    ensures stays { Stays (D.seen disk.old) (D.seen disk.new) }
    ensures serves { (made : Trace) × DeviceServes sizes.now zone.old vio zone.new made posts.new
        × HasCalled D.trust (D.seen disk.old) (D.seen disk.new) made }
{
    if zone.stopped {
        let to = counts_of(sizes, vio.get());
        let unmade = vio.end(Phase::AbortClaim, Answer::Stopped);
        posts.first(to, Item::Request(unmade));
        return;
    }
    let Mapping::At(block) = vio.get().new else {
        unreachable!();
    };
    store(sizes, zone, vio, block, disk, posts);
}

// The block of a read.
fn serve_load<D: Disk>(
    sizes: &Sizes,
    zone: &mut DeviceZone,
    vio: BoxedVio,
    disk: &mut D,
    posts: &mut Posts,
)
    requires phase { vio.phase ≡ phase.Load }
    requires can { CanServe sizes.now zone.old vio phase.Load }
    requires ready { IsReady zone.old }
    requires may { MayServe sizes.now zone.old (D.seen disk.old) posts.old }
    ensures stays { Stays (D.seen disk.old) (D.seen disk.new) }
    ensures serves { (made : Trace) × DeviceServes sizes.now zone.old vio zone.new made posts.new
        × HasCalled D.trust (D.seen disk.old) (D.seen disk.new) made }
{
    let Mapping::At(block) = vio.get().old else {
        unreachable!();
    };
    load(sizes, zone, vio, block, disk, posts);
}

/// What the device's zone does with a request in front of its inbox. It makes one call of the device, or none.
pub(crate) fn call_device<D: Disk>(
    sizes: &Sizes,
    zone: &mut DeviceZone,
    vio: BoxedVio,
    disk: &mut D,
    posts: &mut Posts,
)
    requires can { CanServe sizes.now zone.old vio vio.phase }
    requires may { MayServe sizes.now zone.old (D.seen disk.old) posts.old }
    ensures stays { Stays (D.seen disk.old) (D.seen disk.new) }
    ensures serves { (made : Trace) × DeviceServes sizes.now zone.old vio zone.new made posts.new
        × HasCalled D.trust (D.seen disk.old) (D.seen disk.new) made }
{
    if waits(zone) {
        announce(sizes, zone, Item::Request(vio), disk, posts);
        return;
    }
    let phase = vio.get().phase;
    match phase {
        Phase::Store => serve_store(sizes, zone, vio, disk, posts),
        Phase::Load => serve_load(sizes, zone, vio, disk, posts),
        Phase::LoadLeaf => serve_load_leaf(sizes, zone, vio, disk, posts),
        Phase::Flush => flush_for(sizes, zone, vio, disk, posts),
        _ => unreachable!(),
    }
}
