ghost use Rattle.std.specs.Prelude.{◌≡◌, ◌<◌, [], ◌∷◌, true, false, Some, length, map, OnOk, OnErr};
ghost use Rattle.disk_model.specs.declared.call.Call.{Call};
ghost use Rattle.disk_model.specs.Seen.{Stays};
ghost use Rattle.core_model.specs.DeviceRules as rules;
ghost use Rattle.core_model.specs.DeviceRules.{DeviceWorks, call_of, journal_bytes};
ghost use Rattle.core_model.specs.Trace.{Trace, Calls, entry_of};
ghost use Rattle.data_vio.specs.Vios as vios;
ghost use Rattle.step_parts.specs.DeviceLog.{HasCalled};
ghost use Rattle.device_zone.specs.DeviceCalls as log;
ghost use Rattle.device_zone.specs.DeviceCalls.{HasFailed};
ghost use Rattle.device_zone.specs.Served.{MayServe};

use crate::device_calls::{flush, write_block};
use crate::stop_notices::halt;
use crate::superblock::{announce, waits};
use blk_base::{Block, JOURNAL_ENTRIES, Layout, Pbn, ZoneId};
use core_model::DeviceZone;
use data_vio::{Item, SealedBlock, Sizes, Stage};
use disk_model::{Disk, Failed};
use journal_codec::{Entries, JournalBlock, encode};
use step_parts::Posts;

// The entries of a sealed block, the oldest first.
fn sealed_entries(block: &SealedBlock) -> Entries<JOURNAL_ENTRIES>
    ensures { result ≡ map (λ v. entry_of (vios.logged v)) block.now.vios }
{
    let mut entries = Entries::new();
    for index in 0..block.vios.len() {
        let Some(vio) = block.vios.get(index) else {
            unreachable!();
        };
        entries.push(vio.entry());
    }
    entries
}

// The bytes of a sealed block.
fn sealed_bytes(sizes: &Sizes, block: &SealedBlock) -> Block
    ensures { result ≡ journal_bytes sizes.now block.now }
{
    let entries = sealed_entries(block);
    let mut bytes = Block::zero();
    encode(
        &JournalBlock {
            nonce: sizes.geometry.nonce,
            sequence: block.sequence,
            head: block.head,
            entries,
        },
        &mut bytes,
    );
    bytes
}

// The stage behind this one.
fn next_stage(stage: Stage) -> Stage
    ensures { result ≡ rules.next_stage stage }
{
    match stage {
        Stage::Cover => Stage::Write,
        Stage::Write => Stage::Harden,
        Stage::Harden | Stage::Commit => Stage::Commit,
        Stage::Fail => Stage::Fail,
    }
}

// The zone that a sealed block goes to when it leaves this stage.
fn next_zone(stage: Stage) -> ZoneId
    ensures { result ≡ rules.next_zone stage }
{
    match stage {
        Stage::Cover | Stage::Write => ZoneId::Device,
        Stage::Harden | Stage::Commit | Stage::Fail => ZoneId::Journal,
    }
}

// The call that a sealed block needs.
fn make_call<D: Disk>(
    sizes: &Sizes,
    block: &SealedBlock,
    slot: Pbn,
    disk: &mut D,
) -> Result<(), Failed>
    requires needed { log.needs_call block.now.stage ≡ true }
    requires inside { slot.0 < (D.seen disk.old).size }
    ensures stays { Stays (D.seen disk.old) (D.seen disk.new) }
    ensures ok { OnOk result
        ((made : Call) × (call_of sizes.now block.now slot true block.now.stage ≡ Some made)
        × HasCalled D.trust (D.seen disk.old) (D.seen disk.new) (Calls made ∷ [])) }
    ensures err { OnErr result
        ((failed : Call) × (call_of sizes.now block.now slot false block.now.stage ≡ Some failed)
        × HasFailed D.trust (D.seen disk.old) (D.seen disk.new) failed) }
{
    match block.stage {
        Stage::Write => {
            let bytes = sealed_bytes(sizes, block);
            write_block(disk, slot, &bytes)
        }
        _ => flush(disk),
    }
}

// It has come to another stage.
fn staged(mut block: SealedBlock, stage: Stage) -> SealedBlock
    ensures { result ≡ vios.staged stage block }
{
    block.stage = stage;
    block
}

/// What the device's zone does with a sealed block in front of its inbox, which has entries. It makes one call of the
/// device, or none.
pub(crate) fn work_block<D: Disk>(
    sizes: &Sizes,
    zone: &mut DeviceZone,
    block: SealedBlock,
    disk: &mut D,
    posts: &mut Posts,
)
    requires some { 0 < length block.vios }
    requires needed { log.needs_call block.stage ≡ true }
    requires may { MayServe sizes.now zone.old (D.seen disk.old) posts.old }
    ensures stays { Stays (D.seen disk.old) (D.seen disk.new) }
    ensures works { (made : Trace) × DeviceWorks sizes.now zone.old block zone.new made posts.new
        × HasCalled D.trust (D.seen disk.old) (D.seen disk.new) made }
{
    if waits(zone) {
        announce(sizes, zone, Item::Block(block), disk, posts);
        return;
    }
    let slot = Layout::of(&sizes.geometry).journal_slot(block.sequence);
    if zone.stopped {
        let unmade = staged(block, Stage::Fail);
        posts.first(ZoneId::Journal, Item::Block(unmade));
        return;
    }
    let stage = next_stage(block.stage);
    let to = next_zone(block.stage);
    let Ok(()) = make_call(sizes, &block, slot, disk) else {
        let failed = staged(block, Stage::Fail);
        halt(sizes, zone, ZoneId::Journal, Item::Block(failed), posts);
        return;
    };
    zone.calls += 1;
    posts.first(to, Item::Block(staged(block, stage)));
}
