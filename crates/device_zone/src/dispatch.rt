ghost use Rattle.std.specs.Prelude.{[], ◌∷◌};
ghost use Rattle.disk_model.specs.Seen.{Stays};
ghost use Rattle.core_model.specs.declared.zones.ZoneData.TheVariants as at;
ghost use Rattle.core_model.specs.Steps.{HasAct};
ghost use Rattle.step_parts.specs.Acts.{Acts};
ghost use Rattle.device_zone.specs.Served.{MayServe};

use crate::block_work::work_block;
use crate::harms::harm;
use crate::requests::call_device;
use core_model::DeviceZone;
use data_vio::{Item, Sizes};
use disk_model::Disk;
use step_parts::Posts;

/// What the device's zone does with the item in front of its inbox, to which a rule applies: it makes one call of the
/// device, or none, and posts this. Where the device tells, the call stands in its log; and where it failed, the device's
/// count of faults rose.
pub fn act<D: Disk>(
    sizes: &Sizes,
    zone: &mut DeviceZone,
    item: Item,
    disk: &mut D,
    posts: &mut Posts,
)
    requires may { MayServe sizes.now zone.old (D.seen disk.old) posts.old }
    requires rule { HasAct sizes.now (at.Device zone.old) (item ∷ []) }
    ensures stays { Stays (D.seen disk.old) (D.seen disk.new) }
    ensures acts { Acts D.trust sizes.now (at.Device zone.old) (item ∷ [])
        (at.Device zone.new) posts.new (D.seen disk.old) (D.seen disk.new) }
{
    match item {
        Item::Request(vio) => call_device(sizes, zone, vio, disk, posts),
        Item::Block(block) => work_block(sizes, zone, block, disk, posts),
        Item::Damage(damage) => harm(sizes, zone, damage, posts),
        Item::Decrement(_) | Item::Report(_) | Item::StopNotice => unreachable!(),
    }
}
