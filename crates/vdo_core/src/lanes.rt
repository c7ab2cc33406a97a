ghost use Rattle.std.specs.Prelude.{◌≡◌};
ghost use Rattle.std.specs.List.{AllByRecursion};
ghost use Rattle.core_model.specs.Steps.{sent, delivered};
ghost use Rattle.vdo_core.specs.Conditions.{HasLane};
ghost use Rattle.vdo_core.specs.Lanes.{HasRoomFor, most_posts};

use crate::numbers::zone_number;
use blk_base::ZoneId;
use core_model::Zone;
use data_vio::{Item, Sizes};
use step_parts::Posts;

// What a zone posts to itself goes to its own inbox, and else behind the items of an outbox.
fn send(sizes: &Sizes, zone: &mut Zone, to: ZoneId, item: Item)
    requires room { HasRoomFor 1 zone.old }
    requires lane { HasLane sizes.now zone.old (to, item) }
    ensures { zone.new ≡ sent sizes.now (to, item) zone.old }
{
    let number = zone_number(sizes, to);
    // Asked for the proof alone: a zone has no more outboxes than a u32 counts.
    let _count = zone.ports.count();
    if number == u64::from(zone.number) {
        zone.ports.keep(item);
    } else {
        zone.ports.post(number as u32, item);
    }
}

/// The posts go to their lanes, in their order.
pub(crate) fn deliver(sizes: &Sizes, zone: &mut Zone, posts: &mut Posts)
    requires room { HasRoomFor most_posts zone.old }
    requires lanes { AllByRecursion (HasLane sizes.now zone.old) posts.old }
    ensures { zone.new ≡ delivered sizes.now posts.old zone.old }
{
    // Asked for the proof alone: a step posts no more than there is room for.
    let _count = posts.len();
    while let Some((to, item)) = posts.pop() {
        send(sizes, zone, to, item);
    }
}
