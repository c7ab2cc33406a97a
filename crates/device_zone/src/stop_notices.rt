ghost use Rattle.std.specs.Prelude.{◌≡◌, ◌+◌, ◌≤◌, [], ◌∷◌, ◌++◌, length};
ghost use Rattle.core_model.specs.DeviceRules as rules;
ghost use Rattle.data_vio.specs.Zones.{logical_zones, notified, physical_zones};
ghost use Rattle.step_parts.specs.ZoneSizes.{AreFew};

use blk_base::ZoneId;
use core_model::DeviceZone;
use data_vio::{Item, POST_ROOM, Sizes};
use step_parts::Posts;

// The stop notice, to the physical zones, the last of them first.
fn notify_physical(sizes: &Sizes, posts: &mut Posts)
    requires { length posts.old + sizes.now.physical ≤ POST_ROOM }
    ensures posts { posts.new
        ≡ posts.old ++ rules.stop_notices (physical_zones sizes.now.physical) }
    ensures count { length posts.new ≡ length posts.old + sizes.now.physical }
{
    let mut left = sizes.physical;
    while left > 0 {
        left -= 1;
        posts.push(ZoneId::Physical(u32::from(left)), Item::StopNotice);
    }
}

// The stop notice, to the logical zones, the last of them first.
fn notify_logical(sizes: &Sizes, posts: &mut Posts)
    requires { length posts.old + sizes.now.zones ≤ POST_ROOM }
    ensures { posts.new ≡ posts.old ++ rules.stop_notices (logical_zones sizes.now.zones) }
{
    let mut left = sizes.zones;
    while left > 0 {
        left -= 1;
        posts.push(ZoneId::Logical(u32::from(left)), Item::StopNotice);
    }
}

/// The stop notice, to every zone that passes it on.
pub(crate) fn notify(sizes: &Sizes, posts: &mut Posts)
    requires few { AreFew sizes.now }
    requires room { length posts.old ≤ 1 }
    ensures { posts.new ≡ posts.old ++ rules.stop_notices (notified sizes.now) }
{
    posts.push(ZoneId::Journal, Item::StopNotice);
    notify_physical(sizes, posts);
    notify_logical(sizes, posts);
}

/// A call failed: the session is stopped. This item goes on, and the stop notice behind it.
pub(crate) fn halt(sizes: &Sizes, zone: &mut DeviceZone, to: ZoneId, item: Item, posts: &mut Posts)
    requires few { AreFew sizes.now }
    requires none { posts.old ≡ [] }
    ensures zone { zone.new ≡ rules.halted zone.old }
    ensures posts { posts.new ≡ (to, item) ∷ rules.stop_notices (notified sizes.now) }
{
    zone.stopped = true;
    posts.first(to, item);
    notify(sizes, posts);
}
