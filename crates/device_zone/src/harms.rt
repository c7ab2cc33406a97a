ghost use Rattle.std.specs.Prelude.{◌≡◌, ◌≤◌, ◌++◌, length};
ghost use Rattle.core_model.specs.DeviceRules as rules;
ghost use Rattle.step_parts.specs.ZoneSizes.{AreFew};

use crate::stop_notices::notify;
use core_model::DeviceZone;
use data_vio::Sizes;
use step_parts::Posts;
use vdo_model::Damage;

/// Something is damaged: the session is stopped, where it isn't yet. The damage is kept that was found first.
pub(crate) fn harm(sizes: &Sizes, zone: &mut DeviceZone, damage: Damage, posts: &mut Posts)
    requires few { AreFew sizes.now }
    requires room { length posts.old ≤ 1 }
    ensures zone { zone.new ≡ rules.harmed damage zone.old }
    ensures posts { posts.new ≡ posts.old ++ rules.notices_after zone.old.stopped sizes.now }
{
    if zone.damage.is_none() {
        zone.damage = Some(damage);
    }
    if !zone.stopped {
        zone.stopped = true;
        notify(sizes, posts);
    }
}
