ghost use Rattle.std.specs.Prelude.{◌≡◌, ◌+◌, ◌≤◌, ◌++◌, length};
ghost use Rattle.core_model.specs.LogicalRules as rules;

use blk_base::{Answer, Lba, ZoneId};
use core_model::LogicalZone;
use data_vio::{Item, POST_ROOM, Phase};
use step_parts::Posts;

/// All that wait for an address are answered as stopped: posts behind those that are there. Nobody holds its lock then.
pub(crate) fn stop_all(zone: &mut LogicalZone, at: Lba, posts: &mut Posts)
    requires { length posts.old + length zone.old.waiting ≤ POST_ROOM }
    ensures zone { zone.new
        ≡ record zone.old {
          held = rules.without at.0 zone.old.held;
          waiting = rules.none_for at.0 zone.old.waiting;
        } }
    ensures posts { posts.new
        ≡ posts.old ++ rules.all_stopped (rules.all_for at.0 zone.old.waiting) }
{
    while let Some(vio) = zone.release(at) {
        let stopped = vio.end(Phase::Reply, Answer::Stopped);
        posts.push(ZoneId::Desk, Item::Request(stopped));
    }
}
