ghost use Rattle.std.specs.Prelude.{◌≡◌, ◌-◌, ◌≤◌, ◌^◌, [], length};
ghost use Rattle.data_vio.specs.declared.items.Phase.TheVariants as phase;
ghost use Rattle.core_model.specs.LogicalLimits.{IsLogicalWithin};
ghost use Rattle.core_model.specs.SessionLimits.{most_requests};
ghost use Rattle.core_model.specs.LogicalRules as rules;
ghost use Rattle.core_model.specs.Trace.{Trace};
ghost use Rattle.logical_zone.specs.Served.{CanServe};

use crate::pages::link;
use crate::requests::release;
use blk_base::{Answer, Mapping, ZoneId};
use core_model::LogicalZone;
use data_vio::{BoxedVio, Item, Phase, Sizes};
use step_parts::Posts;

// Whether a request waits for the report of its decrement. One that came before its request is kept no longer.
fn awaits_report(zone: &mut LogicalZone, vio: &BoxedVio) -> bool
    ensures waits { result ≡ rules.awaits_report zone.old vio.now }
    ensures zone { zone.new
        ≡ record zone.old { reported = rules.reports_left vio.now zone.old.reported } }
{
    match vio.get().old {
        Mapping::At(_) => !zone.take_report(vio.get().request),
        Mapping::Unmapped | Mapping::Zero => false,
    }
}

/// The slot of a request is set: it is done, and the lock of its address is passed on.
pub(crate) fn set_slot(zone: &mut LogicalZone, vio: BoxedVio, posts: &mut Posts)
    requires room { length zone.old.slots ≤ most_requests }
    requires none { posts.old ≡ [] }
    ensures zone { zone.new ≡ rules.settled zone.old vio }
    ensures posts { posts.new ≡ rules.settled_posts zone.old vio }
{
    let at = vio.get().at;
    zone.set(vio.remapping());
    posts.first(
        ZoneId::Desk,
        Item::Request(vio.end(Phase::Reply, Answer::Ok)),
    );
    release(zone, at, posts);
}

/// The entry of a request is committed: its page is linked, or its slot is set, or it waits for the report of its decrement.
pub(crate) fn settle(sizes: &Sizes, zone: &mut LogicalZone, vio: BoxedVio, posts: &mut Posts)
    requires phase { vio.phase ≡ phase.Settle }
    requires can { CanServe sizes.now zone.old vio phase.Settle }
    requires within { IsLogicalWithin (2 ^ 64 - 2) zone.old }
    requires none { posts.old ≡ [] }
    ensures { (made : Trace) × rules.LogicalServes sizes.now zone.old vio zone.new made posts.new }
{
    if let Some(page) = vio.get().page {
        link(sizes, zone, vio, page, posts);
    } else if awaits_report(zone, &vio) {
        zone.await_report(vio);
    } else {
        set_slot(zone, vio, posts);
    }
}
