ghost use Rattle.std.specs.Prelude.{◌≡◌, ◌+◌, ◌-◌, ◌≤◌, ◌^◌, List, [], ◌∷◌, ◌++◌, Some, length};
ghost use Rattle.blk_base.specs.declared.place.Mapping.TheVariants.{At};
ghost use Rattle.data_vio.specs.declared.items.Phase.TheVariants as phase;
ghost use Rattle.core_model.specs.LogicalLimits.{IsLogicalWithin};
ghost use Rattle.core_model.specs.LogicalRules as rules;
ghost use Rattle.core_model.specs.PageTrees.{HasPath};
ghost use Rattle.core_model.specs.Trace.{Aborts, Sets};
ghost use Rattle.data_vio.specs.Vios as vios;
ghost use Rattle.step_parts.specs.ZoneSizes.{HasPhysical};
ghost use Rattle.logical_zone.specs.Served.{CanSettle, IsToBlock};

use crate::requests::release;
use blk_base::{Answer, Mapping, PageId, Pbn, ZoneId};
use core_model::LogicalZone;
use data_vio::{Asks, BoxedVio, Item, POST_ROOM, Phase, Sizes};
use step_parts::{Posts, counts_of};

/// The highest page that a write lacks; nothing else needs its leaf.
pub(crate) fn lacks(zone: &LogicalZone, vio: &BoxedVio) -> Option<PageId>
    requires { HasPath zone.now.tree vio.now.at.0 }
    ensures { result ≡ rules.lacks zone.now vio.now }
{
    match vio.get().asks {
        Asks::Write => zone.missing(vio.get().at),
        Asks::Read | Asks::Discard | Asks::Flush => None,
    }
}

/// A write lacks a page: it makes it, or waits where that is being made, or is stopped where it is never linked.
pub(crate) fn make(
    sizes: &Sizes,
    zone: &mut LogicalZone,
    vio: BoxedVio,
    page: PageId,
    posts: &mut Posts,
)
    requires phase { vio.phase ≡ phase.Look }
    requires path { HasPath zone.old.tree vio.at.0 }
    requires lacks { rules.lacks zone.old vio ≡ Some page }
    requires physical { HasPhysical sizes.now }
    requires within { IsLogicalWithin (2 ^ 64 - 2) zone.old }
    requires none { posts.old ≡ [] }
    ensures { rules.LogicalServes sizes.now zone.old vio zone.new [] posts.new }
{
    if zone.is_unlinkable(page) {
        let at = vio.get().at;
        let stopped = vio.end(Phase::Reply, Answer::Stopped);
        posts.first(ZoneId::Desk, Item::Request(stopped));
        release(zone, at, posts);
    } else if zone.is_being_made(page) {
        zone.lack(vio);
    } else {
        zone.make(page);
        let to = counts_of(sizes, vio.get());
        posts.first(to, Item::Request(vio.make(page)));
    }
}

// Those that wait for a page look again.
fn wake(zone: &mut LogicalZone, posts: &mut Posts)
    requires { length posts.old + length zone.old.lacking ≤ POST_ROOM }
    ensures zone { zone.new ≡ record zone.old { lacking = [] } }
    ensures posts { posts.new ≡ posts.old ++ rules.all_again zone.old.lacking }
{
    while let Some(vio) = zone.next_lacking() {
        let home = vio.get().home;
        posts.push(home, Item::Request(vio));
    }
}

// The block of a page that was stored.
fn new_block(new: Mapping) -> Pbn
    requires { IsToBlock new }
    ensures { new ≡ At result }
{
    match new {
        Mapping::At(at) => at,
        Mapping::Unmapped => unreachable!(),
        Mapping::Zero => unreachable!(),
    }
}

/// The entry of a page is committed: it is linked, and its maker and those that wait look again.
pub(crate) fn link(
    sizes: &Sizes,
    zone: &mut LogicalZone,
    vio: BoxedVio,
    page: PageId,
    posts: &mut Posts,
)
    requires phase { vio.phase ≡ phase.Settle }
    requires page { vio.page ≡ Some page }
    requires can { CanSettle zone.old (Some page) vio.new }
    requires within { IsLogicalWithin (2 ^ 64 - 2) zone.old }
    requires none { posts.old ≡ [] }
    ensures { rules.LogicalServes sizes.now zone.old vio zone.new
        (Sets (vios.logged vio) ∷ []) posts.new }
{
    let at = new_block(vio.get().new);
    zone.link(page, at);
    let home = vio.get().home;
    posts.first(home, Item::Request(vio.made()));
    wake(zone, posts);
}

/// A request that made a page doesn't any more, and its lock is released: the next one that lacks the page makes it.
pub(crate) fn unmake(
    sizes: &Sizes,
    zone: &mut LogicalZone,
    vio: BoxedVio,
    page: PageId,
    posts: &mut Posts,
)
    requires phase { vio.phase ≡ phase.Abort }
    requires page { vio.page ≡ Some page }
    requires within { IsLogicalWithin (2 ^ 64 - 2) zone.old }
    requires none { posts.old ≡ [] }
    ensures { rules.LogicalServes sizes.now zone.old vio zone.new [] posts.new }
{
    let at = vio.get().at;
    posts.first(ZoneId::Desk, Item::Request(vio.give_up()));
    release(zone, at, posts);
    zone.give_up(page);
    wake(zone, posts);
}

/// The entry of a page is dropped: the page is never linked, and those that lack it are stopped. The address of its maker is
/// as it was.
pub(crate) fn drop_page(
    sizes: &Sizes,
    zone: &mut LogicalZone,
    vio: BoxedVio,
    page: PageId,
    posts: &mut Posts,
)
    requires phase { vio.phase ≡ phase.AbortEntered }
    requires page { vio.page ≡ Some page }
    requires within { IsLogicalWithin (2 ^ 64 - 2) zone.old }
    requires none { posts.old ≡ [] }
    ensures { rules.LogicalServes sizes.now zone.old vio zone.new
        (Aborts (vios.logged vio) ∷ []) posts.new }
{
    let at = vio.get().at;
    posts.first(ZoneId::Desk, Item::Request(vio.give_up()));
    release(zone, at, posts);
    zone.drop_page(page);
    wake(zone, posts);
}
