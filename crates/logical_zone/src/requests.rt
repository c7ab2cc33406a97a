ghost use Rattle.std.specs.Prelude.{◌≡◌, ◌-◌, ◌<◌, ◌≤◌, ◌^◌, List, [], ◌∷◌, ◌++◌, None, Some, true, false, length};
ghost use Rattle.blk_base.specs.declared.place.ZoneId.TheVariants as id;
ghost use Rattle.data_vio.specs.declared.items.Item.TheVariants as item;
ghost use Rattle.data_vio.specs.declared.items.Phase.TheVariants as phase;
ghost use Rattle.core_model.specs.LogicalLimits.{IsLogicalWithin};
ghost use Rattle.core_model.specs.LogicalRules as rules;
ghost use Rattle.core_model.specs.PageTrees.{HasPath};
ghost use Rattle.core_model.specs.Trace.{Trace, Aborts, Draws, Gives, Passes};
ghost use Rattle.data_vio.specs.Vios as vios;
ghost use Rattle.step_parts.specs.ZoneSizes.{HasPhysical};
ghost use Rattle.logical_zone.specs.Served.{CanServe, GoesOn, GoesWithAll};

use crate::pages::{drop_page, lacks, make, unmake};
use crate::slot_changes::settle;
use crate::waiters::stop_all;
use blk_base::{Answer, Block, Lba, Mapping, ZoneId};
use core_model::LogicalZone;
use data_vio::{Asks, BoxedVio, Item, Phase, Sizes};
use lane_kernels::is_zero;
use step_parts::{Posts, counts_of};

// Where a read goes that knows what is mapped at its address: it reads the mapped block, or is given zeros.
fn read_next(vio: BoxedVio, mapping: Mapping) -> (ZoneId, Item)
    ensures { result ≡ rules.read_next vio mapping }
{
    match mapping {
        Mapping::At(_) => {
            let loads = vio.turn(Phase::Load);
            (ZoneId::Device, Item::Request(loads))
        }
        Mapping::Unmapped | Mapping::Zero => {
            let home = vio.get().home;
            let loaded = vio.load_zeros();
            (home, Item::Request(loaded))
        }
    }
}

// One that needs no block hands in its entry.
fn enter_with(vio: BoxedVio, new: Mapping) -> (ZoneId, Item)
    ensures { result ≡ rules.enters_with new vio }
{
    let enters = vio.map_to(Phase::Enter, new);
    (ZoneId::Journal, Item::Request(enters))
}

// Whether a block has zeros alone.
fn are_zeros(bytes: &Block) -> bool
    ensures { result ≡ rules.are_zeros bytes.now }
{
    is_zero(bytes)
}

// Where a write goes that knows it: it takes a block, but for one of zeros.
fn write_next(sizes: &Sizes, vio: BoxedVio) -> (ZoneId, Item)
    requires { HasPhysical sizes.now }
    ensures { result ≡ rules.write_next sizes.now vio }
{
    if are_zeros(&vio.get().bytes) {
        enter_with(vio, Mapping::Zero)
    } else {
        let to = counts_of(sizes, vio.get());
        let claims = vio.turn(Phase::Claim);
        (to, Item::Request(claims))
    }
}

// Where a request goes that knows what is mapped at its address; a flush takes no lock.
fn goes_on(sizes: &Sizes, vio: BoxedVio) -> Option<(ZoneId, Item)>
    requires { HasPhysical sizes.now }
    ensures { result ≡ rules.goes_on sizes.now vio }
{
    let asks = vio.get().asks;
    let mapping = vio.get().old;
    match asks {
        Asks::Read => Some(read_next(vio, mapping)),
        Asks::Write => Some(write_next(sizes, vio)),
        Asks::Discard => Some(enter_with(vio, Mapping::Unmapped)),
        Asks::Flush => None,
    }
}

// What is known of where an address is mapped: what the last write set, or nothing there, where it has no leaf; `None` where
// its leaf has to say it.
fn known(zone: &LogicalZone, at: Lba) -> Option<Mapping>
    requires { HasPath zone.now.tree at.0 }
    ensures { result ≡ rules.known_at zone.now at.0 }
{
    match zone.latest(at) {
        Some(write) => Some(write.new),
        None => match zone.leaf(at) {
            Some(_) => None,
            None => Some(Mapping::Unmapped),
        },
    }
}

// Whether a discard passes: no slot of its address was set, and it lacks a page of its path.
fn passes(zone: &LogicalZone, vio: &BoxedVio) -> bool
    requires { HasPath zone.now.tree vio.now.at.0 }
    ensures { result ≡ rules.passes_by zone.now vio.now }
{
    let at = vio.get().at;
    is_discard(vio.get().asks) && zone.latest(at).is_none() && zone.missing(at).is_some()
}

// Whether it is a discard.
fn is_discard(asks: Asks) -> bool
    ensures { result ≡ rules.is_discard asks }
{
    matches!(asks, Asks::Discard)
}

// Whoever gets the lock of an address looks up what is mapped there.
fn look_up(vio: BoxedVio) -> (ZoneId, Item)
    ensures { result ≡ rules.looks_up vio }
{
    let home = vio.get().home;
    let looks = vio.turn(Phase::Look);
    (home, Item::Request(looks))
}

/// The lock of an address goes to the first that waits for it, or is released.
pub(crate) fn release(zone: &mut LogicalZone, at: Lba, posts: &mut Posts)
    requires { length posts.old ≤ 1 }
    ensures zone { zone.new ≡ rules.released at.0 zone.old }
    ensures posts { posts.new ≡ posts.old ++ rules.granted at.0 zone.old }
{
    if let Some(vio) = zone.release(at) {
        let (to, item) = look_up(vio);
        posts.push(to, item);
    }
}

// A request draws its place, and takes the lock of its address or waits for it.
fn arrive(sizes: &Sizes, zone: &mut LogicalZone, vio: BoxedVio, posts: &mut Posts)
    requires phase { vio.phase ≡ phase.Arrive }
    requires within { IsLogicalWithin (2 ^ 64 - 2) zone.old }
    requires none { posts.old ≡ [] }
    ensures { rules.LogicalServes sizes.now zone.old vio zone.new
        (Draws (rules.place_of_vio zone.old vio) ∷ []) posts.new }
{
    if zone.is_retired(vio.get().at) {
        let stopped = zone.draw(vio).end(Phase::Reply, Answer::Stopped);
        posts.first(ZoneId::Desk, Item::Request(stopped));
    } else if let Some(holder) = zone.ask(vio) {
        let (to, item) = look_up(holder);
        posts.first(to, item);
    }
}

// It has the lock, and knows what is mapped at its address: that says where it goes.
fn go_on(sizes: &Sizes, zone: &LogicalZone, vio: BoxedVio, mapping: Mapping, posts: &mut Posts)
    requires phase { vio.phase ≡ phase.Look }
    requires path { HasPath zone.now.tree vio.at.0 }
    requires stays { rules.passes_by zone.now vio ≡ false }
    requires leaf { rules.lacks zone.now vio ≡ None }
    requires knows { rules.known_at zone.now vio.at.0 ≡ Some mapping }
    requires goes { GoesOn sizes.now (rules.looked zone.now mapping vio) }
    requires physical { HasPhysical sizes.now }
    requires none { posts.old ≡ [] }
    ensures { rules.LogicalServes sizes.now zone.now vio zone.now [] posts.new }
{
    let latest = zone.latest(vio.get().at);
    let Some((to, item)) = goes_on(sizes, vio.look(mapping, latest)) else {
        unreachable!();
    };
    posts.first(to, item);
}

// It has the lock, and its leaf has to say what is mapped at its address: that is read first.
fn read_leaf(sizes: &Sizes, zone: &LogicalZone, vio: BoxedVio, posts: &mut Posts)
    requires phase { vio.phase ≡ phase.Look }
    requires path { HasPath zone.now.tree vio.at.0 }
    requires stays { rules.passes_by zone.now vio ≡ false }
    requires leaf { rules.lacks zone.now vio ≡ None }
    requires unknown { rules.known_at zone.now vio.at.0 ≡ None }
    requires none { posts.old ≡ [] }
    ensures { rules.LogicalServes sizes.now zone.now vio zone.now [] posts.new }
{
    let Some(leaf) = zone.leaf(vio.get().at) else {
        unreachable!();
    };
    posts.first(ZoneId::Device, Item::Request(vio.read_leaf(leaf)));
}

// It has the lock, and lacks no page: it goes on where it knows what is mapped at its address, or else its leaf is read.
fn find(sizes: &Sizes, zone: &LogicalZone, vio: BoxedVio, posts: &mut Posts)
    requires phase { vio.phase ≡ phase.Look }
    requires path { HasPath zone.now.tree vio.at.0 }
    requires stays { rules.passes_by zone.now vio ≡ false }
    requires leaf { rules.lacks zone.now vio ≡ None }
    requires goes { GoesWithAll sizes.now zone.now vio }
    requires physical { HasPhysical sizes.now }
    requires none { posts.old ≡ [] }
    ensures { rules.LogicalServes sizes.now zone.now vio zone.now [] posts.new }
{
    let at = vio.get().at;
    match known(zone, at) {
        Some(mapping) => go_on(sizes, zone, vio, mapping, posts),
        None => read_leaf(sizes, zone, vio, posts),
    }
}

// Its leaf said what is mapped at its address: that says where it goes.
fn go_on_leafed(sizes: &Sizes, zone: &LogicalZone, vio: BoxedVio, posts: &mut Posts)
    requires phase { vio.phase ≡ phase.LoadedLeaf }
    requires goes { GoesOn sizes.now vio }
    requires physical { HasPhysical sizes.now }
    requires none { posts.old ≡ [] }
    ensures { rules.LogicalServes sizes.now zone.now vio zone.now [] posts.new }
{
    let Some((to, item)) = goes_on(sizes, vio) else {
        unreachable!();
    };
    posts.first(to, item);
}

// A discard passes: it is done, and enters nothing.
fn pass(sizes: &Sizes, zone: &mut LogicalZone, vio: BoxedVio, posts: &mut Posts)
    requires phase { vio.phase ≡ phase.Look }
    requires path { HasPath zone.old.tree vio.at.0 }
    requires passes { rules.passes_by zone.old vio ≡ true }
    requires none { posts.old ≡ [] }
    ensures { rules.LogicalServes sizes.now zone.old vio zone.new
        (Passes (rules.pass_of vio) ∷ []) posts.new }
{
    let at = vio.get().at;
    posts.first(
        ZoneId::Desk,
        Item::Request(vio.end(Phase::Reply, Answer::Ok)),
    );
    release(zone, at, posts);
}

// A request that has the lock of its address goes on, or passes.
fn look_on(sizes: &Sizes, zone: &mut LogicalZone, vio: BoxedVio, posts: &mut Posts)
    requires phase { vio.phase ≡ phase.Look }
    requires can { CanServe sizes.now zone.old vio phase.Look }
    requires physical { HasPhysical sizes.now }
    requires within { IsLogicalWithin (2 ^ 64 - 2) zone.old }
    requires none { posts.old ≡ [] }
    ensures { (made : Trace) × rules.LogicalServes sizes.now zone.old vio zone.new made posts.new }
{
    if passes(zone, &vio) {
        pass(sizes, zone, vio, posts);
    } else if let Some(page) = lacks(zone, &vio) {
        make(sizes, zone, vio, page, posts);
    } else {
        find(sizes, zone, vio, posts);
    }
}

// A read is given its bytes, and the lock is released.
fn give(sizes: &Sizes, zone: &mut LogicalZone, vio: BoxedVio, posts: &mut Posts)
    requires phase { vio.phase ≡ phase.Loaded }
    requires within { IsLogicalWithin (2 ^ 64 - 2) zone.old }
    requires none { posts.old ≡ [] }
    ensures { rules.LogicalServes sizes.now zone.old vio zone.new
        (Gives (vios.gift vio) ∷ []) posts.new }
{
    let at = vio.get().at;
    posts.first(ZoneId::Desk, Item::Request(vio.give()));
    release(zone, at, posts);
}

// A request is aborted, and the lock is released.
fn abort(sizes: &Sizes, zone: &mut LogicalZone, vio: BoxedVio, posts: &mut Posts)
    requires phase { vio.phase ≡ phase.Abort }
    requires within { IsLogicalWithin (2 ^ 64 - 2) zone.old }
    requires none { posts.old ≡ [] }
    ensures { rules.LogicalServes sizes.now zone.old vio zone.new [] posts.new }
{
    if let Some(page) = vio.get().page {
        unmake(sizes, zone, vio, page, posts);
        return;
    }
    let at = vio.get().at;
    posts.first(ZoneId::Desk, Item::Request(vio.turn(Phase::Reply)));
    release(zone, at, posts);
}

// A write whose entry was handed in is aborted: the lock of its address is never released.
fn abort_entered(sizes: &Sizes, zone: &mut LogicalZone, vio: BoxedVio, posts: &mut Posts)
    requires phase { vio.phase ≡ phase.AbortEntered }
    requires within { IsLogicalWithin (2 ^ 64 - 2) zone.old }
    requires none { posts.old ≡ [] }
    ensures { rules.LogicalServes sizes.now zone.old vio zone.new
        (Aborts (vios.logged vio) ∷ []) posts.new }
{
    if let Some(page) = vio.get().page {
        drop_page(sizes, zone, vio, page, posts);
        return;
    }
    let at = vio.get().at;
    posts.first(ZoneId::Desk, Item::Request(vio.turn(Phase::Reply)));
    stop_all(zone, at, posts);
    zone.retire(at);
}

/// One phase of a request in a logical zone.
pub(crate) fn serve_logical(sizes: &Sizes, zone: &mut LogicalZone, vio: BoxedVio, posts: &mut Posts)
    requires within { IsLogicalWithin (2 ^ 64 - 2) zone.old }
    requires can { CanServe sizes.now zone.old vio vio.phase }
    requires physical { HasPhysical sizes.now }
    requires none { posts.old ≡ [] }
    ensures { (made : Trace) × rules.LogicalServes sizes.now zone.old vio zone.new made posts.new }
{
    let phase = vio.get().phase;
    match phase {
        Phase::Arrive => arrive(sizes, zone, vio, posts),
        Phase::Look => look_on(sizes, zone, vio, posts),
        Phase::LoadedLeaf => go_on_leafed(sizes, zone, vio, posts),
        Phase::Settle => settle(sizes, zone, vio, posts),
        Phase::Loaded => give(sizes, zone, vio, posts),
        Phase::Abort => abort(sizes, zone, vio, posts),
        Phase::AbortEntered => abort_entered(sizes, zone, vio, posts),
        _ => unreachable!(),
    }
}

/// The session is stopped: a logical zone passes the notice on.
pub(crate) fn hear_stop(zone: &mut LogicalZone, posts: &mut Posts)
    requires { posts.old ≡ [] }
    ensures zone { zone.new ≡ record zone.old { notified = true } }
    ensures posts { posts.new ≡ (id.Desk, item.StopNotice) ∷ [] }
{
    zone.notify();
    posts.first(ZoneId::Desk, Item::StopNotice);
}
