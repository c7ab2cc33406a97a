ghost use Rattle.std.specs.Prelude.{◌≡◌, ◌-◌, ◌^◌, [], ◌∷◌, true};
ghost use Rattle.blk_base.specs.declared.place.ZoneId.TheVariants as id;
ghost use Rattle.core_model.specs.PhysicalLimits.{IsPhysicalWithin};
ghost use Rattle.core_model.specs.PhysicalRules.{PhysicalServes, spent_for};
ghost use Rattle.core_model.specs.Trace.{Trace};
ghost use Rattle.data_vio.specs.Vios as vios;
ghost use Rattle.data_vio.specs.declared.items.Item.TheVariants.{Request, StopNotice};
ghost use Rattle.data_vio.specs.declared.items.Phase.TheVariants as phase;
ghost use Rattle.step_parts.specs.Rules.{Applies};
ghost use Rattle.step_parts.specs.ZoneSizes.{AreFew, HasPhysical};
ghost use Rattle.zone_counts.specs.Zone.{IsClaimedIn};

use crate::asking::{claim, withdraw};
use blk_base::{Half, PageId, Pbn, ZoneId};
use core_model::PhysicalZone;
use data_vio::{BoxedVio, Item, Phase, Sizes};
use slab_counts::Claim;
use step_parts::Posts;
use zone_counts::ZoneCounts;

// A request goes back to its logical zone.
fn go_home(vio: BoxedVio, phase: Phase, posts: &mut Posts)
    requires { posts.old ≡ [] }
    ensures { posts.new ≡ (vio.home, Request (vios.turned phase vio)) ∷ [] }
{
    let home = vio.get().home;
    posts.first(home, Item::Request(vio.turn(phase)));
}

// Spends a claim. The block of a page is shared by nobody from now on.
fn spend(counts: &mut ZoneCounts, page: Option<PageId>, claim: Claim) -> Pbn
    requires { IsClaimedIn counts.old claim }
    ensures block { result ≡ claim }
    ensures spent { counts.new ≡ spent_for page counts.old claim }
{
    match page {
        None => counts.spend(claim),
        Some(_) => counts.spend_page(claim),
    }
}

// The entry of a request is committed: the increment of its block is taken, and its claim spent.
fn count(sizes: &Sizes, zone: &mut PhysicalZone, mut vio: BoxedVio, posts: &mut Posts)
    requires phase { vio.phase ≡ phase.Count }
    requires rule { Applies (PhysicalServes sizes.now zone.old vio) }
    requires none { posts.old ≡ [] }
    ensures { (made : Trace) × PhysicalServes sizes.now zone.old vio zone.new made posts.new }
{
    let Some(claim) = vio.take_claim() else {
        unreachable!()
    };
    let at = spend(&mut zone.counts, vio.get().page, claim);
    let Ok(()) = zone.counts.apply(Half::Increment, at) else {
        unreachable!()
    };
    go_home(vio, Phase::Settle, posts);
}

// A request whose entry wasn't handed in is aborted: its claim is dropped, where it has one.
fn drop_claim(sizes: &Sizes, zone: &mut PhysicalZone, mut vio: BoxedVio, posts: &mut Posts)
    requires phase { vio.phase ≡ phase.AbortClaim }
    requires rule { Applies (PhysicalServes sizes.now zone.old vio) }
    requires none { posts.old ≡ [] }
    ensures { (made : Trace) × PhysicalServes sizes.now zone.old vio zone.new made posts.new }
{
    if let Some(claim) = vio.take_claim() {
        zone.counts.drop_claim(claim);
    }
    go_home(vio, Phase::Abort, posts);
}

// A request whose entry was handed in is aborted: its claim, where it has one, stays counted.
fn leave_claim(mut vio: BoxedVio, posts: &mut Posts)
    requires { posts.old ≡ [] }
    ensures { posts.new ≡ (vio.home, Request (vios.unclaiming phase.AbortEntered vio)) ∷ [] }
{
    let _claim = vio.take_claim();
    go_home(vio, Phase::AbortEntered, posts);
}

/// What a physical zone does with a request in front of its inbox, which a rule serves.
pub(crate) fn serve_physical(
    sizes: &Sizes,
    zone: &mut PhysicalZone,
    vio: BoxedVio,
    posts: &mut Posts,
)
    requires physical { HasPhysical sizes.now }
    requires few { AreFew sizes.now }
    requires within { IsPhysicalWithin (2 ^ 64 - 2) zone.old }
    requires rule { Applies (PhysicalServes sizes.now zone.old vio) }
    requires none { posts.old ≡ [] }
    ensures { (made : Trace) × PhysicalServes sizes.now zone.old vio zone.new made posts.new }
{
    let phase = vio.get().phase;
    match phase {
        Phase::Claim => claim(sizes, zone, vio, posts),
        Phase::Withdraw => withdraw(sizes, zone, vio, posts),
        Phase::Count => count(sizes, zone, vio, posts),
        Phase::AbortClaim => drop_claim(sizes, zone, vio, posts),
        Phase::AbortEnteredClaim => leave_claim(vio, posts),
        _ => unreachable!(),
    }
}

/// A physical zone hears that the session is stopped, and passes it on.
pub(crate) fn hear_stop(zone: &mut PhysicalZone, posts: &mut Posts)
    requires { posts.old ≡ [] }
    ensures zone { zone.new ≡ record zone.old { notified = true } }
    ensures posts { posts.new ≡ (id.Desk, StopNotice) ∷ [] }
{
    zone.notified = true;
    posts.first(ZoneId::Desk, Item::StopNotice);
}
