ghost use Rattle.std.specs.Prelude.{◌≡◌, ◌-◌, ◌^◌, ◌≤◌, Some, None, [], ◌∷◌};
ghost use Rattle.blk_base.specs.declared.place.Pbn.{Pbn};
ghost use Rattle.core_model.specs.PhysicalLimits.{IsPhysicalWithin};
ghost use Rattle.core_model.specs.PhysicalRules.{BeginsNext, PhysicalServes, asks_on, next_step, served};
ghost use Rattle.core_model.specs.Trace.{Trace};
ghost use Rattle.data_vio.specs.Vios.{claiming, ticket_zone};
ghost use Rattle.data_vio.specs.declared.items.Phase.TheVariants as phase;
ghost use Rattle.slab_counts.specs.Counts.{unclaimed};
ghost use Rattle.step_parts.specs.Rules.{Applies};
ghost use Rattle.step_parts.specs.ZoneSizes.{AreFew, HasPhysical};
ghost use Rattle.zone_counts.specs.Zone.{Changes, IsClaimedIn, NoneFree, slab_of};

use blk_base::{Answer, ZoneId};
use core_model::PhysicalZone;
use data_vio::{BoxedVio, Item, Phase, Sizes, Vio};
use slab_counts::Claim;
use step_parts::{Posts, counts_of};
use zone_counts::{Asked, Withdrawn, ZoneCounts};

// A step of the zone begins in which it gives a ticket or takes one back: the steps of this kind are numbered, from 0 on.
fn begin_next(counts: &mut ZoneCounts)
    requires { next_step counts.old.desk.step ≤ 2 ^ 64 - 2 }
    ensures { BeginsNext counts.old counts.new }
{
    let step = match counts.step() {
        None => 0,
        Some(step) => step + 1,
    };
    counts.begin_step(step);
}

// The zone that gave a request its oldest ticket; the desk where it has none.
fn ticket_zone(vio: &Vio) -> ZoneId
    ensures { result ≡ ticket_zone vio.now.tickets }
{
    match vio.tickets.first() {
        Some(ticket) => ZoneId::Physical(ticket.zone),
        None => ZoneId::Desk,
    }
}

// A write that asks no more goes to the zone of its oldest ticket, which is withdrawn there. With none left it stores its data
// or its page at its block; where it has no block, none was free.
fn go_on(vio: BoxedVio, posts: &mut Posts)
    requires { posts.old ≡ [] }
    ensures { posts.new ≡ served vio ∷ [] }
{
    let zone = ticket_zone(vio.get());
    let home = vio.get().home;
    let (to, goes) = if vio.get().tickets.len() > 0 {
        (zone, vio.turn(Phase::Withdraw))
    } else if vio.get().claim.is_some() {
        (ZoneId::Device, vio.turn(Phase::Store))
    } else {
        (home, vio.end(Phase::Abort, Answer::NoSpace))
    };
    posts.first(to, Item::Request(goes));
}

// A write that was given a ticket asks the next zone. One that asked each zone goes to that of its oldest ticket.
fn ask_on(sizes: &Sizes, vio: BoxedVio, posts: &mut Posts)
    requires physical { HasPhysical sizes.now }
    requires none { posts.old ≡ [] }
    ensures { posts.new ≡ asks_on sizes.now vio ∷ [] }
{
    let zones = u32::from(sizes.physical);
    if vio.get().tickets.len() < zones {
        let to = counts_of(sizes, vio.get());
        posts.first(to, Item::Request(vio));
    } else {
        let to = ticket_zone(vio.get());
        posts.first(to, Item::Request(vio.withdraw()));
    }
}

// No block of the zone is free: a write is given a ticket.
fn ask(sizes: &Sizes, zone: &mut PhysicalZone, vio: BoxedVio, posts: &mut Posts)
    requires phase { vio.phase ≡ phase.Claim }
    requires physical { HasPhysical sizes.now }
    requires few { AreFew sizes.now }
    requires within { IsPhysicalWithin (2 ^ 64 - 2) zone.old }
    requires rule { Applies (PhysicalServes sizes.now zone.old vio) }
    requires none_free { NoneFree zone.old.counts.slabs }
    requires none { posts.old ≡ [] }
    ensures { (made : Trace) × PhysicalServes sizes.now zone.old vio zone.new made posts.new }
{
    begin_next(&mut zone.counts);
    let Asked::Ticket(ticket) = zone.counts.ask(vio.get().request) else {
        unreachable!()
    };
    ask_on(sizes, vio.hold(ticket), posts);
}

/// A write claims the lowest free data block of the zone; where none is free there, it is given a ticket.
pub(crate) fn claim(sizes: &Sizes, zone: &mut PhysicalZone, vio: BoxedVio, posts: &mut Posts)
    requires phase { vio.phase ≡ phase.Claim }
    requires physical { HasPhysical sizes.now }
    requires few { AreFew sizes.now }
    requires within { IsPhysicalWithin (2 ^ 64 - 2) zone.old }
    requires rule { Applies (PhysicalServes sizes.now zone.old vio) }
    requires none { posts.old ≡ [] }
    ensures { (made : Trace) × PhysicalServes sizes.now zone.old vio zone.new made posts.new }
{
    match zone.counts.claim_free() {
        Some(claim) => go_on(vio.claim(claim), posts),
        None => ask(sizes, zone, vio, posts),
    }
}

// A block went to a ticket of a write: that takes it, or drops it where it has one.
// Long to prove: each clause is shown on each way out.
fn keep_or_drop(counts: &mut ZoneCounts, vio: BoxedVio, claim: Claim) -> BoxedVio
    requires { (y : Pbn) → vio.claim ≡ Some y → IsClaimedIn counts.old claim }
    ensures kept { vio.claim ≡ None → (counts.new ≡ counts.old) × (result ≡ claiming claim vio) }
    ensures dropped { (y : Pbn) → vio.claim ≡ Some y →
        Changes counts.old counts.new claim (unclaimed (slab_of counts.old claim) claim)
        × (result ≡ vio) }
{
    if vio.get().claim.is_some() {
        counts.drop_claim(claim);
        return vio;
    }
    vio.claim(claim)
}

/// The oldest ticket of a write is withdrawn, for the block that went to it or for a receipt.
pub(crate) fn withdraw(sizes: &Sizes, zone: &mut PhysicalZone, mut vio: BoxedVio, posts: &mut Posts)
    requires phase { vio.phase ≡ phase.Withdraw }
    requires within { IsPhysicalWithin (2 ^ 64 - 2) zone.old }
    requires rule { Applies (PhysicalServes sizes.now zone.old vio) }
    requires none { posts.old ≡ [] }
    ensures { (made : Trace) × PhysicalServes sizes.now zone.old vio zone.new made posts.new }
{
    let Some(ticket) = vio.take_ticket() else {
        unreachable!()
    };
    begin_next(&mut zone.counts);
    let goes = match zone.counts.withdraw(ticket) {
        Withdrawn::Block(claim) => keep_or_drop(&mut zone.counts, vio, claim),
        Withdrawn::Nothing(receipt) => vio.refuse(receipt),
    };
    go_on(goes, posts);
}
