ghost use Rattle.std.specs.Prelude.{ℕ, ◌≡◌, ◌≢◌, ◌%◌, IsSome, length, ◌+◌, ◌-◌, ◌^◌, ◌<◌, ◌∷◌, List, Some, None, Ok, Err, false};
ghost use Rattle.blk_base.specs.Counters.{limit_of};
ghost use Rattle.blk_base.specs.declared.place.Pbn.{Pbn as Place};
ghost use Rattle.blk_base.specs.declared.request.Writer.{Writer};
ghost use Rattle.slab_counts.specs.Counts.{IsClaimed, IsFree, IsOfSlab, claims_of, counter_of};
ghost use Rattle.slab_counts.specs.declared.refusals.Refusal.TheVariants.{Full};
ghost use Rattle.slab_tickets.specs.declared.forms.Waiting.{Waiting};
ghost use Rattle.slab_tickets.specs.declared.forms.Withdrawn.TheVariants.{Nothing};
ghost use Rattle.verify_share.specs.declared.judged.Judged.TheVariants.{Stored};
ghost use Rattle.zone_counts.specs.Zone.{slab_at, slab_number};

use blk_base::{Block, Half, Pbn};
use slab_counts::{Claim, Refusal, SlabCounts, Stray, Ticket};
use slab_tickets::{Tickets, Withdrawn};
use verify_share::{Judged, decide};
use zone_counts::ZoneCounts;

// The lowest free block of a slab is claimed.
fn the_lowest_free_block(counts: &mut SlabCounts) -> Option<Claim>
    ghost at: { Place }
    requires own { IsOfSlab counts.old at }
    requires free { IsFree counts.old at }
    requires lowest { (other : Place) → IsOfSlab counts.old other → other.0 < at.0 → ¬ IsFree counts.old other }
    ensures { result ≡ Some at }
{
    counts.claim_free()
}

// No mapping is taken off a block that has none.
fn no_mapping_below_zero(counts: &mut SlabCounts, at: Pbn) -> Result<(), Stray>
    requires own { IsOfSlab counts.old at }
    requires none { counter_of counts.old at ≡ 0 }
    ensures stray { result ≡ Err (record { count = 0 }) }
    ensures same { counts.new ≡ counts.old }
{
    counts.apply(Half::Decrement, at)
}

// Claims count for the limit: where they and the counter reach it, there is no further claim.
fn claims_count_for_the_limit(counts: &mut SlabCounts, claim: &Claim) -> Result<Claim, Refusal>
    requires claimed { IsClaimed counts.old claim.now }
    requires full { counter_of counts.old claim.now + claims_of counts.old claim.now ≡ limit_of counts.old.geometry }
    ensures refused { result ≡ Err Full }
    ensures same { counts.new ≡ counts.old }
{
    counts.extend(claim)
}

// Behind the last number there is no room for a ticket.
fn no_ticket_behind_the_last_number(tickets: &Tickets) -> bool
    requires { tickets.now.issued ≡ 2 ^ 64 - 1 }
    ensures { result ≡ false }
{
    tickets.has_room()
}

// A block goes to the oldest ticket.
fn the_oldest_ticket_first(tickets: &mut Tickets, claim: Claim)
    ghost list: { (oldest : Waiting) × (later : List Waiting) × Unit {0} }
    requires out { tickets.old.out ≡ list.0 ∷ list.1 }
    requires waits { list.0.block ≡ None }
    ensures { tickets.new.out ≡ record list.0 { block = Some claim } ∷ list.1 }
{
    tickets.give(claim);
}

// A receipt has the step that asked, and the one in which the ticket was withdrawn.
fn a_receipt_has_both_steps(tickets: &mut Tickets, ticket: Ticket) -> Withdrawn
    ghost list: { (waiting : Waiting) × (later : List Waiting) × (step : ℕ) × Unit {0} }
    requires out { tickets.old.out ≡ list.0 ∷ list.1 }
    requires number { list.0.number ≡ ticket.number }
    requires waits { list.0.block ≡ None }
    requires now { tickets.old.step ≡ Some list.2 }
    ensures worth { result ≡ Nothing (record { zone = tickets.old.zone; asked = list.0.asked; withdrawn = list.2 }) }
    ensures rest { tickets.new.out ≡ list.1 }
{
    tickets.withdraw(ticket)
}

// A block of a slab that another zone has is none of this zone's.
fn no_slab_of_another_zone(zone: &ZoneCounts, at: Pbn) -> bool
    requires { slab_number zone.now.geometry at % zone.now.zones ≢ zone.now.zone }
    ensures { result ≡ false }
{
    zone.owns(at)
}

// A block is given where any slab of the zone has a free one, also a later one.
fn each_slab_is_searched(zone: &mut ZoneCounts) -> Option<Claim>
    ghost where_free: { (place : ℕ) × (at : Place) × Unit {0} }
    requires inside { where_free.0 < length zone.old.slabs }
    requires own { IsOfSlab (slab_at zone.old.slabs where_free.0) where_free.1 }
    requires free { IsFree (slab_at zone.old.slabs where_free.0) where_free.1 }
    ensures { IsSome result }
{
    zone.claim_free()
}

// A block with other bytes is not shared, and both claims come back.
fn other_bytes_are_not_shared(
    read: &Block,
    wanted: &Block,
    own: Option<Claim>,
    share: Claim,
) -> Judged
    requires { read.now ≢ wanted.now }
    ensures { result ≡ Stored own share }
{
    decide(Some(read), wanted, own, share)
}
