ghost use Rattle.std.specs.Prelude.{◌≡◌, ◌<◌, ◌≤◌, ◌*◌, ◌/◌, ◌%◌, ◌↔◌, ℕ, All, length, false, IsTrue, IfErr, IfNone, IfOk, IfSome, OnOk, OnErr};
ghost use Rattle.blk_base.specs.Counters.{limit_of};
ghost use Rattle.blk_base.specs.Limits.{IsGeometry};
ghost use Rattle.slab_counts.specs.Counts.{Counts, IsFree, HasRoom, Takes, IsStray, counter_of, claimed, unclaimed, with_page};
ghost use Rattle.slab_counts.specs.declared.refusals.Refusal.TheVariants.{Full};
ghost use Rattle.slab_tickets.specs.Tickets.{IsNow, IsBelow, IsOutAt, HasRoom as HasTicket};
ghost use Rattle.zone_counts.specs.Zone.{IsZone, IsOfZone, IsClaimedIn, IsOpeningZone, BeginsStep, Changes, NoneFree, index_of, slab_at, slab_of, used_in, with_slab};
ghost use Rattle.zone_counts.specs.ZoneAnswers.{Asks, GivesBlock, WithdrawsFrom, SharesIn, IsRefusedIn};

use crate::Asked;
use crate::opened_slabs::opening_slabs;
use crate::places::{find_slab, index_of};
use crate::search::{claim_lowest, has_free, serve};
use crate::used::used_in;
use blk_base::{Half, Layout, Opened, Pbn, Writer};
use slab_counts::{Claim, Refusal, SlabCounts, Stray, Ticket};
use slab_tickets::{Tickets, Withdrawn};
use std::alloc::{AllocError, Global};
use std::marker::Model;

/// The slabs of a physical zone, and the tickets that are out there.
#[derive(Drop)]
pub struct ZoneCounts {
    layout: Layout,
    // The number of this zone, and of how many.
    zone: u32,
    zones: u32,
    // The slabs of the zone, in their order.
    slabs: Vec<SlabCounts>,
    // Where a free block is looked for first: no slab before it has one.
    cursor: usize,
    tickets: Tickets,
}

impl Model for ZoneCounts {
    ghost use Rattle.zone_counts.specs.Zone.{Zone};

    ghost Value = { Zone };

    ghost use Rattle.zone_counts.specs.Viewed.{zone_of, IsKept};

    ghost view = { zone_of };

    ghost invariant = { IsKept };
}

impl ZoneCounts {
    // Long to prove: each way out while what was taken is alive has searches of its own.
    /// The zone with this number, of so many, as an image is opened; no ticket is out, and there is room for 32 of them for
    /// each request that a stream may have under way (`depth`, 1 to 16). `opened` has the counter of each data block, at most
    /// the limit of the image. Takes the room for all slabs of the zone.
    pub fn new(
        alloc: Global,
        zone: u32,
        zones: u32,
        depth: u32,
        opened: &Opened,
    ) -> Result<ZoneCounts, AllocError>
        requires sizes { IsGeometry opened.now.head.geometry }
        requires zones { zones ≤ 4 }
        requires zone { zone < zones }
        requires depth { depth ≤ 16 }
        requires counters { length opened.now.counters.items
            ≡ opened.now.head.geometry.slabs * opened.now.head.geometry.slab_blocks }
        requires limit { All (λ counter.
            counter ≤ limit_of opened.now.head.geometry) opened.now.counters.items }
        ensures opening { IfOk result (IsOpeningZone opened.now zone zones (32 * depth)) }
        ensures right { IfOk result IsZone }
    {
        let layout = Layout::of(&opened.head.geometry);
        let slabs = opening_slabs(alloc, zone, zones, opened)?;
        let tickets = Tickets::new(alloc, zone, 32 * depth)?;
        Ok(ZoneCounts {
            layout,
            zone,
            zones,
            slabs,
            cursor: 0,
            tickets,
        })
    }

    /// A step of the zone begins, with a number above that of the one before.
    pub fn begin_step(&mut self, step: u64)
        requires { IsBelow self.old.desk.step step }
        ensures { BeginsStep self.old self.new step }
    {
        let is_free = has_free(&mut self.slabs, &mut self.cursor);
        self.tickets.begin_step(step, is_free);
    }

    /// The number of the step under way; `None` exactly where no step was begun.
    pub fn step(&self) -> Option<u64>
        ensures { result ≡ self.now.desk.step }
    {
        self.tickets.step()
    }

    /// Whether there is room for one more ticket, and a number.
    pub fn has_ticket_room(&self) -> bool
        ensures { IsTrue result ↔ HasTicket self.now.desk }
    {
        self.tickets.has_room()
    }

    /// Whether the ticket is out.
    pub fn is_out(&self, ticket: &Ticket) -> bool
        ensures yes { IsTrue result → (place : ℕ) × IsOutAt self.now.desk ticket.now place }
        ensures no { (result ≡ false) → ¬ ((place : ℕ) × IsOutAt self.now.desk ticket.now place) }
    {
        self.tickets.is_out(ticket)
    }

    /// Whether it is a data block of one of the slabs of the zone.
    pub fn owns(&self, at: Pbn) -> bool
        ensures { IsTrue result ↔ IsOfZone self.now at }
    {
        find_slab(&self.layout, self.zone, self.zones, &self.slabs, at).is_some()
    }

    /// Whether it is a data block of the zone, on which there is a claim.
    pub fn is_claimed(&self, at: Pbn) -> bool
        ensures { IsTrue result ↔ IsClaimedIn self.now at }
    {
        match find_slab(&self.layout, self.zone, self.zones, &self.slabs, at) {
            Some(place) => self.slabs[place].is_claimed(at),
            None => false,
        }
    }

    /// Claims the zone's lowest free block; `None` exactly where none is free.
    pub fn claim_free(&mut self) -> Option<Claim>
        ensures some { IfSome result (GivesBlock self.old self.new) }
        ensures none { IfNone result (NoneFree self.old.slabs) }
        ensures same { IfNone result (self.new ≡ self.old) }
    {
        claim_lowest(&mut self.slabs, &mut self.cursor)
    }

    /// Asks for a block: it gives the zone's lowest free block, claimed, and a ticket exactly where none is free. A step was
    /// begun, and there is room for a ticket.
    pub fn ask(&mut self, writer: Writer) -> Asked
        requires room { HasTicket self.old.desk }
        requires begun { (step : ℕ) × IsNow self.old.desk step }
        ensures { Asks self.old self.new writer result }
    {
        match claim_lowest(&mut self.slabs, &mut self.cursor) {
            Some(claim) => Asked::Block(claim),
            None => Asked::Ticket(self.tickets.issue(writer)),
        }
    }

    /// Withdraws a ticket that is out: it is worth the block that went to it, and a receipt exactly where none did.
    pub fn withdraw(&mut self, ticket: Ticket) -> Withdrawn
        requires out { (place : ℕ) × IsOutAt self.old.desk ticket place }
        requires begun { (step : ℕ) × IsNow self.old.desk step }
        ensures { WithdrawsFrom self.old self.new ticket result }
    {
        self.tickets.withdraw(ticket)
    }

    /// Claims a block that something is mapped to, for one more mapping. It is refused exactly where it has a tree page or is
    /// no data block of this zone (`NotData`), nothing is mapped to it (`NotLive`), or its counter and claims are together at
    /// the limit (`Full`), in this order.
    pub fn claim_share(&mut self, at: Pbn) -> Result<Claim, Refusal>
        ensures shared { OnOk result (SharesIn self.old self.new at) }
        ensures claim { IfOk result (λ claim. claim ≡ at) }
        ensures refused { IfErr result (λ refusal. IsRefusedIn refusal self.old at) }
        ensures same { OnErr result (self.new ≡ self.old) }
    {
        let Some(place) = find_slab(&self.layout, self.zone, self.zones, &self.slabs, at) else {
            return Err(Refusal::NotData);
        };
        let slab = &mut self.slabs[place];
        slab.claim_share(at)
    }

    /// One more claim on the block of a claim of this zone. It is refused as `Full` alone, exactly where the counter and the
    /// claims are together at the limit.
    pub fn extend(&mut self, claim: &Claim) -> Result<Claim, Refusal>
        requires { IsClaimedIn self.old claim.now }
        ensures room { OnOk result (HasRoom (slab_of self.old claim.now) claim.now) }
        ensures extended { OnOk result
            (self.new
            ≡ with_slab self.old claim.now (claimed (slab_of self.old claim.now) claim.now)) }
        ensures claim { IfOk result (λ more. more ≡ claim.now) }
        ensures refused { IfErr result (λ refusal.
            (refusal ≡ Full) × (¬ HasRoom (slab_of self.old claim.now) claim.now)) }
        ensures same { OnErr result (self.new ≡ self.old) }
    {
        let place = index_of(
            &self.layout,
            self.zone,
            self.zones,
            &self.slabs,
            claim.block(),
        );
        let slab = &mut self.slabs[place];
        slab.extend(claim)
    }

    /// The claim, of a block of this zone, is no longer needed. If the block becomes free, it goes to the oldest ticket
    /// without one.
    pub fn drop_claim(&mut self, claim: Claim)
        requires { IsClaimedIn self.old claim }
        ensures { Changes self.old self.new claim (unclaimed (slab_of self.old claim) claim) }
    {
        let place = index_of(
            &self.layout,
            self.zone,
            self.zones,
            &self.slabs,
            claim.block(),
        );
        let slab = &mut self.slabs[place];
        slab.drop_claim(claim);
        self.cursor = self.cursor.min(place);
        serve(&mut self.slabs, &mut self.cursor, &mut self.tickets);
    }

    /// The claim becomes the increment that will come: it stays counted until then. It gives the block.
    pub fn spend(&mut self, claim: Claim) -> Pbn
        requires { IsClaimedIn self.old claim }
        ensures block { result ≡ claim }
        ensures same { self.new ≡ self.old }
    {
        claim.block()
    }

    /// Spends the claim for a block that becomes a tree page: from now on nobody shares it.
    pub fn spend_page(&mut self, claim: Claim) -> Pbn
        requires { IsClaimedIn self.old claim }
        ensures block { result ≡ claim }
        ensures page { self.new
            ≡ with_slab self.old claim (with_page (slab_of self.old claim) claim) }
    {
        let place = index_of(
            &self.layout,
            self.zone,
            self.zones,
            &self.slabs,
            claim.block(),
        );
        let slab = &mut self.slabs[place];
        slab.spend_page(claim)
    }

    // Long to prove: each clause is shown on each way out.
    /// Takes an update of a block of this zone: an increment, or a decrement. It is refused, with the counter, exactly where a
    /// decrement finds 0, or an increment finds the limit or no claim. If the block becomes free, it goes to the oldest ticket
    /// without one.
    pub fn apply(&mut self, half: Half, at: Pbn) -> Result<(), Stray>
        requires { IsOfZone self.old at }
        ensures taken { OnOk result
            ((slab : Counts)
            × Takes half (slab_of self.old at) slab at
            × Changes self.old self.new at slab) }
        ensures stray { OnErr result (IsStray half (slab_of self.old at) at) }
        ensures count { IfErr result (λ stray. stray.count ≡ counter_of (slab_of self.old at) at) }
        ensures same { OnErr result (self.new ≡ self.old) }
    {
        let place = index_of(&self.layout, self.zone, self.zones, &self.slabs, at);
        let slab = &mut self.slabs[place];
        slab.apply(half, at)?;
        self.cursor = self.cursor.min(place);
        serve(&mut self.slabs, &mut self.cursor, &mut self.tickets);
        Ok(())
    }

    /// Whether nothing is mapped to the block of this zone, and nobody has a claim on it.
    pub fn is_free(&self, at: Pbn) -> bool
        requires { IsOfZone self.now at }
        ensures free { IsTrue result ↔ IsFree (slab_of self.now at) at }
        ensures right { IsZone self.now }
    {
        let place = index_of(&self.layout, self.zone, self.zones, &self.slabs, at);
        self.slabs[place].is_free(at)
    }

    /// The counter of a block of this zone.
    pub fn count(&self, at: Pbn) -> u16
        requires { IsOfZone self.now at }
        ensures count { result ≡ counter_of (slab_of self.now at) at }
        ensures right { IsZone self.now }
    {
        let place = index_of(&self.layout, self.zone, self.zones, &self.slabs, at);
        self.slabs[place].count(at)
    }

    /// Where the slab of a block of this zone stands among those of the zone.
    pub fn place(&self, at: Pbn) -> usize
        requires { IsOfZone self.now at }
        ensures place { result ≡ index_of self.now at }
        ensures inside { result < length self.now.slabs }
    {
        index_of(&self.layout, self.zone, self.zones, &self.slabs, at)
    }

    /// Whether the slab with this number in the image is one of this zone.
    pub fn owns_slab(&self, slab: u32) -> bool
        ensures { IsTrue result
            ↔ ((slab < self.now.geometry.slabs) × (slab % self.now.zones ≡ self.now.zone)) }
    {
        slab < self.layout.geometry.slabs && slab % self.zones == self.zone
    }

    /// Where the slab with this number in the image, which is one of this zone, stands among those of the zone.
    pub fn place_of_slab(&self, slab: u32) -> usize
        ensures { result ≡ slab / self.now.zones }
    {
        (slab / self.zones) as usize
    }

    /// The counters of the slab at this place among those of the zone, in the order of its data blocks.
    pub fn counters(&self, place: usize) -> &[u8]
        requires { place < length self.now.slabs }
        ensures value { result.now ≡ (slab_at self.now.slabs place).counters }
        ensures right { IsZone self.now }
    {
        self.slabs[place].counters()
    }

    /// How many data blocks of the zone have a counter above 0. It goes through all counters.
    pub fn used(&self) -> u32
        ensures used { result ≡ used_in self.now.slabs }
        ensures right { IsZone self.now }
    {
        used_in(&self.slabs)
    }

    /// How many data blocks the image has, those of other zones among them.
    pub fn total(&self) -> u32
        ensures { result ≡ self.now.geometry.slabs * self.now.geometry.slab_blocks }
    {
        self.layout.data_blocks()
    }
}
