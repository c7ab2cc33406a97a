ghost use Rattle.std.specs.Prelude.{◌≡◌, ◌<◌, ◌≤◌, ◌*◌, ◌↔◌, ℕ, All, length, false, IsTrue, IfErr, IfOk, IfSome, IfNone, OnOk, OnErr};
ghost use Rattle.blk_base.specs.Counters.{limit_of, sectors_per_slab};
ghost use Rattle.blk_base.specs.Limits.{IsGeometry};
ghost use Rattle.blk_base.specs.Points.{half_of};
ghost use Rattle.slab_counts.specs.Counts.{Counts, IsFree, HasRoom, IsStray, counter_of, claimed, unclaimed, with_page};
ghost use Rattle.slab_counts.specs.declared.refusals.Refusal.TheVariants.{Full};
ghost use Rattle.slab_tickets.specs.Tickets.{IsNow, IsBelow, IsOutAt, HasRoom as HasTicket};
ghost use Rattle.zone_counts.specs.Zone.{BeginsStep, IsOfZone, IsClaimedIn, Changes, slab_of, used_in, with_slab};
ghost use Rattle.zone_counts.specs.ZoneAnswers.{Asks, WithdrawsFrom, SharesIn, IsRefusedIn};
ghost use Rattle.slab_zone.specs.Whole.{IsOpeningWhole, IsWhole};
ghost use Rattle.slab_zone.specs.ZoneWrites.{HasRoomAt, MayTake, RisesIn, TakesUpdate, IsDueIn, NoneDueIn, IsOutIn, SettlesIn, IsLowPointIn, NoneUnsettledIn};

use crate::due_writes::{first_due, least_low_point};
use crate::opened_zone::opening_writes;
use blk_base::{Block, Opened, Pbn, Point, Update, Writer};
use slab_counts::{Claim, Refusal, Stray, Ticket};
use slab_tickets::Withdrawn;
use slab_writes::{Need, SlabWork, SlabWrites};
use std::alloc::{AllocError, Global};
use std::marker::Model;
use zone_counts::{Asked, ZoneCounts};

/// The slabs of a physical zone, and the tickets that are out there.
#[derive(Drop)]
pub struct SlabZone {
    // The counters, claims and tickets.
    counts: ZoneCounts,
    // For each slab of the zone, in their order, what of it is to be written.
    writes: Vec<SlabWrites>,
}

impl Model for SlabZone {
    ghost use Rattle.slab_zone.specs.Whole.{WholeZone};

    ghost Value = { WholeZone };

    ghost use Rattle.slab_zone.specs.Viewed.{whole_of, IsKept};

    ghost view = { whole_of };

    ghost invariant = { IsKept };
}

impl SlabZone {
    // Long to prove: each way out while what was taken is alive has searches of its own.
    /// The zone with this number, of so many, as an image is opened: no ticket is out, nothing is to be written, and there is
    /// room for 32 tickets for each request that a stream may have under way (`depth`, 1 to 16). `opened` has the counter of
    /// each data block, at most the limit of the image, and a commit point for each sector of counters. Takes the room for
    /// all slabs of the zone.
    pub fn new(
        alloc: Global,
        zone: u32,
        zones: u32,
        depth: u32,
        opened: &Opened,
    ) -> Result<SlabZone, AllocError>
        requires sizes { IsGeometry opened.now.head.geometry }
        requires zones { zones ≤ 4 }
        requires zone { zone < zones }
        requires depth { depth ≤ 16 }
        requires counters { length opened.now.counters.items
            ≡ opened.now.head.geometry.slabs * opened.now.head.geometry.slab_blocks }
        requires limit { All (λ counter.
            counter ≤ limit_of opened.now.head.geometry) opened.now.counters.items }
        requires commits { length opened.now.commits.items
            ≡ opened.now.head.geometry.slabs * sectors_per_slab opened.now.head.geometry }
        ensures opening { IfOk result (IsOpeningWhole opened.now zone zones (32 * depth)) }
        ensures right { IfOk result IsWhole }
    {
        let counts = ZoneCounts::new(alloc, zone, zones, depth, opened)?;
        let writes = opening_writes(alloc, zone, zones, opened)?;
        Ok(SlabZone { counts, writes })
    }

    /// A step of the zone begins, with a number above that of the one before.
    pub fn begin_step(&mut self, step: u64)
        requires { IsBelow self.old.counts.desk.step step }
        ensures begins { BeginsStep self.old.counts self.new.counts step }
        ensures writes { self.new.writes ≡ self.old.writes }
    {
        self.counts.begin_step(step);
    }

    /// The number of the step under way; `None` exactly where no step was begun.
    pub fn step(&self) -> Option<u64>
        ensures { result ≡ self.now.counts.desk.step }
    {
        self.counts.step()
    }

    /// Whether there is room for one more ticket, and a number.
    pub fn has_ticket_room(&self) -> bool
        ensures { IsTrue result ↔ HasTicket self.now.counts.desk }
    {
        self.counts.has_ticket_room()
    }

    /// Whether the ticket is out.
    pub fn is_out(&self, ticket: &Ticket) -> bool
        ensures yes { IsTrue result → (place : ℕ) × IsOutAt self.now.counts.desk ticket.now place }
        ensures no { (result ≡ false) →
            ¬ ((place : ℕ) × IsOutAt self.now.counts.desk ticket.now place) }
    {
        self.counts.is_out(ticket)
    }

    /// Whether it is a data block of one of the slabs of the zone.
    pub fn owns(&self, at: Pbn) -> bool
        ensures { IsTrue result ↔ IsOfZone self.now.counts at }
    {
        self.counts.owns(at)
    }

    /// Whether it is a data block of the zone, on which there is a claim.
    pub fn is_claimed(&self, at: Pbn) -> bool
        ensures { IsTrue result ↔ IsClaimedIn self.now.counts at }
    {
        self.counts.is_claimed(at)
    }

    /// Asks for a block: it gives the zone's lowest free block, claimed, and a ticket exactly where none is free. A step was
    /// begun, and there is room for a ticket.
    pub fn ask(&mut self, writer: Writer) -> Asked
        requires room { HasTicket self.old.counts.desk }
        requires begun { (step : ℕ) × IsNow self.old.counts.desk step }
        ensures asks { Asks self.old.counts self.new.counts writer result }
        ensures writes { self.new.writes ≡ self.old.writes }
    {
        self.counts.ask(writer)
    }

    /// Withdraws a ticket that is out: it is worth the block that went to it, and a receipt exactly where none did.
    pub fn withdraw(&mut self, ticket: Ticket) -> Withdrawn
        requires out { (place : ℕ) × IsOutAt self.old.counts.desk ticket place }
        requires begun { (step : ℕ) × IsNow self.old.counts.desk step }
        ensures withdraws { WithdrawsFrom self.old.counts self.new.counts ticket result }
        ensures writes { self.new.writes ≡ self.old.writes }
    {
        self.counts.withdraw(ticket)
    }

    /// Claims a block that something is mapped to, for one more mapping. It is refused exactly where it has a tree page or is
    /// no data block of this zone (`NotData`), nothing is mapped to it (`NotLive`), or its counter and claims are together at
    /// the limit (`Full`), in this order.
    pub fn claim_share(&mut self, at: Pbn) -> Result<Claim, Refusal>
        ensures shared { OnOk result (SharesIn self.old.counts self.new.counts at) }
        ensures claim { IfOk result (λ claim. claim ≡ at) }
        ensures refused { IfErr result (λ refusal. IsRefusedIn refusal self.old.counts at) }
        ensures same { OnErr result (self.new ≡ self.old) }
        ensures writes { self.new.writes ≡ self.old.writes }
    {
        self.counts.claim_share(at)
    }

    /// One more claim on the block of a claim of this zone. It is refused as `Full` alone, exactly where the counter and the
    /// claims are together at the limit.
    pub fn extend(&mut self, claim: &Claim) -> Result<Claim, Refusal>
        requires { IsClaimedIn self.old.counts claim.now }
        ensures room { OnOk result (HasRoom (slab_of self.old.counts claim.now) claim.now) }
        ensures extended { OnOk result
            (self.new.counts
            ≡ with_slab self.old.counts claim.now
            (claimed (slab_of self.old.counts claim.now) claim.now)) }
        ensures claim { IfOk result (λ more. more ≡ claim.now) }
        ensures refused { IfErr result (λ refusal.
            (refusal ≡ Full) × (¬ HasRoom (slab_of self.old.counts claim.now) claim.now)) }
        ensures same { OnErr result (self.new ≡ self.old) }
        ensures writes { self.new.writes ≡ self.old.writes }
    {
        self.counts.extend(claim)
    }

    /// The claim, of a block of this zone, is no longer needed. If the block becomes free, it goes to the oldest ticket
    /// without one.
    pub fn drop_claim(&mut self, claim: Claim)
        requires { IsClaimedIn self.old.counts claim }
        ensures drops { Changes self.old.counts self.new.counts claim
            (unclaimed (slab_of self.old.counts claim) claim) }
        ensures writes { self.new.writes ≡ self.old.writes }
    {
        self.counts.drop_claim(claim);
    }

    /// The claim becomes the increment that will come: it stays counted until then. It gives the block.
    pub fn spend(&mut self, claim: Claim) -> Pbn
        requires { IsClaimedIn self.old.counts claim }
        ensures block { result ≡ claim }
        ensures same { self.new ≡ self.old }
    {
        self.counts.spend(claim)
    }

    /// Spends the claim for a block that becomes a tree page: from now on nobody shares it.
    pub fn spend_page(&mut self, claim: Claim) -> Pbn
        requires { IsClaimedIn self.old.counts claim }
        ensures block { result ≡ claim }
        ensures page { self.new.counts
            ≡ with_slab self.old.counts claim (with_page (slab_of self.old.counts claim) claim) }
        ensures writes { self.new.writes ≡ self.old.writes }
    {
        self.counts.spend_page(claim)
    }

    /// Whether the slab of a block of this zone takes one more update: exactly where the block being filled in its journal
    /// has fewer than 320.
    pub fn has_room(&self, at: Pbn) -> bool
        requires { IsOfZone self.now.counts at }
        ensures { IsTrue result ↔ HasRoomAt self.now at }
    {
        let place = self.counts.place(at);
        let slab = &self.writes[place];
        slab.has_room()
    }

    /// Whether the zone may take the update: it is of one of its blocks, whose slab has room for it, and its point is above
    /// those of the slab's updates before.
    pub fn may_take(&self, update: &Update) -> bool
        ensures { IsTrue result ↔ MayTake self.now update.now }
    {
        if !self.counts.owns(update.at) {
            return false;
        }
        let place = self.counts.place(update.at);
        let slab = &self.writes[place];
        slab.rises(update.point) && self.has_room(update.at)
    }

    // Points rise in the block's slab alone, which is less than that they rise in the zone.
    // Long to prove: each clause is shown on each way out.
    /// Takes an update of a block of this zone, whose slab has room for it; its point is above those of the slab's updates
    /// before. It is refused, with the counter, exactly where a decrement finds 0, or an increment finds the limit or no
    /// claim. If the block becomes free, it goes to the oldest ticket without one. The update is to be written.
    pub fn apply(&mut self, update: &Update) -> Result<(), Stray>
        requires own { IsOfZone self.old.counts update.now.at }
        requires room { HasRoomAt self.old update.now.at }
        requires rises { RisesIn self.old update.now }
        ensures taken { OnOk result
            ((slab : Counts) × TakesUpdate self.old self.new update.now slab) }
        ensures stray { OnErr result
            (IsStray (half_of update.now.point.0)
            (slab_of self.old.counts update.now.at) update.now.at) }
        ensures count { IfErr result (λ stray.
            stray.count ≡ counter_of (slab_of self.old.counts update.now.at) update.now.at) }
        ensures same { OnErr result (self.new ≡ self.old) }
    {
        let place = self.counts.place(update.at);
        self.counts.apply(update.point.half(), update.at)?;
        let slab = &mut self.writes[place];
        slab.take(update);
        Ok(())
    }

    /// Hands out a block that the need is for, of the first slab that has one, with what it is to say; `None` exactly where each such block of the zone is
    /// being written. It is the full block of a slab's journal (`Full`), or one that holds updates (`Head`), or where its slot
    /// can't be overwritten the reference block of its slab that was dirtied first, or any dirty reference block (`All`).
    /// While a sealed block of a slab's journal isn't durable, the next one counts as being written.
    pub fn due(&mut self, need: Need, into: &mut Block) -> Option<SlabWork>
        ensures some { IfSome result (IsDueIn need self.old self.new into.new) }
        ensures none { IfNone result (NoneDueIn need self.old) }
        ensures same { IfNone result (self.new ≡ self.old) }
    {
        first_due(&mut self.writes, &self.counts, need, into)
    }

    /// Whether the block of this work was handed out by this zone, and that isn't reported yet.
    pub fn is_work_out(&self, work: SlabWork) -> bool
        ensures { IsTrue result ↔ IsOutIn self.now work }
    {
        if !self.counts.owns_slab(work.slab) {
            return false;
        }
        let slab = &self.writes[self.counts.place_of_slab(work.slab)];
        slab.is_out(work)
    }

    /// The write of a block that was handed out is durable: a flush covers it.
    pub fn durable(&mut self, work: SlabWork)
        requires { IsOutIn self.old work }
        ensures { SettlesIn self.old self.new work }
    {
        let place = self.counts.place_of_slab(work.slab);
        let slab = &mut self.writes[place];
        slab.durable(work);
    }

    /// The least point of the updates that were taken here and aren't durable; `None` exactly where each is.
    pub fn low_point(&self) -> Option<Point>
        ensures some { IfSome result (IsLowPointIn self.now) }
        ensures none { IfNone result (NoneUnsettledIn self.now) }
    {
        least_low_point(&self.writes)
    }

    /// How many data blocks of the zone have a counter above 0. It goes through all counters.
    pub fn used(&self) -> u32
        ensures used { result ≡ used_in self.now.counts.slabs }
        ensures right { IsWhole self.now }
    {
        self.counts.used()
    }

    /// Whether nothing is mapped to the block of this zone, and nobody has a claim on it.
    pub fn is_free(&self, at: Pbn) -> bool
        requires { IsOfZone self.now.counts at }
        ensures free { IsTrue result ↔ IsFree (slab_of self.now.counts at) at }
        ensures right { IsWhole self.now }
    {
        self.counts.is_free(at)
    }

    /// The counter of a block of this zone.
    pub fn count(&self, at: Pbn) -> u16
        requires { IsOfZone self.now.counts at }
        ensures count { result ≡ counter_of (slab_of self.now.counts at) at }
        ensures right { IsWhole self.now }
    {
        self.counts.count(at)
    }
}
