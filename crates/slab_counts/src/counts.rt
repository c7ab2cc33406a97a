ghost use Rattle.std.specs.Prelude.{ℕ, ◌≡◌, ◌+◌, ◌<◌, ◌≤◌, ◌⊎◌, ◌↔◌, ◌*◌, All, List, [], length, false, IsTrue, IfOk, IfErr, IfSome, IfNone, OnOk, OnErr};
ghost use Rattle.blk_base.specs.Counters.{limit_of};
ghost use Rattle.blk_base.specs.Limits.{IsGeometry};
ghost use Rattle.blk_base.specs.declared.geometry.Geometry.{Geometry};
ghost use Rattle.slab_counts.specs.Counts.{IsOpening, IsOfSlab, IsFree, IsPage, IsClaimed, HasRoom, HasNoFree, ClaimsFree, Shares, IsRefused, Takes, IsStray, offset_of, counter_of, used_of, claimed, unclaimed, with_page};
ghost use Rattle.lane_kernels.specs.Kernels.{IsFreeAt, IsLeastFree};
ghost use Rattle.slab_counts.specs.Kept.{IsWithin, NoneFreeBelow};
ghost use Rattle.slab_counts.specs.declared.refusals.Refusal.TheVariants.{Full};
ghost use Rattle.blk_base.specs.declared.point.Half.TheVariants.{Increment, Decrement};

use crate::opening_counts::{opening_counters, repeated};
use crate::{Claim, Refusal, Stray};
use blk_base::{Geometry, Half, Layout, Opened, Pbn};
use lane_kernels::first_free;
use std::alloc::{AllocError, Global};
use std::marker::Model;

/// The reference counters of a slab's data blocks, and the claims on them.
#[derive(Drop)]
pub struct SlabCounts {
    layout: Layout,
    slab: u32,
    // The slab's first data block.
    start: u32,
    // In the order of the data blocks: their counters, the claims on them, and which of them have a tree page.
    counters: Vec<u8>,
    claims: Vec<u8>,
    pages: Vec<bool>,
    // Where a free block is looked for first: no lower place is free.
    cursor: usize,
}

impl Model for SlabCounts {
    ghost use Rattle.slab_counts.specs.Counts.{Counts};

    ghost Value = { Counts };

    ghost use Rattle.slab_counts.specs.Viewed.{counts_of, IsKept};

    ghost view = { counts_of };

    ghost invariant = { IsKept };
}

impl SlabCounts {
    // Long to prove: each way out while what was taken is alive has searches of its own.
    /// The counters of a slab below the number of slabs, as an image of these sizes is opened, with no claim. `opened` has
    /// the counter of each data block, at most the limit of the image. Takes the room for three bytes for each data block.
    /// It goes through all tree pages of the image: for all slabs of one see `without_pages`.
    pub fn new(
        alloc: Global,
        geometry: &Geometry,
        slab: u32,
        opened: &Opened,
    ) -> Result<SlabCounts, AllocError>
        requires geometry { IsGeometry geometry.now }
        requires slab { slab < geometry.now.slabs }
        requires counters { length opened.now.counters.items
            ≡ geometry.now.slabs * geometry.now.slab_blocks }
        requires limit { All (λ counter.
            counter ≤ limit_of geometry.now) opened.now.counters.items }
        ensures opening { IfOk result
            (IsOpening geometry.now slab opened.now.counters.items opened.now.tree_pages.items) }
        ensures within { IfOk result IsWithin }
    {
        let mut counts = SlabCounts::without_pages(alloc, geometry, slab, &opened.counters)?;
        note_pages(&mut counts, &opened.tree_pages);
        Ok(counts)
    }

    // Long to prove: each way out while what was taken is alive has searches of its own.
    /// The same, of the counters of all data blocks, where no tree page was found as yet: `note_page` takes them.
    pub fn without_pages(
        alloc: Global,
        geometry: &Geometry,
        slab: u32,
        counters: &[u8],
    ) -> Result<SlabCounts, AllocError>
        requires geometry { IsGeometry geometry.now }
        requires slab { slab < geometry.now.slabs }
        requires counters { length counters.now ≡ geometry.now.slabs * geometry.now.slab_blocks }
        requires limit { All (λ counter. counter ≤ limit_of geometry.now) counters.now }
        ensures opening { IfOk result (IsOpening geometry.now slab counters.now []) }
        ensures within { IfOk result IsWithin }
    {
        let layout = Layout::of(geometry);
        let start = layout.data_block(slab, 0).0;
        let count = geometry.slab_blocks;
        let counters = opening_counters(alloc, counters, slab, count)?;
        let claims = repeated(alloc, 0, count)?;
        let pages = repeated(alloc, false, count)?;
        Ok(SlabCounts {
            layout,
            slab,
            start,
            counters,
            claims,
            pages,
            cursor: 0,
        })
    }

    /// A tree page of the opened image stands at this block. Nothing changes where that is no block of this slab.
    pub fn note_page(&mut self, at: Pbn)
        ensures own { IsOfSlab self.old at → self.new ≡ with_page self.old at }
        ensures foreign { (¬ IsOfSlab self.old at) → self.new ≡ self.old }
        ensures within { IsWithin self.new }
    {
        if at.0 < self.start {
            return;
        }
        let offset = (at.0 - self.start) as usize;
        if offset < self.pages.len() {
            self.pages[offset] = true;
        }
    }

    /// Claims the lowest free block; `None` exactly where none is free.
    pub fn claim_free(&mut self) -> Option<Claim>
        ensures some { IfSome result (ClaimsFree self.old self.new) }
        ensures none { IfNone result (HasNoFree self.old) }
        ensures same { IfNone result (self.new ≡ self.old) }
    {
        let Some(offset) = first_free_from(&self.counters, &self.claims, self.cursor) else {
            self.cursor = self.counters.len();
            return None;
        };
        self.claims[offset] += 1;
        self.cursor = offset + 1;
        Some(Claim::on(Pbn(self.start + offset as u32)))
    }

    /// Whether some block is free. The place is kept, so that asking again is quick.
    pub fn has_free(&mut self) -> bool
        ensures yes { IsTrue result → ¬ HasNoFree self.old }
        ensures no { (result ≡ false) → HasNoFree self.old }
        ensures same { self.new ≡ self.old }
    {
        match first_free_from(&self.counters, &self.claims, self.cursor) {
            Some(offset) => {
                self.cursor = offset;
                true
            }
            None => {
                self.cursor = self.counters.len();
                false
            }
        }
    }

    /// Claims a block that something is mapped to, for one more mapping. It is refused exactly where it has a tree page or
    /// is no data block of this slab (`NotData`), nothing is mapped to it (`NotLive`), or its counter and claims are
    /// together at the limit (`Full`), in this order.
    pub fn claim_share(&mut self, at: Pbn) -> Result<Claim, Refusal>
        ensures shared { OnOk result (Shares self.old self.new at) }
        ensures claim { IfOk result (λ claim. claim ≡ at) }
        ensures refused { IfErr result (λ refusal. IsRefused refusal self.old at) }
        ensures same { OnErr result (self.new ≡ self.old) }
    {
        let Some(offset) = self.data_place(at) else {
            return Err(Refusal::NotData);
        };
        if self.counters[offset] == 0 {
            return Err(Refusal::NotLive);
        }
        self.claim_one_more(at)
    }

    /// One more claim on the block of a claim of this slab. It is refused as `Full` alone, exactly where the counter and the
    /// claims are together at the limit.
    pub fn extend(&mut self, claim: &Claim) -> Result<Claim, Refusal>
        requires { IsClaimed self.old claim.now }
        ensures room { OnOk result (HasRoom self.old claim.now) }
        ensures extended { OnOk result (self.new ≡ claimed self.old claim.now) }
        ensures claim { IfOk result (λ more. more ≡ claim.now) }
        ensures refused { IfErr result (λ refusal.
            (refusal ≡ Full) × (¬ HasRoom self.old claim.now)) }
        ensures same { OnErr result (self.new ≡ self.old) }
    {
        self.claim_one_more(claim.block())
    }

    /// The claim, of a block of this slab, is no longer needed.
    pub fn drop_claim(&mut self, claim: Claim)
        requires { IsClaimed self.old claim }
        ensures { self.new ≡ unclaimed self.old claim }
    {
        let offset = (claim.block().0 - self.start) as usize;
        self.claims[offset] -= 1;
        self.cursor = cursor_with(&self.counters, &self.claims, offset, self.cursor);
    }

    /// The claim becomes the increment that will come: it stays counted until then. It gives the block.
    pub fn spend(&mut self, claim: Claim) -> Pbn
        requires { IsClaimed self.old claim }
        ensures block { result ≡ claim }
        ensures same { self.new ≡ self.old }
    {
        claim.block()
    }

    /// Spends the claim for a block that becomes a tree page: from now on nobody shares it.
    pub fn spend_page(&mut self, claim: Claim) -> Pbn
        requires { IsClaimed self.old claim }
        ensures block { result ≡ claim }
        ensures page { self.new ≡ with_page self.old claim }
    {
        let at = claim.block();
        let offset = (at.0 - self.start) as usize;
        self.pages[offset] = true;
        at
    }

    /// Takes an update of a block of this slab: an increment, or a decrement. It is refused, with the counter, exactly where a
    /// decrement finds 0, or an increment finds the limit or no claim.
    pub fn apply(&mut self, half: Half, at: Pbn) -> Result<(), Stray>
        requires { IsOfSlab self.old at }
        ensures taken { OnOk result (Takes half self.old self.new at) }
        ensures stray { OnErr result (IsStray half self.old at) }
        ensures count { IfErr result (λ stray. stray.count ≡ counter_of self.old at) }
        ensures same { OnErr result (self.new ≡ self.old) }
    {
        let taken = match half {
            Half::Increment => self.map_once_more(at),
            Half::Decrement => self.map_once_less(at),
        };
        if taken {
            Ok(())
        } else {
            Err(Stray {
                count: self.count(at),
            })
        }
    }

    /// Whether nothing is mapped to the block of this slab, and nobody has a claim on it.
    pub fn is_free(&self, at: Pbn) -> bool
        requires { IsOfSlab self.now at }
        ensures free { IsTrue result ↔ IsFree self.now at }
        ensures within { IsWithin self.now }
    {
        let offset = (at.0 - self.start) as usize;
        self.counters[offset] == 0 && self.claims[offset] == 0
    }

    /// Whether there is a claim on the block of this slab.
    pub fn is_claimed(&self, at: Pbn) -> bool
        requires { IsOfSlab self.now at }
        ensures claimed { IsTrue result ↔ IsClaimed self.now at }
        ensures within { IsWithin self.now }
    {
        self.claims[(at.0 - self.start) as usize] > 0
    }

    /// The counter of a block of this slab.
    pub fn count(&self, at: Pbn) -> u16
        requires { IsOfSlab self.now at }
        ensures count { result ≡ counter_of self.now at }
        ensures within { IsWithin self.now }
    {
        u16::from(self.counters[(at.0 - self.start) as usize])
    }

    /// The counters, in the order of the data blocks.
    pub fn counters(&self) -> &[u8]
        ensures value { result.now ≡ self.now.counters }
        ensures within { IsWithin self.now }
    {
        &self.counters
    }

    /// How many data blocks have a counter above 0.
    pub fn used(&self) -> u32
        ensures used { result ≡ used_of self.now }
        ensures within { IsWithin self.now }
    {
        self.counters.iter().filter(|count| **count > 0).count() as u32
    }

    // One more claim on a block of this slab, if it fits.
    // Long to prove: each clause is shown on each way out.
    fn claim_one_more(&mut self, at: Pbn) -> Result<Claim, Refusal>
        requires { IsOfSlab self.old at }
        ensures room { OnOk result (HasRoom self.old at) }
        ensures claimed { OnOk result (self.new ≡ claimed self.old at) }
        ensures claim { IfOk result (λ claim. claim ≡ at) }
        ensures refused { IfErr result (λ refusal. (refusal ≡ Full) × (¬ HasRoom self.old at)) }
        ensures same { OnErr result (self.new ≡ self.old) }
    {
        let offset = (at.0 - self.start) as usize;
        let uses = u16::from(self.counters[offset]) + u16::from(self.claims[offset]);
        if uses >= self.layout.limit() {
            return Err(Refusal::Full);
        }
        self.claims[offset] += 1;
        Ok(Claim::on(at))
    }

    // Takes an increment of a block of this slab, if it fits.
    // Long to prove: each clause is shown on each way out.
    fn map_once_more(&mut self, at: Pbn) -> bool
        requires { IsOfSlab self.old at }
        ensures taken { IsTrue result → Takes Increment self.old self.new at }
        ensures stray { (result ≡ false) → IsStray Increment self.old at × (self.new ≡ self.old) }
    {
        let offset = (at.0 - self.start) as usize;
        if u16::from(self.counters[offset]) >= self.layout.limit() || self.claims[offset] == 0 {
            return false;
        }
        self.counters[offset] += 1;
        self.claims[offset] -= 1;
        true
    }

    // Takes a decrement of a block of this slab, if it fits.
    fn map_once_less(&mut self, at: Pbn) -> bool
        requires { IsOfSlab self.old at }
        ensures taken { IsTrue result → Takes Decrement self.old self.new at }
        ensures stray { (result ≡ false) → IsStray Decrement self.old at × (self.new ≡ self.old) }
    {
        let offset = (at.0 - self.start) as usize;
        if self.counters[offset] == 0 {
            return false;
        }
        self.counters[offset] -= 1;
        self.cursor = cursor_with(&self.counters, &self.claims, offset, self.cursor);
        true
    }

    // Where a block that is no tree page stands among those of the slab; `None` exactly where it isn't of the slab, or has
    // a tree page.
    fn data_place(&self, at: Pbn) -> Option<usize>
        ensures some { IfSome result (λ offset.
            IsOfSlab self.now at × (¬ IsPage self.now at) × (offset ≡ offset_of self.now at)) }
        ensures none { IfNone result ((¬ IsOfSlab self.now at) ⊎ IsPage self.now at) }
    {
        if at.0 < self.start {
            return None;
        }
        let offset = (at.0 - self.start) as usize;
        if offset < self.pages.len() && !self.pages[offset] {
            Some(offset)
        } else {
            None
        }
    }
}

// The tree pages of the opened image stand at these blocks.
fn note_pages(counts: &mut SlabCounts, among: &[Pbn])
    requires { IsWithin counts.old }
    ensures opening { (geometry : Geometry) (slab : ℕ) (counters : List ℕ) →
        IsOpening geometry slab counters [] counts.old →
        IsOpening geometry slab counters among.now counts.new }
    ensures within { IsWithin counts.new }
{
    for at in among {
        counts.note_page(*at);
    }
}

// The first place where nothing is mapped and no claim is; none is before the cursor.
fn first_free_from(counters: &[u8], claims: &[u8], cursor: usize) -> Option<usize>
    requires sizes { length counters.now ≡ length claims.now }
    requires cursor { cursor ≤ length counters.now }
    requires below { NoneFreeBelow counters.now claims.now cursor }
    ensures some { IfSome result (IsLeastFree counters.now claims.now) }
    ensures none { IfNone result (NoneFreeBelow counters.now claims.now (length counters.now)) }
{
    let behind = first_free(&counters[cursor..], &claims[cursor..])?;
    Some(cursor + behind)
}

// Where to look first, once the block at this place may have become free.
fn cursor_with(counters: &[u8], claims: &[u8], offset: usize, cursor: usize) -> usize
    requires counters { offset < length counters.now }
    requires claims { offset < length claims.now }
    ensures least { result ≤ cursor }
    ensures before { result ≤ offset
        ⊎ ((result ≡ cursor) × (¬ IsFreeAt counters.now claims.now offset)) }
{
    if counters[offset] == 0 && claims[offset] == 0 {
        cursor.min(offset)
    } else {
        cursor
    }
}
