//! The laws of the core on data blocks: which are free, who has a claim, and what is counted.

ghost use Rattle.std.specs.Prelude.{◌≡◌, ◌<◌, ◌≤◌, ◌+◌, ◌++◌, ℕ, false, map, Contains, List, Some, slice_get};
ghost use Rattle.blk_base.specs.Counters.{limit_of};
ghost use Rattle.blk_base.specs.Regions.{IsDataBlock};
ghost use Rattle.blk_base.specs.declared.journal_entry.CommittedEntry.{CommittedEntry};
ghost use Rattle.blk_base.specs.declared.place.Pbn.{Pbn};
ghost use Rattle.count_laws.specs.Turns.{HasMappingsAfter};
ghost use Rattle.plain_laws.specs.Sums.{total};
ghost use Rattle.data_vio.specs.Zones.{physical_zone_of};
ghost use Rattle.data_vio.specs.declared.items.Item.TheVariants.{Request};
ghost use Rattle.data_vio.specs.declared.items.Vio.{Vio};
ghost use Rattle.core_model.specs.declared.zones.PhysicalZone.{PhysicalZone};
ghost use Rattle.core_model.specs.declared.zones.Zone.{Zone};
ghost use Rattle.core_model.specs.declared.zones.ZoneData.TheVariants.{Physical};
ghost use Rattle.core_model.specs.CountUpdates.{CountUpdate, updates_in, updates_of, updates_taken};
ghost use Rattle.core_model.specs.Legal.{Legal};
ghost use Rattle.core_model.specs.RightTraces.{IsUnused};
ghost use Rattle.core_model.specs.Sessions.{Session, IsFair, IsSession, opened_image, said_by};
ghost use Rattle.core_model.specs.Steps.{Core};
ghost use Rattle.core_model.specs.Tokens.{claim_token, owes, weight};
ghost use Rattle.core_model.specs.Trace.{durable, entry_of};
ghost use Rattle.core_model.specs.Uses.{IsFreeAt, counted, uncounted};
ghost use Rattle.zone_counts.specs.ByBlock.{claims_in, counter_in};

/// Where the session is fair, nobody maps a data block that is free by what happened, nor one on which a request has a claim
/// whose entry isn't handed in: no address by the committed entries over the opened image, no entry behind these, and no page.
pub fn a_free_block_is_mapped_by_nobody()
    ensures free { (s : Session) (core : Core) (x : Pbn) → IsSession s → Legal s core →
        IsFair s core.trace → IsDataBlock s.sizes.geometry x.0 → IsFreeAt s core.trace x →
        IsUnused s core.trace x }
    ensures alone { (s : Session) (core : Core) (x : Pbn) (n : ℕ) (z : Zone) (v : Vio) →
        IsSession s → Legal s core → IsFair s core.trace → slice_get core.zones n ≡ Some z →
        Contains z.ports.inbox (Request v) → v.claim ≡ Some x → owes v.phase ≡ false →
        IsUnused s core.trace x }
{}

/// A claim that a request has is counted by the zone of its block, in whatever phase it is, and on each block at most one is
/// held.
pub fn a_claim_is_held_once()
    ensures counted { (s : Session) (core : Core) (x : Pbn) (n m : ℕ) (z y : Zone) (v : Vio)
        (p : PhysicalZone) → Legal s core → slice_get core.zones n ≡ Some z →
        Contains z.ports.inbox (Request v) → v.claim ≡ Some x → slice_get core.zones m ≡ Some y →
        y.keeps ≡ Physical p → physical_zone_of s.sizes x ≡ p.counts.zone →
        0 < claims_in x p.counts.slabs }
    ensures once { (s : Session) (core : Core) (x : Pbn) → Legal s core →
        total (weight (claim_token x)) core.zones ≤ 1 }
{}

/// Each data block is counted by one of the physical zones. Its counter there has the increments and decrements that were taken,
/// and is within the limit with the claims on the block. Each zone takes the updates of its blocks in the order of the committed
/// entries; and once a zone has taken all of its own, where the session is fair, a counter there is the number of mappings of its
/// block by these entries over the opened image.
pub fn counters_have_the_updates_that_were_taken()
    ensures home { (s : Session) (core : Core) (x : Pbn) → IsSession s → Legal s core →
        (n : ℕ) × (z : Zone) × (p : PhysicalZone) × (slice_get core.zones n ≡ Some z)
        × (z.keeps ≡ Physical p) × (physical_zone_of s.sizes x ≡ p.counts.zone) }
    ensures counters { (s : Session) (core : Core) (n : ℕ) (z : Zone) (p : PhysicalZone) (x : Pbn) →
        Legal s core → slice_get core.zones n ≡ Some z → z.keeps ≡ Physical p →
        IsDataBlock s.sizes.geometry x.0 → physical_zone_of s.sizes x ≡ p.counts.zone →
        counter_in x p.counts.slabs + uncounted core.trace x ≡ counted s core.trace x }
    ensures limit { (s : Session) (core : Core) (n : ℕ) (z : Zone) (p : PhysicalZone) (x : Pbn) →
        Legal s core → slice_get core.zones n ≡ Some z → z.keeps ≡ Physical p →
        counter_in x p.counts.slabs + claims_in x p.counts.slabs ≤ limit_of s.sizes.geometry }
    ensures order { (s : Session) (core : Core) (zone : ℕ) → Legal s core → zone < s.sizes.physical
        →
        (rest : List CountUpdate)
        × (updates_in s.sizes zone (updates_of (durable core.trace))
        ≡ updates_in s.sizes zone (updates_taken core.trace) ++ rest) }
    ensures mapped { (s : Session) (core : Core) (n : ℕ) (z : Zone) (p : PhysicalZone) (x : Pbn)
        (entries : List CommittedEntry) → IsSession s → Legal s core → IsFair s core.trace →
        slice_get core.zones n ≡ Some z → z.keeps ≡ Physical p →
        IsDataBlock s.sizes.geometry x.0 → physical_zone_of s.sizes x ≡ p.counts.zone →
        updates_in s.sizes p.counts.zone (updates_taken core.trace)
        ≡ updates_in s.sizes p.counts.zone (updates_of (durable core.trace)) →
        map entry_of (durable core.trace) ≡ said_by entries →
        HasMappingsAfter (opened_image s) entries x (counter_in x p.counts.slabs) }
{}
