ghost use Rattle.std.specs.Prelude.{◌≡◌, ◌+◌, ℕ, List};
ghost use Rattle.blk_base.specs.declared.point.Half.{Half};
ghost use Rattle.blk_base.specs.declared.place.Pbn.{Pbn};
ghost use Rattle.slab_counts.specs.Counts.{Counts, IsOfSlab, ClaimsFree, HasNoFree, Shares, IsRefused, Takes, IsStray, counter_of, claims_of};
ghost use Rattle.slab_counts.specs.Kept.{IsWithin};
ghost use Rattle.slab_counts.specs.declared.refusals.Refusal.{Refusal};
ghost use Rattle.slab_counts.specs.Operations.{Operation, LeadTo, total, makes, drops, spends, maps, unmaps};

/// Over every list of calls the counters and claims of each block are together within the limit.
pub fn counts_stay_within()
    ensures { (old new : Counts) (calls : List Operation) → IsWithin old → LeadTo old calls new →
        IsWithin new }
{}

/// Over every list of calls a counter is the one before, with the updates that were taken.
pub fn counters_have_the_updates()
    ensures { (old new : Counts) (calls : List Operation) (at : Pbn) → IsWithin old →
        LeadTo old calls new → IsOfSlab old at
        → counter_of new at + total unmaps calls at ≡ counter_of old at + total maps calls at }
{}

/// Over every list of calls the claims on a block are those before and those that were made, but those that were dropped or
/// became a mapping. So they are those that exist, made and neither dropped nor spent, and the spent ones whose increment
/// isn't taken yet.
pub fn claims_are_those_that_exist()
    ensures balance { (old new : Counts) (calls : List Operation) (at : Pbn) → IsWithin old →
        LeadTo old calls new → IsOfSlab old at
        →
        claims_of new at + total drops calls at + total maps calls at
        ≡ claims_of old at + total makes calls at }
    ensures exist { (old new : Counts) (calls : List Operation) (at : Pbn) (exist owed : ℕ) →
        IsWithin old → LeadTo old calls new → IsOfSlab old at
        →
        exist + total drops calls at + total spends calls at
        ≡ claims_of old at + total makes calls at
        → owed + total maps calls at ≡ total spends calls at
        → claims_of new at ≡ exist + owed }
{}

/// A call has one answer: the claimed block is one and the same, and what is refused, for one cause, isn't taken.
pub fn calls_have_one_answer()
    ensures free { (old new : Counts) (at : Pbn) (new' : Counts) (at' : Pbn) →
        ClaimsFree old new at → ClaimsFree old new' at' → (at ≡ at') × (new ≡ new') }
    ensures none { (old new : Counts) (at : Pbn) → ClaimsFree old new at → HasNoFree old → ⊥ }
    ensures share { (old new : Counts) (at : Pbn) (refusal : Refusal) → Shares old new at →
        IsRefused refusal old at → ⊥ }
    ensures refusal { (old : Counts) (at : Pbn) (one other : Refusal) → IsRefused one old at →
        IsRefused other old at → one ≡ other }
    ensures update { (half : Half) (old new : Counts) (at : Pbn) → Takes half old new at →
        IsStray half old at → ⊥ }
{}
