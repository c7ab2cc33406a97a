ghost use Rattle.std.specs.Prelude.{◌≡◌, ◌<◌, ◌*◌, ◌/◌, ◌%◌, ℕ, List, length};
ghost use Rattle.blk_base.specs.Counters.{sectors_per_slab};
ghost use Rattle.blk_base.specs.declared.opened.Opened.{Opened};
ghost use Rattle.reference_blocks.specs.References.{points_of};
ghost use Rattle.slab_journal.specs.Unsettled.{NoneUnsettled};
ghost use Rattle.slab_writes.specs.declared.forms.Need.TheVariants.{Head};
ghost use Rattle.slab_zone.specs.Operations.{AreAbove, Operation, LeadTo, updates_in};
ghost use Rattle.slab_zone.specs.Whole.{IsOpeningWhole, IsWhole, WholeZone, writes_at};
ghost use Rattle.slab_zone.specs.ZoneWrites.{NoneDueIn};
ghost use Rattle.part_laws.specs.Still.{AreSpelled};
ghost use Rattle.part_laws.specs.StillZones.{NoneOutIn};

/// The same of each slab of a zone, over every list of calls from an opened zone on, where the opening commit points of the slab
/// are below the updates taken.
pub fn no_slab_is_dirty_when_none_is_due()
    ensures { (opened : Opened) (zone zones room : ℕ) (first z : WholeZone) (calls : List Operation)
        (slab : ℕ) →
        let g = opened.head.geometry in
        let commits = opened.commits.items in
        IsOpeningWhole opened zone zones room first → IsWhole first →
        length commits ≡ g.slabs * sectors_per_slab g
        → LeadTo first calls z → slab < g.slabs → slab % zones ≡ zone →
        slab / zones < length z.writes
        → AreAbove g (points_of g slab commits) (updates_in g slab calls) →
        AreSpelled (updates_in g slab calls)
        → NoneOutIn z → NoneDueIn Head z →
        NoneUnsettled (writes_at z.writes (slab / zones)).journal }
{}
