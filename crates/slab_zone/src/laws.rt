ghost use Rattle.std.specs.Prelude.{ℕ, ◌≡◌, ◌*◌, ◌/◌, ◌%◌, ◌<◌, ◌⊎◌, List, length, take, drop, Contains};
ghost use Rattle.blk_base.specs.Counters.{sectors_per_slab};
ghost use Rattle.blk_base.specs.declared.opened.Opened.{Opened};
ghost use Rattle.blk_base.specs.declared.point.Point.{Point};
ghost use Rattle.reference_blocks.specs.References.{point_at, points_of, sectors_of};
ghost use Rattle.reference_blocks.specs.Updates.{counters_after, up_to};
ghost use Rattle.slab_codec.specs.Reference.{reference_bytes};
ghost use Rattle.slab_codec.specs.BlockBytes.{block_bytes};
ghost use Rattle.slab_codec.specs.declared.forms.SlabEntry.{SlabEntry};
ghost use Rattle.slab_counts.specs.declared.tickets.Ticket.{Ticket};
ghost use Rattle.slab_counts.specs.declared.tickets.Receipt.{Receipt};
ghost use Rattle.slab_tickets.specs.Tickets.{empty_desk};
ghost use Rattle.slab_tickets.specs.declared.forms.Withdrawn.TheVariants.{Nothing};
ghost use Rattle.slab_writes.specs.Operations as writes;
ghost use Rattle.slab_writes.specs.Commits.{IsReported};
ghost use Rattle.slab_writes.specs.declared.forms.Need.{Need};
ghost use Rattle.slab_writes.specs.declared.forms.SlabPart.TheVariants.{Journal, References};
ghost use Rattle.slab_writes.specs.declared.forms.SlabWork.{SlabWork};
ghost use Rattle.zone_counts.specs.ZoneAnswers.{WithdrawsFrom};
ghost use Rattle.zone_counts.specs.Operations.{IsRight};
ghost use Rattle.slab_zone.specs.Whole.{WholeZone, IsWhole, IsOpeningWhole, writes_at};
ghost use Rattle.slab_zone.specs.ZoneWrites.{IsDueIn, NoneDueIn, IsOutIn, SettlesIn, IsLowPointIn, NoneUnsettledIn};
ghost use Rattle.slab_zone.specs.Operations.{Operation, Written, Does, LeadTo, HandsOut, Reports, AreAbove, IsDurableIn, calls_of, counted_of, updates_in};

/// Over every list of calls a zone stays as it must be: each slab has the numbers of its blocks, within the limit, and its own
/// journal and reference blocks; where a ticket waits no block is free.
pub fn zones_stay_settled()
    ensures { (old new : WholeZone) (calls : List Operation) → IsWhole old → LeadTo old calls new →
        IsWhole new }
{}

/// Over every list of calls from an opened zone on, every receipt that a withdrawal gives is right: no step from the one that
/// asked on ended with a free block in this zone.
pub fn every_receipt_is_right()
    ensures { (first old : WholeZone) (new : WholeZone) (room : ℕ) (calls : List Operation)
        (ticket : Ticket) (receipt : Receipt) → IsWhole first
        → first.counts.desk ≡ empty_desk first.counts.zone room → LeadTo first calls old →
        WithdrawsFrom old.counts new.counts ticket (Nothing receipt)
        → IsRight (counted_of calls) receipt }
{}

/// What `due` hands out and what is reported as durable are calls of such a list.
pub fn written_blocks_are_calls()
    ensures due { (need : Need) (old new : WholeZone) (bytes : List ℕ) (work : SlabWork) →
        IsWhole old → IsDueIn need old new bytes work
        → (call : writes.Operation) × HandsOut call bytes work
        × Does (Written work.slab call) old new }
    ensures durable { (old new : WholeZone) (work : SlabWork) → IsOutIn old work →
        SettlesIn old new work
        → (call : writes.Operation) × Reports call work × Does (Written work.slab call) old new }
{}

/// A block that is handed out wasn't being written before, and is from then on until its write is reported, whatever is called
/// in between.
pub fn a_block_is_out_until_it_is_reported()
    ensures handed { (need : Need) (old new : WholeZone) (bytes : List ℕ) (work : SlabWork) →
        IsWhole old → IsDueIn need old new bytes work
        → (¬ IsOutIn old work) × IsOutIn new work }
    ensures kept { (call : Operation) (old new : WholeZone) (work : SlabWork) → IsWhole old →
        IsOutIn old work → Does call old new
        →
        IsOutIn new work
        ⊎ ((report : writes.Operation) × (call ≡ Written work.slab report) × Reports report work) }
{}

/// Over every list of calls from an opened zone on, a journal block that is due has updates alone that these calls took of its
/// slab.
pub fn a_journal_block_has_updates_taken_here()
    ensures { (opened : Opened) (zone zones room : ℕ) (first old new : WholeZone)
        (calls : List Operation) (need : Need) (bytes : List ℕ) (work : SlabWork) →
        let g = opened.head.geometry in
        IsOpeningWhole opened zone zones room first → IsWhole first → LeadTo first calls old
        → IsDueIn need old new bytes work → work.part ≡ Journal
        → (entries : List SlabEntry) × (bytes ≡ block_bytes g.nonce work.number work.slab entries)
        ×
        ((entry : SlabEntry) → Contains entries entry →
        Contains (updates_in g work.slab calls) entry) }
{}

/// Over every list of calls from an opened zone on, where the opening commit points of its slab are below the updates taken, a
/// reference block that is due has in each sector the opening counters with exactly the updates of these calls that aren't
/// above its commit point.
pub fn a_reference_block_has_its_updates()
    ensures { (opened : Opened) (zone zones room : ℕ) (first old new : WholeZone)
        (calls : List Operation) (need : Need) (bytes : List ℕ) (work : SlabWork) →
        let g = opened.head.geometry in
        let commits = opened.commits.items in
        IsOpeningWhole opened zone zones room first → IsWhole first
        → length commits ≡ g.slabs * sectors_per_slab g → LeadTo first calls old →
        IsDueIn need old new bytes work → work.part ≡ References
        → AreAbove g (points_of g work.slab commits) (updates_in g work.slab calls)
        →
        let all = opened.counters.items in
        let counters = take g.slab_blocks (drop (work.slab * g.slab_blocks) all) in
        let points = (writes_at old.writes (work.slab / zones)).blocks.applied in
        bytes
        ≡ reference_bytes
        (sectors_of g points
        (counters_after counters (up_to g points (updates_in g work.slab calls))) work.number) }
{}

/// Over every list of calls from an opened zone on, where the opening commit points of a slab are below the updates taken, each
/// update of the slab that is below the low point of the zone is durable, and each one where there is no low point.
pub fn every_update_below_the_low_point_is_durable()
    ensures some { (opened : Opened) (zone zones room : ℕ) (first new : WholeZone)
        (calls : List Operation) (slab : ℕ) (entry : SlabEntry) (low : Point) →
        let g = opened.head.geometry in
        let commits = opened.commits.items in
        IsOpeningWhole opened zone zones room first → IsWhole first
        → length commits ≡ g.slabs * sectors_per_slab g → LeadTo first calls new → slab < g.slabs →
        slab % zones ≡ zone
        → AreAbove g (points_of g slab commits) (updates_in g slab calls) →
        Contains (updates_in g slab calls) entry
        → IsLowPointIn new low → entry.point.0 < low.0 → IsDurableIn g slab calls entry }
    ensures none { (opened : Opened) (zone zones room : ℕ) (first new : WholeZone)
        (calls : List Operation) (slab : ℕ) (entry : SlabEntry) →
        let g = opened.head.geometry in
        let commits = opened.commits.items in
        IsOpeningWhole opened zone zones room first → IsWhole first
        → length commits ≡ g.slabs * sectors_per_slab g → LeadTo first calls new → slab < g.slabs →
        slab % zones ≡ zone
        → AreAbove g (points_of g slab commits) (updates_in g slab calls) →
        Contains (updates_in g slab calls) entry
        → NoneUnsettledIn new → IsDurableIn g slab calls entry }
{}

/// A block is handed out of the first slab that has one which isn't being written, so of one slab; and it is one block, with
/// one content, and one zone behind it. Where one is, not each block that the need is for is being written.
pub fn due_takes_the_first_slab()
    ensures slab { (need : Need) (old new new' : WholeZone) (bytes bytes' : List ℕ)
        (work work' : SlabWork) → (one : IsDueIn need old new bytes work)
        → (other : IsDueIn need old new' bytes' work') → one.due.place ≡ other.due.place }
    ensures one { (need : Need) (old new new' : WholeZone) (bytes bytes' : List ℕ)
        (work work' : SlabWork) → IsDueIn need old new bytes work →
        IsDueIn need old new' bytes' work' → (new ≡ new') × (bytes ≡ bytes') × (work ≡ work') }
    ensures some { (need : Need) (old new : WholeZone) (bytes : List ℕ) (work : SlabWork) →
        IsDueIn need old new bytes work → ¬ NoneDueIn need old }
{}

/// Over every list of calls from an opened zone on, a commit point in a slab's journal is 0, or that with which the reference
/// block of its sector was handed out before it was reported as durable.
pub fn a_commit_point_is_of_a_reported_block()
    ensures { (opened : Opened) (zone zones room : ℕ) (first new : WholeZone)
        (calls : List Operation) (slab sector : ℕ) →
        let g = opened.head.geometry in
        let commits = opened.commits.items in
        IsOpeningWhole opened zone zones room first → IsWhole first
        → length commits ≡ g.slabs * sectors_per_slab g → LeadTo first calls new → slab < g.slabs →
        slab % zones ≡ zone
        → let point = point_at (writes_at new.writes (slab / zones)).journal.commits sector in
        (point ≡ record { 0 = 0 }) ⊎ IsReported g (calls_of g slab calls) sector point }
{}
