//! What a zone does with the item in front of its inbox, in the cases where a wrong step would harm an image or an answer.

ghost use Rattle.std.specs.Prelude.{ℕ, ◌≡◌, ◌⊎◌, ◌+◌, ◌-◌, ◌^◌, ◌<◌, ◌≤◌, ◌∷◌, ◌++◌, [], IsTrue, List, None, Some, false, true, length};
ghost use Rattle.blk_base.specs.declared.place.Mapping.{Mapping as Mapped};
ghost use Rattle.blk_base.specs.declared.place.PageId.{PageId};
ghost use Rattle.blk_base.specs.declared.place.Pbn.{Pbn};
ghost use Rattle.blk_base.specs.declared.place.ZoneId.TheVariants as id;
ghost use Rattle.blk_base.specs.declared.request.Answer.{Answer as Reply};
ghost use Rattle.blk_base.specs.declared.request.Answer.TheVariants.{Damaged, Ok as Done};
ghost use Rattle.blk_base.specs.declared.request.Writer.{Writer};
ghost use Rattle.core_model.specs.DeskLimits.{IsDeskWithin};
ghost use Rattle.core_model.specs.DeskRules.{mark_of_vio};
ghost use Rattle.core_model.specs.JournalLimits.{IsJournalWithin};
ghost use Rattle.core_model.specs.JournalRules as journal;
ghost use Rattle.core_model.specs.LogicalLimits.{IsLogicalWithin};
ghost use Rattle.core_model.specs.LogicalRules as logical;
ghost use Rattle.core_model.specs.PageLinks.{leaf_head};
ghost use Rattle.core_model.specs.PageTrees.{HasPath, is_listed};
ghost use Rattle.core_model.specs.PhysicalLimits.{IsPhysicalWithin};
ghost use Rattle.core_model.specs.PhysicalRules as physical;
ghost use Rattle.core_model.specs.Steps.{HasAct};
ghost use Rattle.core_model.specs.declared.zones.SuperblockStage.TheVariants.{Durable, Written};
ghost use Rattle.core_model.specs.declared.zones.ZoneData.TheVariants as at;
ghost use Rattle.data_vio.specs.Vios.{claiming, counts_of, ended, gives_up, holding, makes, turned, with_tickets};
ghost use Rattle.data_vio.specs.declared.items.Asks.TheVariants.{Flush};
ghost use Rattle.data_vio.specs.declared.items.Item.TheVariants as item;
ghost use Rattle.data_vio.specs.declared.items.Phase.TheVariants as phase;
ghost use Rattle.data_vio.specs.declared.items.Stage.TheVariants as stage;
ghost use Rattle.data_vio.specs.declared.items.Vio.{Vio};
ghost use Rattle.desk_zone.specs.Begins.{CanBegin};
ghost use Rattle.device_zone.specs.Served.{MayServe};
ghost use Rattle.disk_model.specs.Causes.{Rose};
ghost use Rattle.disk_model.specs.declared.call.Call.TheVariants as call;
ghost use Rattle.page_codec.specs.Grammar.{IsPage};
ghost use Rattle.slab_counts.specs.Counts.{unclaimed};
ghost use Rattle.slab_counts.specs.declared.tickets.Ticket.{Ticket};
ghost use Rattle.slab_tickets.specs.declared.forms.Withdrawn.TheVariants as withdrawn;
ghost use Rattle.step_parts.specs.ZoneSizes.{AreFew, HasPhysical};
ghost use Rattle.vdo_model.specs.DeskLog.{IsNextLine};
ghost use Rattle.vdo_model.specs.declared.report.DeskLine.TheVariants as line;
ghost use Rattle.zone_counts.specs.Zone.{Changes, IsClaimedIn, Zone as Counting, slab_of};
ghost use Rattle.zone_counts.specs.ZoneAnswers.{GivesBlock, GivesTicket, WithdrawsFrom};

use core_model::{Desk, DeviceZone, JournalZone, LogicalZone, PhysicalZone};
use data_vio::{BoxedVio, Item, SealedBlock, Sizes};
use disk_model::Disk;
use step_parts::Posts;

// A flush that is answered Ok has its mark.
fn an_answered_flush_has_its_mark(sizes: &Sizes, desk: &mut Desk, vio: BoxedVio, posts: &mut Posts)
    requires within { IsDeskWithin desk.old }
    requires rule { HasAct sizes.now (at.Desk desk.old) (item.Request vio ∷ []) }
    requires none { posts.old ≡ [] }
    requires comes { vio.phase ≡ phase.Reply }
    requires flush { vio.asks ≡ Flush }
    requires answer { vio.answer ≡ Some Done }
    ensures { desk.new.marks ≡ mark_of_vio vio ∷ desk.old.marks }
{
    desk_zone::act(sizes, desk, Item::Request(vio), posts);
}

// The request that is begun is that of the lowest stream that may begin one.
fn the_lowest_stream_begins(sizes: &Sizes, desk: &mut Desk, posts: &mut Posts) -> bool
    requires can { CanBegin sizes.now desk.old }
    requires none { posts.old ≡ [] }
    ensures { (w : Writer) →
        IsNextLine sizes.now.depth desk.old.requests (line.Begin w) desk.old.log →
        ((other : Writer) →
        IsNextLine sizes.now.depth desk.old.requests (line.Begin other) desk.old.log →
        w.stream ≤ other.stream)
        → IsTrue result → (desk.new.log ≡ line.Begin w ∷ desk.old.log)
        ⊎ ((answer : Reply) × (desk.new.log ≡ line.Answer w answer ∷ line.Begin w ∷ desk.old.log)) }
{
    desk_zone::begin_next(sizes, desk, posts)
}

// A request that arrives at an address whose lock is free looks up what is mapped there, or waits where it is held; it isn't
// stopped.
fn who_arrives_is_not_stopped(
    sizes: &Sizes,
    zone: &mut LogicalZone,
    vio: BoxedVio,
    posts: &mut Posts,
)
    requires physical { HasPhysical sizes.now }
    requires within { IsLogicalWithin (2 ^ 64 - 2) zone.old }
    requires rule { HasAct sizes.now (at.Logical zone.old) (item.Request vio ∷ []) }
    requires none { posts.old ≡ [] }
    requires arrives { vio.phase ≡ phase.Arrive }
    requires released { logical.is_among vio.at.0 zone.old.retired ≡ false }
    ensures free { logical.is_held vio.at.0 zone.old.held ≡ false →
        posts.new ≡ logical.looks_up (logical.placed zone.old vio) ∷ [] }
    ensures held { logical.is_held vio.at.0 zone.old.held ≡ true → posts.new ≡ [] }
{
    logical_zone::act(sizes, zone, Item::Request(vio), posts);
}

// A page that is to be made isn't linked yet.
fn a_page_is_made_before_it_is_linked(
    sizes: &Sizes,
    zone: &mut LogicalZone,
    vio: BoxedVio,
    posts: &mut Posts,
)
    requires physical { HasPhysical sizes.now }
    requires within { IsLogicalWithin (2 ^ 64 - 2) zone.old }
    requires rule { HasAct sizes.now (at.Logical zone.old) (item.Request vio ∷ []) }
    requires none { posts.old ≡ [] }
    requires looks { vio.phase ≡ phase.Look }
    requires path { HasPath zone.old.tree vio.at.0 }
    ensures { (page : PageId) → logical.lacks zone.old vio ≡ Some page →
        is_listed page zone.old.unlinkable ≡ false → is_listed page zone.old.making ≡ false
        → (zone.new.tree ≡ zone.old.tree)
        × (posts.new ≡ (counts_of sizes.now vio, item.Request (makes page vio)) ∷ []) }
{
    logical_zone::act(sizes, zone, Item::Request(vio), posts);
}

// Where the making of a page ends, all that wait for it look again.
fn all_that_wait_for_a_page_look_again(
    sizes: &Sizes,
    zone: &mut LogicalZone,
    vio: BoxedVio,
    posts: &mut Posts,
)
    requires physical { HasPhysical sizes.now }
    requires within { IsLogicalWithin (2 ^ 64 - 2) zone.old }
    requires rule { HasAct sizes.now (at.Logical zone.old) (item.Request vio ∷ []) }
    requires none { posts.old ≡ [] }
    requires aborted { vio.phase ≡ phase.Abort }
    ensures { (page : PageId) → vio.page ≡ Some page
        → posts.new
        ≡ (id.Desk, item.Request (gives_up vio))
        ∷ (logical.granted vio.at.0 zone.old ++ logical.all_again zone.old.lacking) }
{
    logical_zone::act(sizes, zone, Item::Request(vio), posts);
}

// A write claims a block where one is free.
fn a_free_block_is_claimed(sizes: &Sizes, zone: &mut PhysicalZone, vio: BoxedVio, posts: &mut Posts)
    requires zones { 0 < sizes.now.zones }
    requires physical { HasPhysical sizes.now }
    requires few { AreFew sizes.now }
    requires within { IsPhysicalWithin (2 ^ 64 - 2) zone.old }
    requires rule { HasAct sizes.now (at.Physical zone.old) (item.Request vio ∷ []) }
    requires none { posts.old ≡ [] }
    requires claims { vio.phase ≡ phase.Claim }
    ensures { (x : Pbn) (z : Counting) → GivesBlock zone.old.counts z x →
        (zone.new.counts ≡ z) × (posts.new ≡ physical.served (claiming x vio) ∷ []) }
{
    physical_zone::act(sizes, zone, Item::Request(vio), posts);
}

// A write for which no block is free in a zone is given a ticket there, and asks on.
fn who_finds_no_block_has_a_ticket(
    sizes: &Sizes,
    zone: &mut PhysicalZone,
    vio: BoxedVio,
    posts: &mut Posts,
)
    requires zones { 0 < sizes.now.zones }
    requires physical { HasPhysical sizes.now }
    requires few { AreFew sizes.now }
    requires within { IsPhysicalWithin (2 ^ 64 - 2) zone.old }
    requires rule { HasAct sizes.now (at.Physical zone.old) (item.Request vio ∷ []) }
    requires none { posts.old ≡ [] }
    requires claims { vio.phase ≡ phase.Claim }
    ensures { (k : Ticket) (begun z : Counting) → length vio.tickets < sizes.now.physical →
        physical.BeginsNext zone.old.counts begun → GivesTicket begun z vio.request k →
        (zone.new.counts ≡ z) × (posts.new ≡ physical.asks_on sizes.now (holding k vio) ∷ []) }
{
    physical_zone::act(sizes, zone, Item::Request(vio), posts);
}

// The second block of a write is dropped, and may go to another ticket.
fn a_second_block_is_dropped(
    sizes: &Sizes,
    zone: &mut PhysicalZone,
    vio: BoxedVio,
    posts: &mut Posts,
)
    requires zones { 0 < sizes.now.zones }
    requires physical { HasPhysical sizes.now }
    requires few { AreFew sizes.now }
    requires within { IsPhysicalWithin (2 ^ 64 - 2) zone.old }
    requires rule { HasAct sizes.now (at.Physical zone.old) (item.Request vio ∷ []) }
    requires none { posts.old ≡ [] }
    requires withdraws { vio.phase ≡ phase.Withdraw }
    ensures { (k : Ticket) (others : List Ticket) (x y : Pbn) (begun between z : Counting) →
        vio.tickets ≡ k ∷ others → vio.claim ≡ Some y →
        physical.BeginsNext zone.old.counts begun →
        WithdrawsFrom begun between k (withdrawn.Block x) → IsClaimedIn between x →
        Changes between z x (unclaimed (slab_of between x) x)
        → (zone.new.counts ≡ z) × (posts.new ≡ physical.served (with_tickets others vio) ∷ []) }
{
    physical_zone::act(sizes, zone, Item::Request(vio), posts);
}

// The claim of a write that is aborted is dropped.
fn the_claim_of_an_aborted_write_is_dropped(
    sizes: &Sizes,
    zone: &mut PhysicalZone,
    vio: BoxedVio,
    posts: &mut Posts,
)
    requires zones { 0 < sizes.now.zones }
    requires physical { HasPhysical sizes.now }
    requires few { AreFew sizes.now }
    requires within { IsPhysicalWithin (2 ^ 64 - 2) zone.old }
    requires rule { HasAct sizes.now (at.Physical zone.old) (item.Request vio ∷ []) }
    requires none { posts.old ≡ [] }
    requires aborted { vio.phase ≡ phase.AbortClaim }
    ensures { (x : Pbn) (z : Counting) → vio.claim ≡ Some x → IsClaimedIn zone.old.counts x →
        Changes zone.old.counts z x (unclaimed (slab_of zone.old.counts x) x) →
        zone.new.counts ≡ z }
{
    physical_zone::act(sizes, zone, Item::Request(vio), posts);
}

// The claim of a write whose entry was handed in stays counted: its block isn't free again.
fn a_block_in_the_journal_stays_claimed(
    sizes: &Sizes,
    zone: &mut PhysicalZone,
    vio: BoxedVio,
    posts: &mut Posts,
)
    requires zones { 0 < sizes.now.zones }
    requires physical { HasPhysical sizes.now }
    requires few { AreFew sizes.now }
    requires within { IsPhysicalWithin (2 ^ 64 - 2) zone.old }
    requires rule { HasAct sizes.now (at.Physical zone.old) (item.Request vio ∷ []) }
    requires none { posts.old ≡ [] }
    requires aborted { vio.phase ≡ phase.AbortEnteredClaim }
    ensures { zone.new ≡ zone.old }
{
    physical_zone::act(sizes, zone, Item::Request(vio), posts);
}

// An entry that is handed in decrements nothing yet: at most the block goes round that is sealed.
fn an_entry_decrements_nothing_yet(
    sizes: &Sizes,
    zone: &mut JournalZone,
    vio: BoxedVio,
    posts: &mut Posts,
)
    requires physical { HasPhysical sizes.now }
    requires within { IsJournalWithin zone.old }
    requires rule { HasAct sizes.now (at.Journal zone.old) (item.Request vio ∷ []) }
    requires none { posts.old ≡ [] }
    requires enters { vio.phase ≡ phase.Enter }
    requires opened { journal.is_closed zone.old ≡ false }
    requires block { journal.has_block zone.old ≡ true }
    requires room { journal.has_room zone.old ≡ true }
    ensures busy { zone.old.busy ≡ true → posts.new ≡ [] }
    ensures idle { zone.old.busy ≡ false →
        posts.new ≡ (id.Journal, item.Block (journal.next_block zone.old stage.Commit [])) ∷ [] }
{
    journal_zone::act(sizes, zone, Item::Request(vio), posts);
}

// An entry for which the block has room is handed in, behind those that were, and doesn't wait for the next block: so
// all that come in until that is sealed share it.
fn an_entry_shares_the_block(
    sizes: &Sizes,
    zone: &mut JournalZone,
    vio: BoxedVio,
    posts: &mut Posts,
)
    requires physical { HasPhysical sizes.now }
    requires within { IsJournalWithin zone.old }
    requires rule { HasAct sizes.now (at.Journal zone.old) (item.Request vio ∷ []) }
    requires none { posts.old ≡ [] }
    requires enters { vio.phase ≡ phase.Enter }
    requires opened { journal.is_closed zone.old ≡ false }
    requires block { journal.has_block zone.old ≡ true }
    requires room { journal.has_room zone.old ≡ true }
    ensures filling { zone.new.filling ≡ zone.old.filling ++ turned phase.Pending vio ∷ [] }
    ensures waiting { zone.new.waiting ≡ zone.old.waiting }
{
    journal_zone::act(sizes, zone, Item::Request(vio), posts);
}

// The data of a block's entries last before the block is written: it is sealed at the stage of that flush.
fn a_sealed_block_is_covered_first(
    sizes: &Sizes,
    zone: &mut JournalZone,
    block: SealedBlock,
    posts: &mut Posts,
)
    requires physical { HasPhysical sizes.now }
    requires within { IsJournalWithin zone.old }
    requires rule { HasAct sizes.now (at.Journal zone.old) (item.Block block ∷ []) }
    requires none { posts.old ≡ [] }
    requires commits { block.stage ≡ stage.Commit }
    requires done { block.vios ≡ [] }
    requires due { journal.IsDue zone.old }
    ensures { (v : Vio) (vs : List Vio) → zone.old.filling ≡ v ∷ vs
        → posts.new
        ≡ (
          id.Device,
          item.Block (record {
            stage = stage.Cover;
            sequence = zone.old.log.sequence;
            head = (journal.next_block zone.old stage.Cover []).head;
            vios = v ∷ vs;
          }),
        )
        ∷ journal.all_again zone.old.waiting }
{
    journal_zone::act(sizes, zone, Item::Block(block), posts);
}

// A write whose call didn't fail goes on to the journal.
fn a_write_that_was_stored_goes_on<D: Disk>(
    sizes: &Sizes,
    zone: &mut DeviceZone,
    vio: BoxedVio,
    disk: &mut D,
    posts: &mut Posts,
)
    requires may { MayServe sizes.now zone.old (D.seen disk.old) posts.old }
    requires rule { HasAct sizes.now (at.Device zone.old) (item.Request vio ∷ []) }
    requires stores { vio.phase ≡ phase.Store }
    requires runs { zone.old.stopped ≡ false }
    requires durable { zone.old.superblock ≡ Durable }
    ensures { (Rose (D.seen disk.old).faults (D.seen disk.new).faults → ⊥)
        → (zone.new.stopped ≡ false)
        × (posts.new ≡ (id.Journal, item.Request (turned phase.Enter vio)) ∷ []) }
{
    device_zone::act(sizes, zone, Item::Request(vio), disk, posts);
}

// While the superblock doesn't last, a write waits, and that is flushed.
fn a_write_waits_for_the_superblock<D: Disk>(
    sizes: &Sizes,
    zone: &mut DeviceZone,
    vio: BoxedVio,
    disk: &mut D,
    posts: &mut Posts,
)
    requires may { MayServe sizes.now zone.old (D.seen disk.old) posts.old }
    requires rule { HasAct sizes.now (at.Device zone.old) (item.Request vio ∷ []) }
    requires stores { vio.phase ≡ phase.Store }
    requires runs { zone.old.stopped ≡ false }
    requires written { zone.old.superblock ≡ Written }
    ensures { (Rose (D.seen disk.old).faults (D.seen disk.new).faults → ⊥)
        → (posts.new ≡ (id.Device, item.Request vio) ∷ [])
        × (IsTrue D.trust.tells →
        (D.seen disk.new).log ≡ call.Flush true ∷ (D.seen disk.old).log) }
{
    device_zone::act(sizes, zone, Item::Request(vio), disk, posts);
}

// A leaf that isn't the page of its address maps it nowhere: it is damage.
fn a_leaf_of_another_page_is_damage<D: Disk>(
    sizes: &Sizes,
    zone: &mut DeviceZone,
    vio: BoxedVio,
    disk: &mut D,
    posts: &mut Posts,
)
    requires may { MayServe sizes.now zone.old (D.seen disk.old) posts.old }
    requires rule { HasAct sizes.now (at.Device zone.old) (item.Request vio ∷ []) }
    requires loads { vio.phase ≡ phase.LoadLeaf }
    requires stopped { zone.old.stopped ≡ true }
    requires tells { IsTrue D.trust.tells }
    ensures { (x : Pbn) (bytes : List ℕ) →
        (D.seen disk.new).log ≡ call.Read x bytes true ∷ (D.seen disk.old).log →
        ((mappings : List Mapped) →
        IsPage (leaf_head sizes.now.geometry vio.at.0 x) bytes mappings → ⊥)
        → posts.new ≡ (vio.home, item.Request (ended phase.Abort Damaged vio)) ∷ [] }
{
    device_zone::act(sizes, zone, Item::Request(vio), disk, posts);
}
