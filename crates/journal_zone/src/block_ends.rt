ghost use Rattle.std.specs.Prelude.{◌≡◌, ◌+◌, ◌<◌, ◌≤◌, [], ◌∷◌, ◌++◌, false, length, true};
ghost use Rattle.blk_base.specs.declared.place.ZoneId.TheVariants as id;
ghost use Rattle.blk_base.specs.declared.request.Answer.TheVariants.{Stopped};
ghost use Rattle.core_model.specs.JournalRules as rules;
ghost use Rattle.core_model.specs.JournalRules.{HasNext, IsSealable, JournalEnds};
ghost use Rattle.core_model.specs.JournalLimits.{IsJournalWithin};
ghost use Rattle.core_model.specs.Trace.{Trace};
ghost use Rattle.data_vio.specs.declared.items.Item.TheVariants.{Block, StopNotice};
ghost use Rattle.data_vio.specs.declared.items.Stage.TheVariants.{Commit, Cover, Fail};
ghost use Rattle.step_parts.specs.Rules.{Applies};
ghost use Rattle.step_parts.specs.ZoneSizes.{HasPhysical};

use crate::dropped::{drop_block, drop_filling};
use crate::refusals::{refuse_waiting, send_again};
use blk_base::{Mapping, PageId, ZoneId};
use core_model::JournalZone;
use data_vio::{BoxedVio, Item, POST_ROOM, Phase, Remapping, SealedBlock, Sizes, Stage};
use step_parts::{Posts, counts_of, physical_of};

// A request whose entry is committed goes to be counted where that has a block, else to its slot.
fn pass_on(sizes: &Sizes, vio: BoxedVio, posts: &mut Posts)
    requires physical { HasPhysical sizes.now }
    requires room { length posts.old < POST_ROOM }
    ensures { posts.new ≡ posts.old ++ rules.hands_to sizes.now vio vio.new ∷ [] }
{
    let (to, phase) = match vio.get().new {
        Mapping::At(_) => (counts_of(sizes, vio.get()), Phase::Count),
        Mapping::Zero | Mapping::Unmapped => (vio.get().home, Phase::Settle),
    };
    posts.push(to, Item::Request(vio.turn(phase)));
}

// The decrement of the block that the entry of an address replaces, where it replaces one. That of a page replaces none.
fn post_decrement(sizes: &Sizes, page: Option<PageId>, entry: Remapping, posts: &mut Posts)
    requires physical { HasPhysical sizes.now }
    requires room { length posts.old < POST_ROOM }
    ensures posts { posts.new ≡ posts.old ++ rules.decrement_for sizes.now page entry entry.old }
    ensures one { length posts.new ≤ length posts.old + 1 }
{
    if let (None, Mapping::At(at)) = (page, entry.old) {
        posts.push(physical_of(sizes, at), Item::Decrement(entry));
    }
}

// The oldest entry of a block is committed, and the block goes round with the others.
// One entry a step: so what a step posts is bounded, and the entries go to be counted in the order of their points.
fn commit(
    sizes: &Sizes,
    zone: &mut JournalZone,
    vio: BoxedVio,
    block: SealedBlock,
    posts: &mut Posts,
)
    requires next { HasNext zone.old.log }
    requires physical { HasPhysical sizes.now }
    requires within { IsJournalWithin zone.old }
    requires none { posts.old ≡ [] }
    ensures zone { zone.new ≡ rules.committed_by vio zone.old }
    ensures posts { posts.new ≡ rules.hands_out sizes.now vio ++ (id.Journal, Block block) ∷ [] }
{
    zone.commit(&vio);
    let page = vio.get().page;
    let entry = vio.remapping();
    pass_on(sizes, vio, posts);
    post_decrement(sizes, page, entry, posts);
    posts.push(ZoneId::Journal, Item::Block(block));
}

// No block is filled: none goes round any more.
fn come_to_rest(zone: &mut JournalZone, block: SealedBlock, posts: &mut Posts)
    requires done { block.vios ≡ [] }
    requires within { IsJournalWithin zone.old }
    requires none { posts.old ≡ [] }
    ensures zone { zone.new ≡ record zone.old { busy = false; waiting = [] } }
    ensures posts { posts.new ≡ rules.all_again zone.old.waiting }
{
    zone.rest(block);
    send_again(zone, posts);
}

// The next block is sealed, and those that waited for it come again.
fn seal_next(zone: &mut JournalZone, block: SealedBlock, posts: &mut Posts)
    requires done { block.vios ≡ [] }
    requires due { IsSealable zone.old.log }
    requires within { IsJournalWithin zone.old }
    requires none { posts.old ≡ [] }
    ensures zone { zone.new ≡ rules.sealed_by zone.old }
    ensures posts { posts.new
        ≡ (id.Device, Block (rules.next_block zone.old Cover zone.old.filling))
        ∷ rules.all_again zone.old.waiting }
{
    let sealed = zone.seal(block);
    posts.first(ZoneId::Device, Item::Block(sealed));
    send_again(zone, posts);
}

// The entries of a block are all committed: the next one is sealed, or there is none.
fn go_on(sizes: &Sizes, zone: &mut JournalZone, block: SealedBlock, posts: &mut Posts)
    requires stage { block.stage ≡ Commit }
    requires done { block.vios ≡ [] }
    requires rule { Applies (JournalEnds sizes.now zone.old block) }
    requires within { IsJournalWithin zone.old }
    requires none { posts.old ≡ [] }
    ensures { (made : Trace) × JournalEnds sizes.now zone.old block zone.new made posts.new }
{
    if zone.is_unfilled() {
        come_to_rest(zone, block, posts);
    } else {
        seal_next(zone, block, posts);
    }
}

// A block failed: no entry is handed in any more.
fn end_failed(sizes: &Sizes, zone: &mut JournalZone, mut block: SealedBlock, posts: &mut Posts)
    requires stage { block.stage ≡ Fail }
    requires physical { HasPhysical sizes.now }
    requires within { IsJournalWithin zone.old }
    requires none { posts.old ≡ [] }
    ensures { JournalEnds sizes.now zone.old block zone.new [] posts.new }
{
    drop_block(sizes, &mut block.vios, posts);
    drop_filling(sizes, zone, posts);
    refuse_waiting(sizes, zone, posts);
    zone.fail(block);
}

/// What the journal does with a block in front of its inbox, to which a rule applies.
pub(crate) fn end_block(
    sizes: &Sizes,
    zone: &mut JournalZone,
    mut block: SealedBlock,
    posts: &mut Posts,
)
    requires rule { Applies (JournalEnds sizes.now zone.old block) }
    requires physical { HasPhysical sizes.now }
    requires within { IsJournalWithin zone.old }
    requires none { posts.old ≡ [] }
    ensures { (made : Trace) × JournalEnds sizes.now zone.old block zone.new made posts.new }
{
    match block.stage {
        Stage::Commit => match block.vios.pop() {
            Some(vio) => commit(sizes, zone, vio, block, posts),
            None => go_on(sizes, zone, block, posts),
        },
        Stage::Fail => end_failed(sizes, zone, block, posts),
        _ => unreachable!(),
    }
}

/// The stop notice comes to the journal, which passes it on. Those that wait are aborted.
pub(crate) fn hear_stop(sizes: &Sizes, zone: &mut JournalZone, posts: &mut Posts)
    requires physical { HasPhysical sizes.now }
    requires within { IsJournalWithin zone.old }
    requires none { posts.old ≡ [] }
    ensures zone { zone.new ≡ record zone.old { notified = true; waiting = [] } }
    ensures posts { posts.new
        ≡ (id.Desk, StopNotice) ∷ rules.all_refused sizes.now Stopped zone.old.waiting }
{
    zone.hear_stop();
    posts.first(ZoneId::Desk, Item::StopNotice);
    refuse_waiting(sizes, zone, posts);
}
