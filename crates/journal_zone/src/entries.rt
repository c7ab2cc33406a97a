ghost use Rattle.std.specs.Prelude.{◌≡◌, [], ◌∷◌, true, false};
ghost use Rattle.blk_base.specs.declared.place.ZoneId.TheVariants as id;
ghost use Rattle.core_model.specs.JournalRules as rules;
ghost use Rattle.core_model.specs.JournalRules.{JournalServes};
ghost use Rattle.core_model.specs.JournalLimits.{IsJournalWithin};
ghost use Rattle.core_model.specs.Trace.{Trace};
ghost use Rattle.data_vio.specs.declared.items.Item.TheVariants.{Block};
ghost use Rattle.data_vio.specs.declared.items.Phase.TheVariants.{Enter};
ghost use Rattle.data_vio.specs.declared.items.Stage.TheVariants.{Commit};
ghost use Rattle.step_parts.specs.ZoneSizes.{HasPhysical};

use crate::refusals::{Refusal, refuse};
use blk_base::ZoneId;
use core_model::JournalZone;
use data_vio::{BoxedVio, Item, Sizes};
use step_parts::Posts;

// With the first entry the block goes round that is sealed.
fn go_round(zone: &mut JournalZone, posts: &mut Posts)
    requires none { posts.old ≡ [] }
    ensures busy { zone.old.busy ≡ true → (zone.new ≡ zone.old) × (posts.new ≡ []) }
    ensures idle { zone.old.busy ≡ false → (zone.new ≡ record zone.old { busy = true })
        × (posts.new ≡ (id.Journal, Block (rules.next_block zone.old Commit [])) ∷ []) }
{
    if zone.is_busy() {
        return;
    }
    let block = zone.begin();
    posts.first(ZoneId::Journal, Item::Block(block));
}

// An entry is handed in, or waits for the next block.
fn hand_in(sizes: &Sizes, zone: &mut JournalZone, vio: BoxedVio, posts: &mut Posts)
    requires phase { vio.phase ≡ Enter }
    requires opened { rules.is_closed zone.old ≡ false }
    requires block { rules.has_block zone.old ≡ true }
    requires within { IsJournalWithin zone.old }
    requires none { posts.old ≡ [] }
    ensures { (made : Trace) × JournalServes sizes.now zone.old vio zone.new made posts.new }
{
    match zone.enter(vio) {
        Ok(()) => go_round(zone, posts),
        Err(vio) => zone.wait(vio),
    }
}

/// What the journal does with a request in front of its inbox: its entry is refused, or waits for the next block, or is
/// handed in.
pub(crate) fn enter(sizes: &Sizes, zone: &mut JournalZone, vio: BoxedVio, posts: &mut Posts)
    requires phase { vio.phase ≡ Enter }
    requires physical { HasPhysical sizes.now }
    requires within { IsJournalWithin zone.old }
    requires none { posts.old ≡ [] }
    ensures { (made : Trace) × JournalServes sizes.now zone.old vio zone.new made posts.new }
{
    if zone.is_closed() {
        refuse(sizes, Refusal::Stopped, vio, posts);
    } else if !zone.has_block() {
        refuse(sizes, Refusal::Full, vio, posts);
    } else {
        hand_in(sizes, zone, vio, posts);
    }
}
