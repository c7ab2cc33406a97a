ghost use Rattle.std.specs.Prelude.{◌≡◌, [], ◌∷◌};
ghost use Rattle.core_model.specs.declared.zones.ZoneData.TheVariants as at;
ghost use Rattle.core_model.specs.JournalLimits.{IsJournalWithin};
ghost use Rattle.core_model.specs.Steps.{HasAct};
ghost use Rattle.step_parts.specs.Acts.{ActsAlone};
ghost use Rattle.step_parts.specs.ZoneSizes.{HasPhysical};

use crate::block_ends::{end_block, hear_stop};
use crate::entries::enter;
use core_model::JournalZone;
use data_vio::{Item, Sizes};
use step_parts::Posts;

/// What the journal does with the item in front of its inbox, to which a rule applies: it posts this.
pub fn act(sizes: &Sizes, zone: &mut JournalZone, item: Item, posts: &mut Posts)
    requires physical { HasPhysical sizes.now }
    requires within { IsJournalWithin zone.old }
    requires rule { HasAct sizes.now (at.Journal zone.old) (item ∷ []) }
    requires none { posts.old ≡ [] }
    ensures { ActsAlone sizes.now (at.Journal zone.old) (item ∷ [])
        (at.Journal zone.new) posts.new }
{
    match item {
        Item::Request(vio) => enter(sizes, zone, vio, posts),
        Item::Block(block) => end_block(sizes, zone, block, posts),
        Item::StopNotice => hear_stop(sizes, zone, posts),
        Item::Decrement(_) | Item::Report(_) | Item::Damage(_) => unreachable!(),
    }
}
