ghost use Rattle.std.specs.Prelude.{◌≡◌, ◌-◌, ◌^◌, ◌<◌, [], ◌∷◌};
ghost use Rattle.core_model.specs.declared.zones.ZoneData.TheVariants as at;
ghost use Rattle.core_model.specs.PhysicalLimits.{IsPhysicalWithin};
ghost use Rattle.core_model.specs.Steps.{HasAct};
ghost use Rattle.step_parts.specs.Acts.{ActsAlone};
ghost use Rattle.step_parts.specs.ZoneSizes.{AreFew, HasPhysical};

use crate::requests::{hear_stop, serve_physical};
use crate::updates::take_decrement;
use core_model::PhysicalZone;
use data_vio::{Item, Sizes};
use step_parts::Posts;

/// What a physical zone does with the item in front of its inbox, to which a rule applies: it posts this.
pub fn act(sizes: &Sizes, zone: &mut PhysicalZone, item: Item, posts: &mut Posts)
    requires zones { 0 < sizes.now.zones }
    requires physical { HasPhysical sizes.now }
    requires few { AreFew sizes.now }
    requires within { IsPhysicalWithin (2 ^ 64 - 2) zone.old }
    requires rule { HasAct sizes.now (at.Physical zone.old) (item ∷ []) }
    requires none { posts.old ≡ [] }
    ensures { ActsAlone sizes.now (at.Physical zone.old) (item ∷ [])
        (at.Physical zone.new) posts.new }
{
    match item {
        Item::Request(vio) => serve_physical(sizes, zone, vio, posts),
        Item::Decrement(entry) => take_decrement(sizes, zone, entry, posts),
        Item::StopNotice => hear_stop(zone, posts),
        Item::Block(_) | Item::Report(_) | Item::Damage(_) => unreachable!(),
    }
}
