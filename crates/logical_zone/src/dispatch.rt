ghost use Rattle.std.specs.Prelude.{◌≡◌, ◌-◌, ◌^◌, [], ◌∷◌};
ghost use Rattle.core_model.specs.declared.zones.ZoneData.TheVariants as at;
ghost use Rattle.core_model.specs.LogicalLimits.{IsLogicalWithin};
ghost use Rattle.core_model.specs.Steps.{HasAct};
ghost use Rattle.step_parts.specs.Acts.{ActsAlone};
ghost use Rattle.step_parts.specs.ZoneSizes.{HasPhysical};

use crate::reports::hear_report;
use crate::requests::{hear_stop, serve_logical};
use core_model::LogicalZone;
use data_vio::{Item, Sizes};
use step_parts::Posts;

/// What a logical zone does with the item in front of its inbox, to which a rule applies: it posts this.
pub fn act(sizes: &Sizes, zone: &mut LogicalZone, item: Item, posts: &mut Posts)
    requires physical { HasPhysical sizes.now }
    requires within { IsLogicalWithin (2 ^ 64 - 2) zone.old }
    requires rule { HasAct sizes.now (at.Logical zone.old) (item ∷ []) }
    requires none { posts.old ≡ [] }
    ensures { ActsAlone sizes.now (at.Logical zone.old) (item ∷ [])
        (at.Logical zone.new) posts.new }
{
    match item {
        Item::Request(vio) => serve_logical(sizes, zone, vio, posts),
        Item::StopNotice => hear_stop(zone, posts),
        Item::Report(entry) => hear_report(sizes, zone, entry, posts),
        Item::Block(_) => unreachable!(),
        Item::Decrement(_) => unreachable!(),
        Item::Damage(_) => unreachable!(),
    }
}
