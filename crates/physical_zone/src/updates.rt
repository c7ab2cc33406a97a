ghost use Rattle.std.specs.Prelude.{◌≡◌, ◌-◌, ◌^◌, ◌<◌, [], ◌∷◌, ◌++◌, length};
ghost use Rattle.core_model.specs.PhysicalLimits.{IsPhysicalWithin};
ghost use Rattle.core_model.specs.PhysicalRules.{PhysicalTakes, tells};
ghost use Rattle.core_model.specs.Trace.{Trace};
ghost use Rattle.step_parts.specs.Rules.{Applies};

use blk_base::{Half, Mapping, Pbn, ZoneId};
use core_model::PhysicalZone;
use data_vio::{Item, POST_ROOM, Remapping, Sizes};
use step_parts::{Posts, home_of};
use vdo_model::Damage;

// A decrement found its counter at 0: its entry is kept, and the device's zone is told of the first one.
fn keep_stray(zone: &mut PhysicalZone, entry: Remapping, at: Pbn, posts: &mut Posts)
    requires within { IsPhysicalWithin (2 ^ 64 - 2) zone.old }
    requires room { length posts.old < POST_ROOM }
    ensures zone { zone.new ≡ record zone.old { strays = entry ∷ zone.old.strays } }
    ensures posts { posts.new ≡ posts.old ++ tells zone.old.strays at }
{
    if zone.strays.len() == 0 {
        let damage = Damage::Stray { at, count: 0 };
        posts.push(ZoneId::Device, Item::Damage(damage));
    }
    zone.strays.push(entry);
}

/// What a physical zone does with a decrement in front of its inbox, to which a rule applies: it is taken, or its counter is 0.
pub(crate) fn take_decrement(
    sizes: &Sizes,
    zone: &mut PhysicalZone,
    entry: Remapping,
    posts: &mut Posts,
)
    requires zones { 0 < sizes.now.zones }
    requires within { IsPhysicalWithin (2 ^ 64 - 2) zone.old }
    requires rule { Applies (PhysicalTakes sizes.now zone.old entry) }
    requires none { posts.old ≡ [] }
    ensures { (made : Trace) × PhysicalTakes sizes.now zone.old entry zone.new made posts.new }
{
    let Mapping::At(at) = entry.old else {
        unreachable!()
    };
    posts.first(home_of(sizes, entry.at), Item::Report(entry));
    match zone.counts.apply(Half::Decrement, at) {
        Ok(()) => {}
        Err(_) => keep_stray(zone, entry, at, posts),
    }
}
