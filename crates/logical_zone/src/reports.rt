ghost use Rattle.std.specs.Prelude.{◌≡◌, ◌-◌, ◌^◌, []};
ghost use Rattle.core_model.specs.LogicalLimits.{IsLogicalWithin};
ghost use Rattle.core_model.specs.LogicalRules as rules;
ghost use Rattle.core_model.specs.Trace.{Trace};

use crate::slot_changes::set_slot;
use core_model::LogicalZone;
use data_vio::{Remapping, Sizes};
use step_parts::Posts;

/// The report of a decrement: the slot of its request is set, where that waits for it; or else it is kept until that comes.
pub(crate) fn hear_report(
    sizes: &Sizes,
    zone: &mut LogicalZone,
    entry: Remapping,
    posts: &mut Posts,
)
    requires within { IsLogicalWithin (2 ^ 64 - 2) zone.old }
    requires none { posts.old ≡ [] }
    ensures { (made : Trace) × rules.LogicalHears sizes.now zone.old entry zone.new made posts.new }
{
    match zone.take_settling(entry.request) {
        Some(vio) => set_slot(zone, vio, posts),
        None => zone.keep_report(entry),
    }
}
