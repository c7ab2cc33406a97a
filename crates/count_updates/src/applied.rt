ghost use Rattle.std.specs.Prelude.{◌≡◌, length, IfOk};
ghost use Rattle.count_updates.specs.Applied.{AreApplied};
ghost use Rattle.count_updates.specs.Numbers.{all_sectors};

use crate::Found;
use blk_base::{Layout, Point, raise};
use std::alloc::{AllocError, Global};

/// For each sector of counters the greatest point above its commit point that was applied to it, or its commit point
/// where there is none.
pub fn applied_points(
    alloc: Global,
    layout: &Layout,
    found: &Found,
) -> Result<Vec<Point>, AllocError>
    requires { length found.now.commits.items ≡ all_sectors layout.now.geometry }
    ensures { IfOk result (λ applied.
        AreApplied layout.now.geometry found.now.updates.items found.now.commits.items
        applied.items) }
{
    let mut applied = Vec::from_slice(alloc, found.commits.as_slice())?;
    for update in &found.updates {
        match layout.place(update.at) {
            None => {}
            Some(place) => {
                let sector = layout.sector_number(
                    place.slab,
                    layout.sector_of_offset(place.offset),
                );
                raise(&mut applied, sector as usize, update.point);
            }
        }
    }
    Ok(applied)
}
