ghost use Rattle.std.specs.Prelude.{◌≡◌, ◌<◌, ◌≤◌, ◌-◌, ℕ};
ghost use Rattle.blk_base.specs.Pages.{page_above};
ghost use Rattle.blk_base.specs.Limits.{logical_limit};
ghost use Rattle.block_map_tree.specs.Pages.{digits_of, path_of, IsPath, page_on};

use crate::numbers::SLOTS;
use crate::{Path, Slots};
use blk_base::Lba;

/// The path of an address in trees of a height, which is 2 or 3. The address is below the greatest logical size of that
/// height (39,560,640 and 4,000,000,000).
pub fn path(at: Lba, height: u32) -> Path
    requires height { (2 ≤ height) × (height ≤ 3) }
    requires inside { at.0 < logical_limit height }
    ensures path { result ≡ path_of height at.0 }
    ensures form { IsPath height result }
    ensures leads { (level : ℕ) → level < height →
        page_on result height level ≡ page_above level at.0 }
{
    let leaf = at.leaf();
    let mut slots = digits(leaf.index, height);
    slots.push(at.slot());
    Path {
        tree: leaf.tree,
        slots,
    }
}

// The slots that lead to a leaf: the digits of its number in its tree.
fn digits(leaf: u32, height: u32) -> Slots
    requires { (2 ≤ height) × (height ≤ 3) }
    ensures { result ≡ digits_of (height - 1) leaf }
{
    let mut slots = Slots::new();
    if height > 2 {
        slots.push((leaf / SLOTS % SLOTS) as u16);
    }
    slots.push((leaf % SLOTS) as u16);
    slots
}
