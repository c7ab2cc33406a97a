ghost use Rattle.std.specs.Prelude.{◌≡◌, ◌<◌, ◌^◌, All, length, IfOk};
ghost use Rattle.blk_base.specs.Limits.{IsGeometry};
ghost use Rattle.block_map_tree.specs.OpenedTree.{IsOpened, all_trees};
ghost use Rattle.image_model.specs.Maps.{Image};
ghost use Rattle.replay_counts.specs.Recovered.{HasCounts};
ghost use Rattle.replay_map.specs.Forms.{HasForm};
ghost use Rattle.replay_map.specs.Replayed.{HasMap};
ghost use Rattle.session_opening.specs.Starts.{AreLedTo, IsStart};

use crate::counts::{blocks_of, commits_of, counters_of};
use crate::pages::pages_of;
use blk_base::{Layout, Opened, Super};
use replay_counts::RecoveredCounts;
use replay_map::RecoveredMap;
use std::alloc::{AllocError, Global};

/// What a session starts with on the image with this superblock, this map and these counts. The map has the form of one, as
/// replaying gives it of any device, and so have the opened pages and the blocks to which they lead. It takes the memory of
/// it, and fails only where there is none.
pub fn opened_of(
    alloc: Global,
    head: &Super,
    map: &RecoveredMap,
    counts: &RecoveredCounts,
) -> Result<Opened, AllocError>
    requires sizes { IsGeometry head.now.geometry }
    requires limit { All (λ count. count < 2 ^ 8) counts.now.counts.items }
    requires form { HasForm head.now.geometry map.now.links.items map.now.slots.items }
    ensures start { IfOk result (λ opened.
        (image : Image) → image.geometry ≡ head.now.geometry → HasMap image map.now
        → HasCounts image counts.now.counts.items counts.now.sectors.items →
        IsStart image head.now opened) }
    ensures pages { IfOk result (λ opened.
        IsOpened (all_trees head.now.geometry) opened.pages.items) }
    ensures tree_pages { IfOk result (λ opened.
        AreLedTo head.now.geometry opened.pages.items opened.tree_pages.items) }
    ensures head { IfOk result (λ opened. opened.head ≡ head.now) }
    ensures counters { IfOk result (λ opened. opened.counters.items ≡ counts.now.counts.items) }
    ensures commits { IfOk result (λ opened.
        length opened.commits.items ≡ length counts.now.sectors.items) }
{
    let layout = Layout::of(&head.geometry);
    let pages = pages_of(alloc, &layout, &map.links)?;
    let counters = counters_of(alloc, &counts.counts)?;
    let commits = commits_of(alloc, &counts.sectors)?;
    let tree_pages = blocks_of(alloc, &map.links)?;
    Ok(Opened {
        head: *head,
        pages,
        counters,
        commits,
        tree_pages,
    })
}
