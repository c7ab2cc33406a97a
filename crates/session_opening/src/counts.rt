ghost use Rattle.std.specs.Prelude.{◌≡◌, ◌<◌, ◌^◌, All, map, IfOk};

use blk_base::{Pbn, Point};
use replay_counts::SectorPoints;
use replay_map::Link;
use std::alloc::{AllocError, Global};

// The same counts, each of which fits a byte.
// Long to prove: a push may find no memory in each turn.
pub(crate) fn counters_of(alloc: Global, counts: &[u16]) -> Result<Vec<u8>, AllocError>
    requires { All (λ count. count < 2 ^ 8) counts.now }
    ensures { IfOk result (λ counters. counters.items ≡ counts.now) }
{
    let mut counters = Vec::with_capacity(alloc, counts.len())?;
    for count in counts {
        counters.push(*count as u8)?;
    }
    Ok(counters)
}

// The commit points of sectors.
pub(crate) fn commits_of(alloc: Global, sectors: &[SectorPoints]) -> Result<Vec<Point>, AllocError>
    ensures { IfOk result (λ commits. commits.items ≡ map (λ sector. sector.commit) sectors.now) }
{
    let mut commits = Vec::with_capacity(alloc, sectors.len())?;
    for sector in sectors {
        commits.push(sector.commit)?;
    }
    Ok(commits)
}

// The blocks of linked pages.
pub(crate) fn blocks_of(alloc: Global, links: &[Link]) -> Result<Vec<Pbn>, AllocError>
    ensures { IfOk result (λ blocks. blocks.items ≡ map (λ link. link.at) links.now) }
{
    let mut blocks = Vec::with_capacity(alloc, links.len())?;
    for link in links {
        blocks.push(link.at)?;
    }
    Ok(blocks)
}
