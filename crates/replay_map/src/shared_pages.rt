ghost use Rattle.std.specs.Prelude.{◌≡◌, ◌<◌, ◌++◌, ◌∷◌, [], ℕ, List, IfOk, get_or, length, Bool, true, Some};
ghost use Rattle.blk_base.specs.declared.place.Pbn.{Pbn};
ghost use Rattle.replay_map.specs.Shares.{IsLeastOf, IsLeastShared, has_page, is_marked};
ghost use Rattle.replay_map.specs.declared.links.Link.{Link as Page};

use crate::Link;
use blk_base::{Pbn, repeated};
use std::alloc::{AllocError, Global};

// The least block that has both a linked page and the data of an address; `None` where there is none. It goes twice over the
// pages and once over the mapped blocks, and takes a byte for each block up to the last that has a page.
pub(crate) fn least_shared(
    alloc: Global,
    links: &[Link],
    mapped: &[Pbn],
) -> Result<Option<Pbn>, AllocError>
    ensures { IfOk result (IsLeastShared links.now mapped.now) }
{
    let marks = marks_of(alloc, links)?;
    Ok(least_in(marks.as_slice(), mapped))
}

// A mark for each block up to the last that has a linked page: whether it has one.
fn marks_of(alloc: Global, links: &[Link]) -> Result<Vec<bool>, AllocError>
    ensures { IfOk result (λ marks.
        (block : ℕ) → is_marked marks.items block ≡ has_page links.now block) }
{
    let mut marks = repeated(alloc, false, blocks_to_last(links))?;
    for link in links {
        marks[link.at.0 as usize] = true;
    }
    Ok(marks)
}

// How many blocks there are up to the last that has a linked page.
fn blocks_to_last(links: &[Link]) -> usize
    ensures { (k : ℕ) (d : Page) → k < length links.now → (get_or links.now k d).at.0 < result }
{
    let mut count = 0;
    for link in links {
        count = count.max(link.at.0 as usize + 1);
    }
    count
}

// The least of these blocks that is marked.
fn least_in(marks: &[bool], mapped: &[Pbn]) -> Option<Pbn>
    ensures { IsLeastOf (is_marked marks.now) mapped.now result }
{
    let mut least = None;
    for at in mapped {
        if has_mark(marks, *at) {
            least = Some(lesser(least, *at));
        }
    }
    least
}

// Whether a block is marked.
fn has_mark(marks: &[bool], at: Pbn) -> bool
    ensures { result ≡ is_marked marks.now at.0 }
{
    let n = at.0 as usize;
    n < marks.len() && marks[n]
}

// The lesser of two blocks, of which there may be one.
fn lesser(one: Option<Pbn>, other: Pbn) -> Pbn
    ensures { (test : ℕ → Bool) (blocks : List Pbn) →
        IsLeastOf test blocks one → test other.0 ≡ true →
        IsLeastOf test (blocks ++ other ∷ []) (Some result) }
{
    match one {
        None => other,
        Some(least) => { if other.0 < least.0 { other } else { least } }
    }
}
