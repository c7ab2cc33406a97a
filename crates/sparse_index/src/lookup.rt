ghost use Rattle.std.specs.Prelude.{◌≡◌, ◌+◌, ◌*◌, ◌%◌, ◌<◌, ◌≤◌, ◌^◌, ℕ, List, [], ◌∷◌, not, map, filter, take, drop, All, AllPairs, length, nat_lt, is_some, ◌&&◌};
ghost use Rattle.std.specs.List.{find};
ghost use Rattle.std.specs.Option.{option_map};
ghost use Rattle.uds_chapters.specs.Chapters.{location_of};
ghost use Rattle.index_advice.specs.Orders.{IsNewer};
ghost use Rattle.sparse_index.specs.Finds.{AreFalling, first_by, is_listed, location_by, newer_of};
ghost use Rattle.sparse_index.specs.Lookups.{first_missing, four_from};
ghost use Rattle.sparse_index.specs.Orders.{is_among};

use blk_base::Pbn;
use block_names::Name;
use uds_chapters::{Chapter, location};
use uds_index::{Region, Tagged, chapter_of};

/// The location that the chapter with this number has for a name.
pub(crate) fn location_by(chapters: &[Chapter], number: u32, name: &Name) -> Option<Pbn>
    requires { AllPairs IsNewer chapters.now }
    ensures { result ≡ location_by name.now chapters.now number }
{
    let chapter = chapter_of(chapters, number)?;
    location(chapter.records(), name)
}

/// The location in the first of the chapters with these tags that has the name.
pub(crate) fn first_tagged(chapters: &[Chapter], tagged: &[Tagged], name: &Name) -> Option<Pbn>
    requires { AllPairs IsNewer chapters.now }
    ensures { result
        ≡ first_by name.now chapters.now (map (λ one. one.number) tagged.now) }
{
    for one in tagged {
        if let Some(at) = location_by(chapters, one.number, name) {
            return Some(at);
        }
    }
    None
}

/// The number of the newest chapter among those with these numbers that has the name.
pub(crate) fn newest_among(chapters: &[Chapter], numbers: &[u32], name: &Name) -> Option<u32>
    requires { AllPairs IsNewer chapters.now }
    ensures { result
        ≡ option_map (λ chapter. chapter.number)
        (find (λ chapter. is_among numbers.now chapter && is_some (location_of name.now chapter.records))
        chapters.now) }
{
    let mut newest = None;
    for number in numbers {
        if location_by(chapters, *number, name).is_some() {
            newest = newer(newest, *number);
        }
    }
    newest
}

// The greater of two numbers, of which the first may not be there.
fn newer(one: Option<u32>, other: u32) -> Option<u32>
    ensures { result ≡ newer_of one other }
{
    match one {
        Some(number) if other < number => Some(number),
        _ => Some(other),
    }
}

/// The first of these tags whose chapter's number is below `end` and isn't among these.
pub(crate) fn first_other(tagged: &[Tagged], end: u32, numbers: &[u32]) -> Option<u32>
    requires { AreFalling tagged.now }
    ensures { result
        ≡ option_map (λ one. one.number)
        (find (λ one. not (is_listed numbers.now one.number))
        (filter (λ one. nat_lt one.number end) tagged.now)) }
{
    first_unlisted(&tagged[count_from(tagged, end)..], numbers)
}

// The first of these tags whose chapter's number isn't among these.
fn first_unlisted(tagged: &[Tagged], numbers: &[u32]) -> Option<u32>
    ensures { result
        ≡ option_map (λ one. one.number)
        (find (λ one. not (is_listed numbers.now one.number)) tagged.now) }
{
    for one in tagged {
        if !numbers.contains(&one.number) {
            return Some(one.number);
        }
    }
    None
}

// How many of these tags have a number from `end` on.
fn count_from(tagged: &[Tagged], end: u32) -> usize
    requires { AreFalling tagged.now }
    ensures inside { result ≤ length tagged.now }
    ensures older { drop result tagged.now
        ≡ filter (λ one. nat_lt one.number end) tagged.now }
{
    tagged.partition_point(|one| end <= one.number)
}

/// The first block of the four of a place that wasn't given.
pub(crate) fn first_missing(region: Region, number: u32, given: &[u32]) -> Option<u32>
    requires some { 0 < region.places }
    requires blocks { region.first + 4 * region.places < 2 ^ 32 }
    ensures { result
        ≡ first_missing given.now
        (four_from (region.first + 4 * (number % region.places))) }
{
    let first = region.first + 4 * (number % region.places);
    if !given.contains(&first) {
        Some(first)
    } else if !given.contains(&(first + 1)) {
        Some(first + 1)
    } else if !given.contains(&(first + 2)) {
        Some(first + 2)
    } else if !given.contains(&(first + 3)) {
        Some(first + 3)
    } else {
        None
    }
}
