ghost use Rattle.std.specs.Prelude.{◌≡◌, ◌≢◌, ◌+◌, ◌<◌, ◌≤◌, ℕ, List, AllPairs, IfSome, IfNone, length, option_copied, slice_index_or, vec_capacity};
ghost use Rattle.std.specs.Option.{option_or};
ghost use Rattle.uds_chapters.specs.Chapters.{Numbered, location_of};
ghost use Rattle.uds_chapters.specs.Names.{AreRising};
ghost use Rattle.index_advice.specs.Books.{chapter_of};
ghost use Rattle.index_advice.specs.Orders.{IsNewer};
ghost use Rattle.uds_index.specs.Held.{HasRecordsAt, IsJoined, IsPlaceAmong, KeepsPage, records_of, with_chapter};

use uds_chapters::{Chapter, OpenChapter, Record};

// Keeps a page of the chapter with this number, among chapters of which the newest stands first. Of a name that its chapter
// has already, the location there counts.
pub(crate) fn keep_page(kept: &mut Vec<Chapter>, number: u32, page: &[Record])
    requires order { AllPairs IsNewer kept.old.items }
    requires rising { AreRising page.now }
    requires few { length (records_of number kept.old.items) + length page.now ≤ 680 }
    requires room { (chapter : Numbered) → chapter.number ≡ number →
        length (with_chapter chapter kept.old.items) ≤ vec_capacity kept.old }
    ensures kept { KeepsPage number page.now kept.old.items kept.new.items }
    ensures capacity { vec_capacity kept.old ≤ vec_capacity kept.new }
{
    let place = place_among(kept, number);
    match records_at(kept, place, number) {
        Some(earlier) => {
            let chapter = joined(number, earlier, page);
            kept[place] = chapter;
        }
        None => {
            let chapter = joined(number, &[], page);
            let Ok(()) = kept.insert(place, chapter) else {
                unreachable!()
            };
        }
    }
}

/// The chapter with this number, which is found by halving.
pub fn chapter_of(kept: &[Chapter], number: u32) -> Option<&Chapter>
    requires { AllPairs IsNewer kept.now }
    ensures { option_copied result ≡ chapter_of number kept.now }
{
    let chapter = kept.get(place_among(kept, number))?;
    if chapter.number() == number {
        Some(chapter)
    } else {
        None
    }
}

// The place of the first chapter that isn't newer than this number, or behind the last.
fn place_among(kept: &[Chapter], number: u32) -> usize
    requires { AllPairs IsNewer kept.now }
    ensures { IsPlaceAmong number kept.now result }
{
    kept.partition_point(|chapter| chapter.number() > number)
}

// The records of the chapter at a place, if it has this number.
fn records_at(kept: &[Chapter], place: usize, number: u32) -> Option<&[Record]>
    ensures some { IfSome result (λ records. HasRecordsAt number kept.now place records.now) }
    ensures none { IfNone result
        (place < length kept.now → (d : Numbered) →
        (slice_index_or kept.now place d).number ≢ number) }
{
    let chapter = kept.get(place)?;
    if chapter.number() == number {
        Some(chapter.records())
    } else {
        None
    }
}

// The chapter of the records of a page and of earlier ones.
fn joined(number: u32, earlier: &[Record], page: &[Record]) -> Chapter
    requires earlier { AreRising earlier.now }
    requires page { AreRising page.now }
    requires few { length earlier.now + length page.now ≤ 680 }
    ensures { IsJoined number earlier.now page.now result }
{
    let mut records = OpenChapter::new();
    add_all(&mut records, page);
    add_all(&mut records, earlier);
    records.close(number)
}

// Adds these records, in place of others of their names.
fn add_all(chapter: &mut OpenChapter, records: &[Record])
    requires rising { AreRising records.now }
    requires few { length chapter.old + length records.now ≤ 680 }
    ensures few { length chapter.new ≤ length chapter.old + length records.now }
    ensures found { (name : List ℕ) →
        location_of name chapter.new
        ≡ option_or (location_of name records.now) (location_of name chapter.old) }
{
    for record in records {
        chapter.add(&record.name, record.at);
    }
}
