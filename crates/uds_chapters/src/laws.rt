ghost use Rattle.std.specs.Prelude.{◌≡◌, ◌≢◌, ◌≤◌, ◌<◌, ◌++◌, ◌^◌, ℕ, List, Some, length};
ghost use Rattle.uds_chapters.specs.declared.entry.Record.{Record};
ghost use Rattle.uds_chapters.specs.declared.added.Added.{Added};
ghost use Rattle.uds_chapters.specs.declared.found.PageFind.{PageFind};
ghost use Rattle.uds_chapters.specs.Names.{AreRising};
ghost use Rattle.uds_chapters.specs.Chapters.{Adds, location_of, with_record, records_in};
ghost use Rattle.uds_chapters.specs.Pages.{IsPage};
ghost use Rattle.uds_chapters.specs.Finds.{Finds, location_in};

/// A record that was added is found by its name, all other names are found as before, and names go on rising.
pub fn a_record_is_found()
    ensures own { (new : Record) (records : List Record) →
        location_of new.name (with_record new records) ≡ Some new.at }
    ensures others { (new : Record) (name : List ℕ) (records : List Record) → name ≢ new.name
        → location_of name (with_record new records) ≡ location_of name records }
    ensures rising { (new : Record) (records : List Record) → AreRising records →
        AreRising (with_record new records) }
{}

/// Adding a record to a chapter does one thing.
pub fn what_is_added_is_one()
    ensures { (old new new' : List Record) (one : Record) (added added' : Added) →
        Adds old new one added → Adds old new' one added'
        → (added ≡ added') × (new ≡ new') }
{}

/// The four pages of a chapter have its records, in order.
pub fn pages_have_all_records()
    ensures { (records : List Record) → length records ≤ 680
        →
        records
        ≡ records_in 0 records
        ++ (records_in 1 records ++ (records_in 2 records ++ records_in 3 records)) }
{}

/// What a page says of a name is the location that its records have for it.
pub fn a_page_says_its_locations()
    ensures { (nonce number page : ℕ) (block name : List ℕ) (records : List Record)
        (found : PageFind)
        → IsPage nonce number page block records → Finds nonce number page block name found →
        location_in found ≡ location_of name records }
{}

/// A block is a page in one way: with one nonce, number and page, and with one list of records. It says one thing of a
/// name.
pub fn bytes_have_one_reading()
    ensures heads { (nonce nonce' number number' page page' : ℕ) (block : List ℕ)
        (records records' : List Record)
        → nonce < 2 ^ 64 → nonce' < 2 ^ 64 → number < 2 ^ 32 → number' < 2 ^ 32
        → IsPage nonce number page block records → IsPage nonce' number' page' block records' →
        (nonce ≡ nonce') × (number ≡ number') × (page ≡ page') }
    ensures records { (nonce number page : ℕ) (block : List ℕ) (records records' : List Record)
        → IsPage nonce number page block records → IsPage nonce number page block records' →
        records ≡ records' }
    ensures finds { (nonce number page : ℕ) (block name : List ℕ) (found found' : PageFind)
        → Finds nonce number page block name found → Finds nonce number page block name found' →
        found ≡ found' }
{}
