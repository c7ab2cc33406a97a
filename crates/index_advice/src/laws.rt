ghost use Rattle.std.specs.Prelude.{◌≡◌, ◌≢◌, ◌++◌, ℕ, true, List, [], Some};
ghost use Rattle.uds_chapters.specs.declared.entry.Record.{Record};
ghost use Rattle.index_advice.specs.declared.advice.Advice.{Advice};
ghost use Rattle.index_advice.specs.Books.{Book, newest_record, has_number, has_room, learnt};
ghost use Rattle.index_advice.specs.Advices.{Leads, LeadTo};
ghost use Rattle.index_advice.specs.Orders.{IsInOrder};

/// A list of advice leads from a book to one book.
pub fn advice_leads_to_one_book()
    ensures one { (old new new' : Book) (one : Advice) → Leads old one new → Leads old one new' →
        new ≡ new' }
    ensures lists { (old new new' : Book) (advice : List Advice) → LeadTo old advice new →
        LeadTo old advice new' → new ≡ new' }
{}

/// What two lists lead to one after the other, the joined list leads to, the newest first; and each list can be parted.
pub fn advice_joins()
    ensures joined { (old between new : Book) (first later : List Advice) →
        LeadTo old first between → LeadTo between later new
        → LeadTo old (later ++ first) new }
    ensures parted { (old new : Book) (first later : List Advice) → LeadTo old (later ++ first) new
        → (between : Book) × LeadTo old first between × LeadTo between later new }
{}

/// A book that is in order stays so over every list of advice.
pub fn books_stay_in_order()
    ensures { (old new : Book) (advice : List Advice) → IsInOrder old → LeadTo old advice new →
        IsInOrder new }
{}

/// Where there is room for a record that is learnt, its location is found from then on, and that of every other name as
/// before.
pub fn what_is_learnt_is_found()
    ensures own { (one : Record) (book : Book) → has_number book ≡ true →
        has_room one book.unclosed ≡ true
        → newest_record one.name (learnt one book) ≡ Some one.at }
    ensures others { (one : Record) (name : List ℕ) (book : Book) → name ≢ one.name →
        has_room one book.unclosed ≡ true
        → newest_record name (learnt one book) ≡ newest_record name book }
{}
