ghost use Rattle.std.specs.Prelude.{◌≡◌, ◌∷◌, [], ℕ, List, true, false, Some, IfSome, IsSome};
ghost use Rattle.block_names.specs.Names.{tag_of};
ghost use Rattle.index_advice.specs.Books.{DuePage, block_of, has_tag};
ghost use Rattle.index_advice.specs.declared.look.Look.TheVariants.{Read};
ghost use Rattle.blk_base.specs.declared.place.Pbn.{Pbn as Place};
ghost use Rattle.std.specs.declared.cmp.Ordering.TheVariants.{Less};
ghost use Rattle.uds_chapters.specs.Chapters.{Numbered, location_of};
ghost use Rattle.uds_chapters.specs.Names.{name_cmp};
ghost use Rattle.uds_chapters.specs.declared.entry.Record.{Record};

use blk_base::{Block, Pbn};
use block_names::Name;
use index_advice::{Advisor, Look};
use uds_chapters::{OpenChapter, PageRecords, a_record_is_found, location, read_page};
use uds_index::Uds;

// A name that a chapter has leads to where it was stored last.
fn the_newest_location_counts(chapter: &mut OpenChapter, name: &Name, at: Pbn) -> Option<Pbn>
    requires { IsSome (location_of name.now chapter.old) }
    ensures { result ≡ Some at }
{
    a_record_is_found();
    chapter.add(name, at);
    location(chapter.records(), name)
}

// Of a block that is read as a page the second name is above the first.
fn names_of_a_page_rise(block: &Block, nonce: u64, number: u32, i: u8) -> Option<PageRecords>
    ensures { IfSome result (λ records. (one other : Record) → records ≡ one ∷ other ∷ [] →
        name_cmp one.name other.name ≡ Less) }
{
    read_page(block, nonce, number, i)
}

// A look asks for a page of a chapter with the name's tag before it answers, where none was read yet.
fn a_look_asks_first(index: &mut Uds, name: &Name) -> Look
    ghost chapter: { Numbered }
    requires kept { index.old.book.kept ≡ chapter ∷ [] }
    requires tagged { has_tag (tag_of name.now) chapter ≡ true }
    requires unclosed { index.old.book.unclosed ≡ [] }
    requires cached { index.old.cached ≡ [] }
    requires given { index.old.given ≡ [] }
    requires read { index.old.unread ≡ false }
    ensures { (at : Place) × (result ≡ Read at) }
{
    index.look(name)
}

// Each page of a chapter goes to a block of its own.
fn each_page_goes_to_its_block(index: &mut Uds, into: &mut Block) -> Option<Pbn>
    ghost list: { (next : DuePage) × (later : List DuePage) × Unit {0} }
    requires { index.old.book.due ≡ list.0 ∷ list.1 }
    ensures next { result ≡ Some (record { 0 = block_of index.old.book list.0 }) }
    ensures later { index.new.book.due ≡ list.1 }
{
    index.write_due(into)
}
