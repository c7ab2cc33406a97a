ghost use Rattle.std.specs.Prelude.{◌≡◌, ◌+◌, ◌++◌, ◌∷◌, [], None, Some, false, not, length, is_none, AllPairs};
ghost use Rattle.index_advice.specs.Books.{first_location};
ghost use Rattle.index_advice.specs.Kept.{known};
ghost use Rattle.index_advice.specs.Orders.{IsNewer};
ghost use Rattle.index_advice.specs.declared.look.Look.TheVariants.{Known};
ghost use Rattle.uds_index.specs.Places.{IsKept};
ghost use Rattle.sparse_index.specs.Finds.{FindsOther, IsFound, LeavesOut, first_number};
ghost use Rattle.sparse_index.specs.Keeps.{AreBoth, AreOlder, last_number};
ghost use Rattle.sparse_index.specs.Orders.{dense_chapters, dense_with, sparse_chapters, to_read};
ghost use Rattle.sparse_index.specs.Lookups.{at_rest, given_one, with_used};

use crate::hooks::is_hook;
use crate::lookup::{first_missing, first_other, first_tagged, location_by, newest_among};
use crate::recent::Recent;
use crate::tag_lists::{TagLists, dense_part, last_number, sparse_part};
use arrayvec::ArrayVec;
use blk_base::{Block, Pbn};
use block_names::{Name, tag};
use index_advice::{Advisor, Look};
use std::marker::Model;
use uds_chapters::Chapter;
use uds_index::Volume;

/// How many blocks a look asks for at most.
const ASKED: usize = 4;

/// A sparse index over the chapters of an image. It keeps their records in memory, so that bytes that aren't a chapter's change
/// no answer, and asks for the pages of a sparse chapter all the same.
#[derive(Drop)]
pub struct Sparse {
    volume: Volume,
    tags: TagLists,
    // The sparse chapters that are cached.
    recent: Recent,
    // Of the look that is under way.
    asked: Option<u32>,
    given: ArrayVec<u32, 4>,
    unread: bool,
}

impl Model for Sparse {
    ghost use Rattle.std.specs.Prelude.{◌+◌, ◌≤◌, IsSome, length};
    ghost use Rattle.sparse_index.specs.Keeps.{AreBoth};
    ghost use Rattle.sparse_index.specs.Lookups.{SparseIndex};

    ghost Value = { SparseIndex };

    ghost view = { λ s. record {
      book = s.volume;
      room = s.recent.room;
      cached = s.recent.numbers;
      asked = s.asked;
      given = s.given.items;
      unread = s.unread;
    } };

    ghost invariant = { λ s. record {
      asked : IsSome s.asked → length s.given.items ≤ 3;
      both : AreBoth s.volume.places s.volume.kept s.tags;
    } };
}

/// What a look found, and the sparse chapter that it used.
#[derive(Clone, Copy)]
pub(crate) struct Found {
    pub(crate) look: Look,
    pub(crate) used: Option<u32>,
}

impl Sparse {
    // An index over this book, of which no chapter is cached.
    pub(crate) fn over(volume: Volume, tags: TagLists, recent: Recent) -> Sparse
        requires both { AreBoth volume.places volume.kept tags }
        requires none { recent.numbers ≡ [] }
        ensures { result
            ≡ record
            { book = volume; room = recent.room; cached = []; asked = None; given = []; unread = false } }
    {
        Sparse {
            volume,
            tags,
            recent,
            asked: None,
            given: ArrayVec::new(),
            unread: false,
        }
    }

    /// How many chapters are kept.
    pub fn chapters(&self) -> u32
        ensures { result ≡ length self.now.book.kept }
    {
        self.volume.chapters()
    }
}

impl Advisor for Sparse {
    ghost use Rattle.std.specs.Prelude.{◌≡◌, false, IfSome, IfNone, is_none};
    ghost use Rattle.index_advice.specs.Books.{finished, learnt, no_book};
    ghost use Rattle.index_advice.specs.Advices.{HasDuePage, TakesDue};
    ghost use Rattle.sparse_index.specs.Lookups.{Answers, Follows, after_page};

    ghost tells = { false };

    ghost book = { λ s. no_book };

    ghost unread = { λ s. false };

    /// A look ends with the record of the first chapter in this order that has the name: the open one, the two newest dense ones
    /// that have its tag, those that are cached, the newest first, and for a hook the newest other sparse one that has a hook
    /// with its tag; or with `Nothing` exactly where none has it or a page that it asked for couldn't be read. Until then it
    /// asks for the pages of that last one, which is cached when they were given.
    fn look(&mut self, name: &Name) -> Look
        ensures { Answers name.now self.old result self.new }
    {
        if self.unread {
            self.rest();
            return Look::Nothing;
        }
        let found = self.find(name);
        match found.look {
            Look::Read(at) => self.asked = Some(at.0),
            Look::Known(_) | Look::Nothing => self.end(found.used),
        }
        found.look
    }

    /// The block that the look asked for is given; where it couldn't be read, the look fails. A block that wasn't asked for
    /// changes nothing.
    fn page(&mut self, at: Pbn, read: Option<&Block>)
        ensures { self.new ≡ after_page self.old at.0 (is_none read.entry) }
    {
        match self.asked {
            Some(asked) if asked == at.0 => self.take(asked, read.is_none()),
            _ => {}
        }
    }

    /// Learns that a block with this name is stored here. Where the open chapter has 680 other names it is closed first, so that
    /// the oldest dense chapter is sparse then.
    fn learn(&mut self, name: &Name, at: Pbn)
        ensures book { self.new.book
            ≡ learnt (record { name = name.now; at = at }) self.old.book }
        ensures same { Follows self.old self.new }
    {
        let last = self.last_dense();
        if self.volume.learn(name, at) {
            follow(&self.volume, &mut self.tags, &mut self.recent, last);
        }
    }

    fn write_due(&mut self, into: &mut Block) -> Option<Pbn>
        ensures some { IfSome result (λ at. TakesDue self.old.book self.new.book at.0) }
        ensures filled { IfSome result (λ at. HasDuePage self.old.book into.new) }
        ensures none { IfNone result ((self.old.book.due ≡ []) × (self.new ≡ self.old)) }
        ensures same { self.new ≡ record self.old { book = self.new.book } }
    {
        self.volume.write_due(into)
    }

    fn finish(&mut self)
        ensures book { self.new.book ≡ finished self.old.book }
        ensures same { Follows self.old self.new }
    {
        let last = self.last_dense();
        if self.volume.finish() {
            follow(&self.volume, &mut self.tags, &mut self.recent, last);
        }
    }
}

impl Sparse {
    // What the chapters say of a name.
    fn find(&self, name: &Name) -> Found
        ensures { IsFound name.now self.now result }
    {
        let kept = self.volume.kept();
        let places = self.volume.region().places;
        if let Some(at) = self.volume.open_location(name) {
            return known(at, None);
        }
        let dense = dense_part(places, kept);
        if let Some(at) = self.find_dense(dense, name) {
            return known(at, None);
        }
        let sparse = sparse_part(places, kept);
        let Some(number) = newest_among(sparse, self.recent.numbers(), name) else {
            return self.find_other(dense, sparse, name);
        };
        answer_of(location_by(sparse, number, name), Some(number))
    }

    // The location in the first of the two newest dense chapters with its tag that has the name.
    fn find_dense(&self, dense: &[Chapter], name: &Name) -> Option<Pbn>
        requires kept { IsKept self.now.book }
        requires dense { dense.now ≡ dense_chapters self.now.book }
        ensures { result ≡ first_location name.now (dense_with name.now self.now.book) }
    {
        let tagged = self.tags.dense_with(tag(name));
        first_tagged(dense, &tagged[..tagged.len().min(2)], name)
    }

    // What a sparse chapter says of a name that isn't cached.
    fn find_other(&self, dense: &[Chapter], sparse: &[Chapter], name: &Name) -> Found
        requires kept { IsKept self.now.book }
        requires dense { dense.now ≡ dense_chapters self.now.book }
        requires sparse { sparse.now ≡ sparse_chapters self.now.book }
        ensures { FindsOther self.now (to_read name.now self.now.cached self.now.book)
            (first_location name.now (to_read name.now self.now.cached self.now.book)) result.look result.used }
    {
        let Some(number) = self.other_chapter(dense, name) else {
            return answer_of(None, None);
        };
        let location = location_by(sparse, number, name);
        let missing = first_missing(self.volume.region(), number, self.given.as_slice());
        match missing {
            None => answer_of(location, Some(number)),
            Some(at) if self.given.len() < ASKED => Found {
                look: Look::Read(Pbn(at)),
                used: None,
            },
            Some(_) => answer_of(location, None),
        }
    }

    // The number of the sparse chapter that is read for a name.
    fn other_chapter(&self, dense: &[Chapter], name: &Name) -> Option<u32>
        requires kept { IsKept self.now.book }
        requires dense { dense.now ≡ dense_chapters self.now.book }
        ensures { result ≡ first_number (to_read name.now self.now.cached self.now.book) }
    {
        if !is_hook(name) {
            return None;
        }
        let tagged = self.tags.hooks_with(tag(name));
        first_other(tagged, last_number(dense), self.recent.numbers())
    }

    // The number of the last dense chapter, or 0.
    fn last_dense(&self) -> u32
        ensures value { result ≡ last_number (dense_chapters self.now.book) }
        ensures order { AllPairs IsNewer self.now.book.kept }
    {
        last_number(dense_part(self.volume.region().places, self.volume.kept()))
    }

    // A look ended, which used this chapter.
    fn end(&mut self, used: Option<u32>)
        ensures { self.new
            ≡ at_rest (record self.old { cached = with_used self.old.room self.old.cached used }) }
    {
        if let Some(number) = used {
            self.recent.mark(number);
        }
        self.rest();
    }

    // No look is under way.
    fn rest(&mut self)
        ensures { self.new ≡ at_rest self.old }
    {
        self.asked = None;
        self.given.clear();
        self.unread = false;
    }

    // The block that was asked for is given, or couldn't be read.
    fn take(&mut self, at: u32, failed: bool)
        requires { self.old.asked ≡ Some at }
        ensures { self.new ≡ given_one self.old at failed }
    {
        self.asked = None;
        self.given.push(at);
        self.unread = failed || self.unread;
    }
}

// The newest chapter was closed, before which the last dense one had this number. Those in whose index blocks it stands aren't
// cached any more.
fn follow(volume: &Volume, tags: &mut TagLists, recent: &mut Recent, last: u32)
    requires { AreOlder volume.now.places volume.now.kept last tags.old }
    ensures tags { AreBoth volume.now.places volume.now.kept tags.new }
    ensures recent { LeavesOut volume.now recent.old recent.new }
{
    let places = volume.region().places;
    let kept = volume.kept();
    let Some(newest) = kept.first() else {
        unreachable!()
    };
    recent.leave_out(places, newest.number());
    tags.follow(places, kept, last);
}

// This location was found, in the sparse chapter with this number.
fn known(at: Pbn, used: Option<u32>) -> Found
    ensures { result ≡ record { look = Known at; used = used } }
{
    Found {
        look: Look::Known(at),
        used,
    }
}

// This location was found, or none.
fn answer_of(location: Option<Pbn>, used: Option<u32>) -> Found
    ensures { result ≡ record { look = known location; used = used } }
{
    match location {
        Some(at) => known(at, used),
        None => Found {
            look: Look::Nothing,
            used,
        },
    }
}
