ghost use Rattle.std.specs.Prelude.{◌≡◌, [], None, Some, false, not, length, is_none};
ghost use Rattle.std.specs.Map.{keys_of};
ghost use Rattle.uds_index.specs.Looks.{Caches, IsCached, IsGiven, at_rest};
ghost use Rattle.uds_index.specs.Tags.{IsListed};

use crate::tags::TagList;
use crate::volume::Volume;
use arrayvec::ArrayVec;
use blk_base::{Block, Pbn};
use block_names::Name;
use index_advice::{Advisor, Look};
use lru::LruCache;
use std::marker::Model;

/// The index on the device. It keeps the records of its chapters in memory, so that bytes that aren't the chapter's change no
/// answer, and asks for their pages all the same.
#[derive(Drop)]
pub struct Uds {
    volume: Volume,
    // The tags of its chapters.
    tags: TagList,
    // The index blocks that were read lately.
    cache: LruCache<u32, ()>,
    // Of the look that is under way.
    asked: Option<u32>,
    given: ArrayVec<u32, 12>,
    unread: bool,
}

impl Model for Uds {
    ghost use Rattle.std.specs.Map.{keys_of};
    ghost use Rattle.uds_index.specs.Looks.{Index, AsksFew};
    ghost use Rattle.uds_index.specs.Tags.{IsListed};

    ghost Value = { Index };

    ghost view = { λ u. record {
      book = u.volume;
      cached = keys_of u.cache.entries;
      asked = u.asked;
      given = u.given.items;
      unread = u.unread;
    } };

    ghost invariant = { λ u. record {
      few : AsksFew (record {
        book = u.volume;
        cached = keys_of u.cache.entries;
        asked = u.asked;
        given = u.given.items;
        unread = u.unread;
      });
      listed : IsListed u.volume u.tags;
    } };
}

impl Uds {
    // An index over this book, with an empty cache.
    pub(crate) fn over(volume: Volume, tags: TagList, cache: LruCache<u32, ()>) -> Uds
        requires listed { IsListed volume tags }
        requires empty { cache.entries ≡ [] }
        ensures { result
            ≡ record { book = volume; cached = []; asked = None; given = []; unread = false } }
    {
        Uds {
            volume,
            tags,
            cache,
            asked: None,
            given: ArrayVec::new(),
            unread: false,
        }
    }

    /// How many chapters are kept.
    pub fn chapters(&self) -> u32
        ensures { result ≡ length self.now.book.kept }
    {
        self.volume.chapters()
    }
}

impl Advisor for Uds {
    ghost use Rattle.std.specs.Prelude.{◌≡◌, [], true, IsTrue, IfSome, IfNone, is_none};
    ghost use Rattle.index_advice.specs.declared.advice.Advice.TheVariants.{Due, Finished, Learnt};
    ghost use Rattle.index_advice.specs.Advices.{Leads, HasDuePage};
    ghost use Rattle.index_advice.specs.Answers.{Looks, Reads};
    ghost use Rattle.uds_index.specs.Looks.{Answers, Asks, IsCached, IsGiven, SameLook};

    ghost tells = { true };

    ghost book = { λ u. u.book };

    ghost unread = { λ u. u.unread };

    /// A look ends with the newest record over the open chapter and the four newest chapters that have the name's tag, or with
    /// `Nothing` exactly where these hold none or a page that it asked for couldn't be read. Until then it asks for a page of
    /// these chapters that isn't cached and wasn't given in this look, at most three of a chapter and twelve in all: of the
    /// first of them, up to the one that has the name, whose page for the name is such a page.
    fn look(&mut self, name: &Name) -> Look
        ensures book { self.new.book ≡ self.old.book }
        ensures answer { Looks name.now self.old.book self.old.unread self.new.unread result }
        ensures exact { Answers name.now self.old result self.new }
        ensures asks { Asks name.now self.old result }
    {
        let found = if self.unread {
            Look::Nothing
        } else {
            self.volume
                .find(&self.tags, name, &self.cache, self.given.as_slice())
        };
        match found {
            Look::Read(at) => self.asked = Some(at.0),
            Look::Known(_) | Look::Nothing => self.rest(),
        }
        found
    }

    /// The page of the block that the look asked for is cached, if there is memory for it; where it couldn't be read, the look
    /// fails. A block that wasn't asked for changes nothing.
    fn page(&mut self, at: Pbn, read: Option<&Block>)
        ensures book { self.new.book ≡ self.old.book }
        ensures unread { Reads (is_none read.entry) self.old.unread self.new.unread }
        ensures exact { IsGiven self.old self.new at.0 (is_none read.entry) }
        ensures cached { IsCached self.old self.new at.0 (is_none read.entry) }
    {
        match self.asked {
            Some(asked) if asked == at.0 => self.take(asked, read.is_some()),
            _ => {}
        }
    }

    fn learn(&mut self, name: &Name, at: Pbn)
        ensures book { Leads self.old.book (Learnt name.now at) self.new.book }
        ensures same { SameLook self.old self.new }
    {
        if self.volume.learn(name, at) {
            self.volume.list_newest(&mut self.tags);
        }
    }

    fn write_due(&mut self, into: &mut Block) -> Option<Pbn>
        ensures some { IfSome result (λ at. Leads self.old.book (Due at) self.new.book) }
        ensures filled { IfSome result (λ at. HasDuePage self.old.book into.new) }
        ensures none { IfNone result ((self.old.book.due ≡ []) × (self.new.book ≡ self.old.book)) }
        ensures same { SameLook self.old self.new }
    {
        self.volume.write_due(into)
    }

    fn finish(&mut self)
        ensures book { Leads self.old.book Finished self.new.book }
        ensures same { SameLook self.old self.new }
    {
        if self.volume.finish() {
            self.volume.list_newest(&mut self.tags);
        }
    }
}

impl Uds {
    // No look is under way.
    fn rest(&mut self)
        ensures { self.new ≡ at_rest self.old }
    {
        self.asked = None;
        self.given.clear();
        self.unread = false;
    }

    // The block that was asked for is given, or couldn't be read.
    fn take(&mut self, at: u32, read: bool)
        requires { self.old.asked ≡ Some at }
        ensures exact { IsGiven self.old self.new at (not read) }
        ensures cached { IsCached self.old self.new at (not read) }
    {
        self.asked = None;
        self.given.push(at);
        if read {
            cache_page(&mut self.cache, at);
        } else {
            self.unread = true;
        }
    }
}

// The page is cached, if there is memory for it. Without memory it isn't, and that is all.
fn cache_page(cache: &mut LruCache<u32, ()>, at: u32)
    ensures { Caches at (keys_of cache.old.entries) (keys_of cache.new.entries) }
{
    drop(cache.put(at, ()));
}
