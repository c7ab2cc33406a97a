ghost use Rattle.std.specs.Prelude.{◌≡◌, ◌+◌, ◌*◌, ◌<◌, ◌≤◌, ◌++◌, ◌∷◌, [], List, IfOk, filter, nat_le, length, vec_len, vec_capacity};
ghost use Rattle.std.specs.List.Sorted.{IsStrictlyIncreasing};
ghost use Rattle.uds_chapters.specs.Chapters.{Numbered};
ghost use Rattle.index_advice.specs.Books.{chapters_elsewhere};
ghost use Rattle.uds_index.specs.Tags.{AreListed, AreTagsOf, AreTagsRising, ArePartedAt, tagged_with, with_tags};

use crate::volume::is_same_place;
use block_names::tag;
use std::alloc::{AllocError, Global};
use std::marker::Model;
use std::mem::swap;
use uds_chapters::Chapter;

/// How many tags a chapter has at most.
const TAGS: usize = 680;

/// A tag that some name of a chapter has, and the chapter's number.
#[derive(Clone, Copy, PartialEq, Eq)]
pub struct Tagged {
    pub tag: u32,
    pub number: u32,
}

/// The tags of the chapters that are kept, in rising order, those of newer chapters first. There is room for all that it will
/// have, so that no call asks for memory.
#[derive(Drop)]
pub struct TagList {
    room: usize,
    tags: Vec<Tagged>,
    // Where a list with one chapter more is put together.
    spare: Vec<Tagged>,
    // The tags of that chapter.
    own: Vec<u32>,
}

impl Model for TagList {
    ghost use Rattle.std.specs.Prelude.{◌≤◌, vec_capacity};
    ghost use Rattle.uds_index.specs.Tags.{Listed};

    ghost Value = { Listed };

    ghost view = { λ l. record { room = l.room; tags = l.tags.items } };

    ghost invariant = { λ l. record {
      tags : l.room ≤ vec_capacity l.tags;
      spare : l.room ≤ vec_capacity l.spare;
      own : 680 ≤ vec_capacity l.own;
    } };
}

impl TagList {
    /// No tag, and room for those of so many chapters.
    pub fn new(alloc: Global, chapters: u32) -> Result<TagList, AllocError>
        ensures { IfOk result (λ list. list ≡ record { room = 680 * chapters; tags = [] }) }
    {
        let room = TAGS * chapters as usize;
        let tags = Vec::with_capacity(alloc, room)?;
        let spare = Vec::with_capacity(alloc, room)?;
        let own = Vec::with_capacity(alloc, TAGS)?;
        Ok(TagList {
            room,
            tags,
            spare,
            own,
        })
    }

    /// The chapters with this tag, the newest first, which are found by halving.
    pub fn with_tag(&self, tag: u32) -> &[Tagged]
        requires { AreTagsRising self.now.tags }
        ensures { result.now ≡ tagged_with tag self.now.tags }
    {
        part_with(&self.tags, tag)
    }

    /// Leaves out the chapters that stand where this one does.
    pub fn leave_out(&mut self, places: u32, number: u32)
        requires { 0 < places }
        ensures listed { (kept : List Numbered) → AreListed kept self.old.tags →
            AreListed (chapters_elsewhere places number kept) self.new.tags }
        ensures room { self.new.room ≡ self.old.room }
    {
        self.tags
            .retain(|one| !is_same_place(places, one.number, number));
    }

    /// Leaves out the chapters that are older than this number.
    pub fn leave_out_older(&mut self, number: u32)
        ensures listed { (kept : List Numbered) → AreListed kept self.old.tags →
            AreListed (filter (λ chapter. nat_le number chapter.number) kept) self.new.tags }
        ensures room { self.new.room ≡ self.old.room }
    {
        self.tags.retain(|one| number <= one.number);
    }

    /// Leaves out all.
    pub fn clear(&mut self)
        ensures { self.new ≡ record self.old { tags = [] } }
    {
        self.tags.clear();
    }

    /// Adds the tags of a chapter that is newer than all others.
    pub fn add(&mut self, chapter: &Chapter)
        requires rising { AreTagsRising self.old.tags }
        requires room { length self.old.tags + 680 ≤ self.old.room }
        ensures listed { (kept : List Numbered) → AreListed kept self.old.tags →
            AreListed (chapter.now ∷ kept) self.new.tags }
        ensures room { self.new.room ≡ self.old.room }
    {
        fill_tags(&mut self.own, chapter);
        merge(&mut self.spare, &self.own, chapter.number(), &self.tags);
        swap(&mut self.tags, &mut self.spare);
    }
}

// The part with this tag of tags that rise.
fn part_with(tags: &[Tagged], tag: u32) -> &[Tagged]
    requires { AreTagsRising tags.now }
    ensures { result.now ≡ tagged_with tag tags.now }
{
    let from = &tags[count_below(tags, tag)..];
    &from[..count_up_to(from, tag)]
}

// How many of these tags, which rise, are below this one.
fn count_below(tags: &[Tagged], tag: u32) -> usize
    requires { AreTagsRising tags.now }
    ensures { ArePartedAt tag tags.now result }
{
    tags.partition_point(|one| one.tag < tag)
}

// How many of these tags, which rise, aren't above this one.
fn count_up_to(tags: &[Tagged], tag: u32) -> usize
    requires { AreTagsRising tags.now }
    ensures { ArePartedAt (tag + 1) tags.now result }
{
    tags.partition_point(|one| one.tag <= tag)
}

// Fills a list with the tags of a chapter.
fn fill_tags(own: &mut Vec<u32>, chapter: &Chapter)
    requires { 680 ≤ vec_capacity own.old }
    ensures own { AreTagsOf chapter.now own.new.items }
    ensures capacity { vec_capacity own.new ≡ vec_capacity own.old }
{
    own.clear();
    for record in chapter.records() {
        own.push_reserved(tag(&record.name));
    }
    own.sort_unstable();
    own.dedup();
}

// Puts the list together that has these tags of a chapter, which rise, before the same ones of others.
fn merge(into: &mut Vec<Tagged>, own: &[u32], number: u32, others: &[Tagged])
    requires own { IsStrictlyIncreasing own.now }
    requires others { AreTagsRising others.now }
    requires room { length own.now + length others.now ≤ vec_capacity into.old }
    ensures items { into.new.items ≡ with_tags number own.now others.now }
    ensures capacity { vec_capacity into.old ≤ vec_capacity into.new }
{
    into.clear();
    let mut rest = others;
    for tag in own {
        let below = count_below(rest, *tag);
        append(into, &rest[..below]);
        into.push_reserved(Tagged { tag: *tag, number });
        rest = &rest[below..];
    }
    append(into, rest);
}

// Adds these tags, for which there is room.
fn append(into: &mut Vec<Tagged>, tags: &[Tagged])
    requires { vec_len into.old + length tags.now ≤ vec_capacity into.old }
    ensures items { into.new.items ≡ into.old.items ++ tags.now }
    ensures len { vec_len into.new ≡ vec_len into.old + length tags.now }
    ensures capacity { vec_capacity into.old ≤ vec_capacity into.new }
{
    let Ok(()) = into.extend_from_slice(tags) else {
        unreachable!()
    };
}
