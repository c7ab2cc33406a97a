ghost use Rattle.std.specs.Prelude.{◌≡◌, ◌+◌, ◌*◌, ◌/◌, ◌<◌, ◌≤◌, ◌^◌, [], take, drop, map, AllPairs, IfOk, length};
ghost use Rattle.index_advice.specs.Orders.{IsNewer};
ghost use Rattle.uds_index.specs.Tags.{AreListed, AreTagsRising, tagged_with};
ghost use Rattle.sparse_index.specs.Hooks.{hooks_of};
ghost use Rattle.sparse_index.specs.Keeps.{AreBoth, AreOlder, HaveRoom, last_number};
ghost use Rattle.sparse_index.specs.Orders.{dense_count};

use crate::hooks::hooks_of;
use std::alloc::{AllocError, Global};
use std::marker::Model;
use uds_chapters::Chapter;
use uds_index::{TagList, Tagged, list_all};

/// The tags of the dense chapters, and those of all hooks. There is room for all that they will have, so that no call asks
/// for memory.
#[derive(Drop)]
pub(crate) struct TagLists {
    dense: TagList,
    hooks: TagList,
}

impl Model for TagLists {
    ghost use Rattle.sparse_index.specs.Keeps.{TwoLists};

    ghost Value = { TwoLists };

    ghost view = { λ l. record { dense = l.dense; hooks = l.hooks } };
}

impl TagLists {
    /// No tag, and room for those of an index with so many places.
    pub(crate) fn new(alloc: Global, places: u32) -> Result<TagLists, AllocError>
        requires { 4 * places < 2 ^ 32 }
        ensures room { IfOk result (λ lists. HaveRoom places lists) }
        ensures dense { IfOk result (λ lists. lists.dense.tags ≡ []) }
        ensures hooks { IfOk result (λ lists. lists.hooks.tags ≡ []) }
    {
        let dense = TagList::new(alloc, dense_count(places))?;
        let hooks = TagList::new(alloc, 4 * places)?;
        Ok(TagLists { dense, hooks })
    }

    /// The dense chapters with this tag, the newest first.
    pub(crate) fn dense_with(&self, tag: u32) -> &[Tagged]
        requires { AreTagsRising self.now.dense.tags }
        ensures { result.now ≡ tagged_with tag self.now.dense.tags }
    {
        self.dense.with_tag(tag)
    }

    /// The chapters that have a hook with this tag, the newest first.
    pub(crate) fn hooks_with(&self, tag: u32) -> &[Tagged]
        requires { AreTagsRising self.now.hooks.tags }
        ensures { result.now ≡ tagged_with tag self.now.hooks.tags }
    {
        self.hooks.with_tag(tag)
    }

    /// Lists these chapters, of which the newest stands first, in lists that have none.
    pub(crate) fn list(&mut self, places: u32, kept: &[Chapter])
        requires places { places < 2 ^ 31 }
        requires room { HaveRoom places self.old }
        requires few { length kept.now ≤ 4 * places }
        requires dense { self.old.dense.tags ≡ [] }
        requires hooks { self.old.hooks.tags ≡ [] }
        ensures { AreBoth places kept.now self.new }
    {
        list_all(dense_part(places, kept), &mut self.dense);
        list_hooks(kept, &mut self.hooks);
    }

    /// The newest of these chapters was closed. `last` is the number of the last chapter that was dense before.
    pub(crate) fn follow(&mut self, places: u32, kept: &[Chapter], last: u32)
        requires some { 0 < places }
        requires places { places < 2 ^ 31 }
        requires few { length kept.now ≤ 4 * places }
        requires order { AllPairs IsNewer kept.now }
        requires older { AreOlder places kept.now last self.old }
        ensures { AreBoth places kept.now self.new }
    {
        let Some(newest) = kept.first() else {
            unreachable!()
        };
        self.hooks.leave_out(places, newest.number());
        self.hooks.add(&hooks_of(newest));
        let dense = dense_part(places, kept);
        let oldest = last_number(dense);
        if last <= oldest {
            self.dense.leave_out(places, newest.number());
            self.dense.leave_out_older(oldest);
            self.dense.add(newest);
        } else {
            // Two dense chapters stood where the newest does, so that a sparse one is dense now.
            self.dense.clear();
            list_all(dense, &mut self.dense);
        }
    }
}

/// How many chapters are dense.
fn dense_count(places: u32) -> u32
    requires { places < 2 ^ 31 }
    ensures { result ≡ dense_count places }
{
    (places + 1) / 2
}

/// The dense ones of these chapters, and the sparse ones.
pub(crate) fn dense_part(places: u32, kept: &[Chapter]) -> &[Chapter]
    requires { places < 2 ^ 31 }
    ensures { result.now ≡ take (dense_count places) kept.now }
{
    let count = (dense_count(places) as usize).min(kept.len());
    &kept[..count]
}

pub(crate) fn sparse_part(places: u32, kept: &[Chapter]) -> &[Chapter]
    requires { places < 2 ^ 31 }
    ensures { result.now ≡ drop (dense_count places) kept.now }
{
    let count = (dense_count(places) as usize).min(kept.len());
    &kept[count..]
}

/// The number of the last of these chapters, or 0.
pub(crate) fn last_number(chapters: &[Chapter]) -> u32
    ensures { result ≡ last_number chapters.now }
{
    match chapters.last() {
        Some(chapter) => chapter.number(),
        None => 0,
    }
}

// Lists the hooks of these chapters, the oldest first.
fn list_hooks(kept: &[Chapter], hooks: &mut TagList)
    requires none { hooks.old.tags ≡ [] }
    requires room { 680 * length kept.now ≤ hooks.old.room }
    ensures listed { AreListed (map hooks_of kept.now) hooks.new.tags }
    ensures room { hooks.new.room ≡ hooks.old.room }
{
    let count = kept.len();
    for listed in 0..count {
        hooks.add(&hooks_of(&kept[count - 1 - listed]));
    }
}
