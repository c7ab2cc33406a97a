ghost use Rattle.std.specs.Prelude.{◌≡◌, ◌≤◌, ℕ, List, [], None, false, Option, IfOk, OnErr, length, max};
ghost use Rattle.blk_base.specs.Limits.{IsGeometry};
ghost use Rattle.blk_base.specs.Regions.{first_index_of, needed_blocks};
ghost use Rattle.disk_model.specs.Since.{IsUntouched};
ghost use Rattle.uds_index.specs.Loads.{IsLoadedBook, ReadEach};

use crate::Sparse;
use crate::recent::Recent;
use crate::tag_lists::TagLists;
use blk_base::{Geometry, Layout};
use disk_model::Disk;
use std::alloc::{AllocError, Global};
use uds_index::load_volume;

impl Sparse {
    /// Reads each index block of an image once, in rising order, and keeps the records of those that hold a page of a chapter;
    /// one that can't be read holds none. At most `cache` sparse chapters are cached later, and one where that is 0. All memory
    /// is taken before the first read; where there is none nothing was done.
    pub fn load<D: Disk>(
        alloc: Global,
        geometry: &Geometry,
        device: &mut D,
        cache: u32,
    ) -> Result<Sparse, AllocError>
        requires sizes { IsGeometry geometry.now }
        requires room { needed_blocks geometry.now ≤ (D.seen device.old).size }
        ensures book { IfOk result (λ sparse.
            (reads : List (Option (List ℕ))) × (length reads ≡ geometry.now.index)
            × ReadEach D.trust (first_index_of geometry.now) (D.seen device.old)
            (D.seen device.new) reads
            × IsLoadedBook geometry.now reads sparse.book) }
        ensures rests { IfOk result (λ sparse.
            sparse
            ≡ record
            { book = sparse.book; room = max cache 1; cached = []; asked = None; given = []; unread = false }) }
        ensures err { OnErr result (D.seen device.new ≡ D.seen device.old) }
        ensures untouched { IsUntouched D.trust.tells (D.seen device.old) (D.seen device.new) }
    {
        let layout = Layout::of(geometry);
        let places = geometry.index / 4;
        let recent = Recent::new(alloc, cache.max(1))?;
        let mut tags = TagLists::new(alloc, places)?;
        let volume = load_volume(alloc, &layout, device)?;
        tags.list(places, volume.kept());
        Ok(Sparse::over(volume, tags, recent))
    }
}
