ghost use Rattle.std.specs.Prelude.{◌≡◌, ◌<◌, [], ◌∷◌, ◌++◌, IfOk, length};
ghost use Rattle.core_model.specs.PageTrees.{but_page, is_listed};
ghost use Rattle.image_model.specs.Pages.{is_page};

use blk_base::PageId;
use std::alloc::{AllocError, Global};
use std::marker::Model;

/// Some pages, in the order in which they came in. Their room, for `ROOM` pages, is taken when the list is made.
#[derive(Drop)]
pub struct PageList<const ROOM: usize> {
    pages: Vec<PageId>,
}

impl<const ROOM: usize> Model for PageList<ROOM> {
    ghost use Rattle.std.specs.Prelude.{◌≤◌, List, vec_capacity};
    ghost use Rattle.blk_base.specs.declared.place.PageId.{PageId};

    ghost Value = { List PageId };

    ghost view = { λ l. l.pages.items };

    ghost invariant = { λ l. ROOM ≤ vec_capacity l.pages };
}

impl<const ROOM: usize> PageList<ROOM> {
    /// The empty list.
    pub fn new(alloc: Global) -> Result<PageList<ROOM>, AllocError>
        ensures { IfOk result (λ list. list ≡ []) }
    {
        Ok(PageList {
            pages: Vec::with_capacity(alloc, ROOM)?,
        })
    }

    /// One more page, behind the others.
    pub fn push(&mut self, page: PageId)
        requires { length self.old < ROOM }
        ensures { self.new ≡ self.old ++ page ∷ [] }
    {
        self.pages.push_reserved(page);
    }

    /// Whether the page is one of these.
    pub fn has(&self, page: PageId) -> bool
        ensures { result ≡ is_listed page self.now }
    {
        self.pages.iter().any(|other| is_same(*other, page))
    }

    /// The page is none of these any more.
    pub fn strike(&mut self, page: PageId)
        ensures { self.new ≡ but_page page self.old }
    {
        self.pages.retain(|other| !is_same(*other, page));
    }
}

// Whether two names are of one page.
fn is_same(page: PageId, other: PageId) -> bool
    ensures { result ≡ is_page page other }
{
    page.tree == other.tree && page.level == other.level && page.index == other.index
}
