ghost use Rattle.std.specs.Prelude.{◌≡◌, ◌<◌, length, replicate, slice_set, IfOk, IfSome, IfNone};
ghost use Rattle.dirty_pages.specs.DirtyPoints.{clean, changed_at, settled, dirty_points_at, with_dirty_points, IsFirstDue, NoneIsEverDue, HandsOut, NoneIsDue, IsBeingWritten, IsLowPoint, AreClean};

use crate::{DirtyPoints, Minima};
use blk_base::{Point, repeated};
use std::alloc::{AllocError, Global};
use std::marker::Model;

/// The dirty points of pages, by their numbers.
///
/// A page that was changed is handed out to be written, and reported when that write is durable. What changes it in
/// between is kept for the next time.
#[derive(Drop)]
pub struct DirtyPages {
    dirty_points: Vec<DirtyPoints>,
    due: Minima,
    unwritten: Minima,
}

impl Model for DirtyPages {
    ghost use Rattle.std.specs.Prelude.{◌≡◌, List, map};
    ghost use Rattle.dirty_pages.specs.declared.dirty_points.DirtyPoints.{DirtyPoints};
    ghost use Rattle.dirty_pages.specs.DirtyPoints.{due_of, unwritten_of};

    ghost Value = { List DirtyPoints };

    ghost view = { λ d. d.dirty_points.items };

    ghost invariant = { λ d. record {
      due : d.due ≡ map due_of d.dirty_points.items;
      unwritten : d.unwritten ≡ map unwritten_of d.dirty_points.items;
    } };
}

impl DirtyPages {
    /// So many pages, each of which is clean.
    pub fn new(alloc: Global, pages: u32) -> Result<DirtyPages, AllocError>
        ensures { IfOk result (λ dirty. dirty ≡ replicate pages clean) }
    {
        Ok(DirtyPages {
            dirty_points: repeated(alloc, DirtyPoints::clean(), pages as usize)?,
            due: Minima::new(alloc, pages)?,
            unwritten: Minima::new(alloc, pages)?,
        })
    }

    /// The dirty points of a page.
    pub fn dirty_points(&self, page: usize) -> DirtyPoints
        requires { page < length self.now }
        ensures { result ≡ dirty_points_at self.now page }
    {
        self.dirty_points[page]
    }

    /// A page was changed by the journal's entry of this point.
    pub fn change(&mut self, page: usize, point: Point)
        requires { page < length self.old }
        ensures { self.new ≡ with_dirty_points self.old page (changed_at point) }
    {
        let dirty_points = self.dirty_points[page];
        self.set(page, dirty_points.changed(point));
    }

    /// Hands out a page to be written: of the pages that aren't being written the one with the least first dirty point, if
    /// that is at most this point, and of several with that point the one with the least number. It is being written from
    /// now on, and what changes it isn't in that write.
    ///
    /// `None` exactly where no page that isn't being written has a first dirty point at or below this one.
    pub fn take_expired(&mut self, point: Point) -> Option<usize>
        ensures some { IfSome result (HandsOut self.old self.new point) }
        ensures none { IfNone result (NoneIsDue self.old point) }
        ensures same { IfNone result (self.new ≡ self.old) }
    {
        let (page, first) = self.due.least()?;
        if first > point.0 {
            return None;
        }
        let dirty_points = self.dirty_points[page];
        self.set(page, dirty_points.handed_out());
        Some(page)
    }

    /// The least point with which a page is due to be written: the first dirty point of those that aren't being written.
    /// `None` exactly where there is none.
    pub fn first_due(&self) -> Option<Point>
        ensures some { IfSome result (IsFirstDue self.now) }
        ensures none { IfNone result (NoneIsEverDue self.now) }
    {
        let (_, first) = self.due.least()?;
        Some(Point(first))
    }

    /// The write of a page that was handed out is durable: a flush covers it. What changed the page since isn't.
    pub fn written(&mut self, page: usize)
        requires { IsBeingWritten (dirty_points_at self.old page) }
        ensures { self.new ≡ with_dirty_points self.old page settled }
    {
        let dirty_points = self.dirty_points[page];
        self.set(page, dirty_points.settled());
    }

    /// The least point of a change that isn't durable; `None` exactly where each page is clean.
    pub fn low_point(&self) -> Option<Point>
        ensures some { IfSome result (IsLowPoint self.now) }
        ensures none { IfNone result (AreClean self.now) }
    {
        let (_, low) = self.unwritten.least()?;
        Some(Point(low))
    }

    // Gives a page these dirty points.
    fn set(&mut self, page: usize, dirty_points: DirtyPoints)
        requires { page < length self.old }
        ensures { self.new ≡ slice_set self.old page dirty_points }
    {
        self.dirty_points[page] = dirty_points;
        self.due.set(page, dirty_points.due());
        self.unwritten.set(page, dirty_points.unwritten());
    }
}
