ghost use Rattle.std.specs.Prelude.{◌≡◌};
ghost use Rattle.dirty_pages.specs.DirtyPoints.{clean, changed_at, handed_out, settled, due_of, unwritten_of, clean_of};

use blk_base::Point;

/// What of a page isn't durable.
///
/// A page that is changed again while it is being written has two points.
#[derive(Clone, Copy, PartialEq, Eq)]
pub struct DirtyPoints {
    /// The least point of the changes since the page was last handed out to be written.
    pub dirty: Option<Point>,
    /// While the page is being written, the point that it was handed out with.
    pub writing: Option<Point>,
}

impl DirtyPoints {
    /// All changes are durable.
    pub fn clean() -> DirtyPoints
        ensures { result ≡ clean }
    {
        DirtyPoints {
            dirty: None,
            writing: None,
        }
    }

    /// Whether all changes are durable.
    pub fn is_clean(self) -> bool
        ensures { result ≡ clean_of self }
    {
        self.dirty.is_none() && self.writing.is_none()
    }

    // The dirty points after a change at this point.
    pub(crate) fn changed(self, point: Point) -> DirtyPoints
        ensures { result ≡ changed_at point self }
    {
        let least = match self.dirty {
            Some(first) => first.min(point),
            None => point,
        };
        DirtyPoints {
            dirty: Some(least),
            writing: self.writing,
        }
    }

    // The dirty points after the page was handed out to be written.
    pub(crate) fn handed_out(self) -> DirtyPoints
        ensures { result ≡ handed_out self }
    {
        DirtyPoints {
            dirty: None,
            writing: self.dirty,
        }
    }

    // The dirty points after the write of what was handed out is durable.
    pub(crate) fn settled(self) -> DirtyPoints
        ensures { result ≡ settled self }
    {
        DirtyPoints {
            dirty: self.dirty,
            writing: None,
        }
    }

    // The first dirty point of a page that isn't being written.
    pub(crate) fn due(self) -> Option<u64>
        ensures { result ≡ due_of self }
    {
        match (self.writing, self.dirty) {
            (None, Some(first)) => Some(first.0),
            _ => None,
        }
    }

    // The least point of what isn't durable.
    pub(crate) fn unwritten(self) -> Option<u64>
        ensures { result ≡ unwritten_of self }
    {
        match (self.dirty, self.writing) {
            (Some(first), Some(point)) => Some(first.0.min(point.0)),
            (Some(point), None) | (None, Some(point)) => Some(point.0),
            (None, None) => None,
        }
    }
}
