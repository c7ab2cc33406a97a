ghost use Rattle.std.specs.Prelude.{◌≡◌, [], ◌∷◌, OnOk, OnErr, length, reverse};

use std::alloc::{AllocError, Global};
use std::marker::Model;

/// A list that was written item after item. A contract sees the newest item first, so that what was so at an earlier
/// moment is the rest of the list.
#[derive(Drop)]
pub struct ReportList<T> {
    rows: Vec<T>,
}

impl<T> Model for ReportList<T> {
    ghost use Rattle.std.specs.Prelude.{List, reverse};

    ghost Value = { List T };

    ghost view = { λ r. reverse r.rows.items };
}

impl<T: Drop> ReportList<T> {
    /// The empty list.
    pub fn new(alloc: Global) -> ReportList<T>
        ensures { result ≡ [] }
    {
        ReportList {
            rows: Vec::new(alloc),
        }
    }

    /// The list of these items, the newest of which stands last.
    pub fn from_vec(rows: Vec<T>) -> ReportList<T>
        ensures { result ≡ reverse rows.items }
    {
        ReportList { rows }
    }

    /// One more item, the newest. It fails where memory runs out, and then changes nothing.
    pub fn push(&mut self, item: T) -> Result<(), AllocError>
        ensures ok { OnOk result (self.new ≡ item ∷ self.old) }
        ensures err { OnErr result (self.new ≡ self.old) }
    {
        self.rows.push(item)?;
        Ok(())
    }

    /// How many items there are.
    pub fn len(&self) -> usize
        ensures { result ≡ length self.now }
    {
        self.rows.len()
    }

    /// The items, the oldest first.
    pub fn as_slice(&self) -> &[T]
        ensures { self.now ≡ reverse result.now }
    {
        &self.rows
    }
}
