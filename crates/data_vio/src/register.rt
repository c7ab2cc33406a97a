ghost use Rattle.std.specs.Prelude.{◌≡◌, ◌<◌, [], ◌∷◌, IfOk, length, reverse};

use std::alloc::{AllocError, Global};
use std::marker::Model;
use vdo_model::ReportList;

/// A list that is written item after item. Its room, for `ROOM` items, is taken when it is made. A contract sees the newest
/// item first.
#[derive(Drop)]
pub struct Register<T, const ROOM: usize> {
    rows: Vec<T>,
}

impl<T, const ROOM: usize> Model for Register<T, ROOM> {
    ghost use Rattle.std.specs.Prelude.{◌≤◌, List, reverse, vec_capacity};

    ghost Value = { List T };

    ghost view = { λ r. reverse r.rows.items };

    ghost invariant = { λ r. ROOM ≤ vec_capacity r.rows };
}

impl<T: Drop, const ROOM: usize> Register<T, ROOM> {
    /// The empty list.
    pub fn new(alloc: Global) -> Result<Register<T, ROOM>, AllocError>
        ensures { IfOk result (λ rows. rows ≡ []) }
    {
        Ok(Register {
            rows: Vec::with_capacity(alloc, ROOM)?,
        })
    }

    /// One more item, the newest.
    pub fn push(&mut self, item: T)
        requires { length self.old < ROOM }
        ensures { self.new ≡ item ∷ self.old }
    {
        self.rows.push_reserved(item);
    }

    /// How many items there are.
    pub fn len(&self) -> usize
        ensures { result ≡ length self.now }
    {
        self.rows.len()
    }

    /// The items, the oldest first.
    pub fn as_slice(&self) -> &[T]
        ensures { self.now ≡ reverse result.now }
    {
        &self.rows
    }

    /// The same items as the rows of a report.
    pub fn into_list(self) -> ReportList<T>
        ensures { result ≡ self }
    {
        ReportList::from_vec(self.rows)
    }
}
