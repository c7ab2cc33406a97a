ghost use Rattle.std.specs.Prelude.{◌≡◌, ◌+◌, ◌<◌, ◌≤◌, ◌↔◌, false, [], ◌∷◌, ◌++◌, length, IsTrue};

use arrayvec::ArrayVec;
use std::marker::Model;

/// At most `N` records, which a contract sees as a list. They lie in the value itself.
#[derive(Drop)]
pub struct Records<T, const N: usize> {
    items: ArrayVec<T, N>,
}

impl<T, const N: usize> Model for Records<T, N> {
    ghost use Rattle.std.specs.Prelude.{List};
    ghost use Rattle.std.specs.Coded.{coded_list};

    ghost Value = { List T };

    ghost coded = { coded_list T.code };

    ghost view = { λ list. list.items.items };
}

impl<T: Copy + Default, const N: usize> Records<T, N> {
    /// No record.
    pub fn new() -> Self
        ensures { result ≡ [] }
    {
        Records {
            items: ArrayVec::new(),
        }
    }

    /// How many records there are.
    pub fn len(&self) -> usize
        ensures value { result ≡ length self.now }
        ensures fits { result ≤ N }
    {
        self.items.len()
    }

    /// Whether there is none.
    pub fn is_empty(&self) -> bool
        ensures none { IsTrue result ↔ (self.now ≡ []) }
        ensures some { result ≡ false → 0 < length self.now }
    {
        self.items.is_empty()
    }

    /// Whether no more fits.
    pub fn is_full(&self) -> bool
        ensures full { IsTrue result ↔ (length self.now ≡ N) }
        ensures fits { length self.now ≤ N }
    {
        self.items.is_full()
    }

    /// Adds a record at the end.
    pub fn push(&mut self, item: T)
        requires { length self.old < N }
        ensures { self.new ≡ self.old ++ item ∷ [] }
    {
        self.items.push(item);
    }

    /// Adds these records at the end.
    pub fn extend_from_slice(&mut self, more: &[T])
        requires { length self.old + length more.now ≤ N }
        ensures { self.new ≡ self.old ++ more.now }
    {
        let Ok(()) = self.items.try_extend_from_slice(more) else {
            unreachable!()
        };
    }

    /// The records, the oldest first.
    pub fn as_slice(&self) -> &[T]
        ensures value { result.now ≡ self.now }
        ensures fits { length result.now ≤ N }
    {
        self.items.as_slice()
    }
}
