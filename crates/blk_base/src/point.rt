ghost use Rattle.std.specs.Prelude.{◌≡◌, ◌<◌, ◌^◌, ℕ, length};
ghost use Rattle.blk_base.specs.Points.{point_of, half_of, IsBefore, raised};
ghost use Rattle.blk_base.specs.declared.point.Half.{Half};
ghost use Rattle.blk_base.specs.declared.sizes.TheConstants.{JOURNAL_ENTRIES};

/// Which half of a journal entry: the reference count that it adds, or the one that it takes away.
#[derive(Clone, Copy, Debug, PartialEq, Eq)]
pub enum Half {
    Increment,
    Decrement,
}

/// A place in the recovery journal: a sequence, an entry of its block, and a half of that entry, as one number.
/// Points are ordered as these triples.
#[derive(Clone, Copy, Debug, Default, PartialEq, Eq, PartialOrd, Ord)]
pub struct Point(pub u64);

impl Point {
    /// The point of a half of an entry. The sequence is below 2^55, and a journal block has at most 192 entries.
    pub fn of(sequence: u64, entry: u16, half: Half) -> Point
        requires sequence { sequence < 2 ^ 55 }
        requires entry { entry < JOURNAL_ENTRIES }
        ensures number { result.0 ≡ point_of sequence entry half }

        // Points are ordered as their triples.
        ensures rises { (s e : ℕ) (h : Half) → e < JOURNAL_ENTRIES
            → IsBefore sequence entry half s e h →
            result.0 < point_of s e h }
        ensures falls { (s e : ℕ) (h : Half) → e < JOURNAL_ENTRIES → result.0 < point_of s e h →
            IsBefore sequence entry half s e h }
    {
        let half_number = match half {
            Half::Increment => 0,
            Half::Decrement => 1,
        };
        Point(sequence * 512 + u64::from(entry) * 2 + half_number)
    }

    /// Which half of its entry it is of.
    pub fn half(self) -> Half
        ensures value { result ≡ half_of self.0 }
        ensures triple { (s e : ℕ) (h : Half) → self.0 ≡ point_of s e h → result ≡ h }
    {
        if self.0 % 2 == 0 {
            Half::Increment
        } else {
            Half::Decrement
        }
    }
}

/// Raises one of these points to another one, if that is above it.
pub fn raise(points: &mut [Point], number: usize, point: Point)
    requires { number < length points.old }
    ensures { points.new ≡ raised points.old number point }
{
    points[number] = points[number].max(point);
}
