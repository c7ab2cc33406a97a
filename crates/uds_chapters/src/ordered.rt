ghost use Rattle.std.specs.Prelude.{◌≡◌, ◌↔◌, IsTrue, IfOk, IfErr, HoldsAt, length};
ghost use Rattle.std.specs.List.Sorted.{IsPartitionPoint, IsSearchInRange};
ghost use Rattle.uds_chapters.specs.Names.{IsBelow, AreRising};
ghost use Rattle.uds_chapters.specs.Chapters.{location_of};
ghost use Rattle.uds_chapters.specs.Finds.{IsUnder, IsOver};

use crate::Record;
use blk_base::Pbn;
use block_names::Name;

/// Where the record of a name stands among records whose names rise; as an error, where it would stand. It is found by
/// halving.
pub fn place_of(records: &[Record], name: &Name) -> Result<usize, usize>
    requires { AreRising records.now }
    ensures bound { IsSearchInRange result (length records.now) }
    ensures found { IfOk result (HoldsAt (λ one. one.name ≡ name.now) records.now) }
    ensures gap { IfErr result (IsPartitionPoint (IsUnder name.now) (IsOver name.now) records.now) }
{
    records.binary_search_by_key(name, |record| record.name)
}

/// The location that records whose names rise have for a name, which is found by halving.
pub fn location(records: &[Record], name: &Name) -> Option<Pbn>
    requires { AreRising records.now }
    ensures { result ≡ location_of name.now records.now }
{
    match place_of(records, name) {
        Ok(place) => Some(records[place].at),
        Err(_) => None,
    }
}

// Whether each name is below the next one.
pub(crate) fn are_rising(records: &[Record]) -> bool
    ensures { IsTrue result ↔ AreRising records.now }
{
    for next in 1..records.len() {
        if !is_below(&records[next - 1], &records[next]) {
            return false;
        }
    }
    true
}

fn is_below(one: &Record, other: &Record) -> bool
    ensures { IsTrue result ↔ IsBelow one.now other.now }
{
    one.name.cmp(&other.name).is_lt()
}
