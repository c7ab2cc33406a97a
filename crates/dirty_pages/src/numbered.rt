ghost use Rattle.std.specs.Prelude.{◌≡◌, ◌<◌, ◌^◌};
ghost use Rattle.dirty_pages.specs.Minima.{is_first, is_at_most, lesser_of, node_of, number_in};

/// A number, and the slot that has it.
#[derive(Clone, Copy)]
pub(crate) struct Numbered {
    pub(crate) number: u64,
    pub(crate) slot: u32,
}

/// The number of a slot, if it has one.
pub(crate) fn node_of(slot: usize, number: Option<u64>) -> Option<Numbered>
    requires { slot < 2 ^ 32 }
    ensures { result ≡ node_of slot number }
{
    let slot = slot as u32;
    match number {
        Some(number) => Some(Numbered { number, slot }),
        None => None,
    }
}

/// The number alone.
pub(crate) fn number_in(node: Option<Numbered>) -> Option<u64>
    ensures { result ≡ number_in node }
{
    match node {
        Some(numbered) => Some(numbered.number),
        None => None,
    }
}

/// The one that comes first of two.
pub(crate) fn lesser(left: Option<Numbered>, right: Option<Numbered>) -> Option<Numbered>
    ensures { result ≡ lesser_of left right }
{
    if is_at_most(left, right) { left } else { right }
}

// Whether the first comes before the second, or is the same; none comes behind all numbers.
fn is_at_most(left: Option<Numbered>, right: Option<Numbered>) -> bool
    ensures { result ≡ is_at_most left right }
{
    match (left, right) {
        (Some(one), Some(other)) => is_first(one, other),
        (None, Some(_)) => false,
        (_, None) => true,
    }
}

// Whether the one has the lesser number, or the same one in a slot that isn't greater.
fn is_first(one: Numbered, other: Numbered) -> bool
    ensures { result ≡ is_first one other }
{
    if one.number == other.number {
        one.slot <= other.slot
    } else {
        one.number <= other.number
    }
}
