ghost use Rattle.std.specs.Prelude.{◌≡◌};
ghost use Rattle.map_zone.specs.PageWrites.{comes_first, lesser_point};

use blk_base::Point;

/// Whether the first is there, and the other isn't before it.
pub(crate) fn comes_first(leaf: Option<Point>, node: Option<Point>) -> bool
    ensures { result ≡ comes_first leaf node }
{
    match (leaf, node) {
        (Some(leaf), Some(node)) => leaf.0 <= node.0,
        (Some(_), None) => true,
        (None, _) => false,
    }
}

/// The lesser of two points, as far as they are there.
pub(crate) fn lesser_point(leaf: Option<Point>, node: Option<Point>) -> Option<Point>
    ensures { result ≡ lesser_point leaf node }
{
    match (leaf, node) {
        (Some(leaf), Some(node)) => Some(leaf.min(node)),
        (Some(low), None) | (None, Some(low)) => Some(low),
        (None, None) => None,
    }
}
