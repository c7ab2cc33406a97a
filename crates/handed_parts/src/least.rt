ghost use Rattle.std.specs.Prelude.{◌≡◌, ◌≤◌, ◌==◌, if◌then◌else◌, min, position, vec_capacity, vec_len};
ghost use Rattle.std.specs.List.{list_any};
ghost use Rattle.handed_parts.specs.Parts.{is_part, least_of, lesser, number_of, points_for, without_part};

use crate::Part;
use blk_base::Point;

/// The least of the points that a zone has among these, and of another.
pub(crate) fn least_for(parts: &[Part], zone: u32, bound: u64) -> u64
    ensures { result ≡ least_of (points_for zone parts.now) bound }
{
    let mut least = bound;
    for part in parts {
        least = with_part(*part, zone, least);
    }
    least
}

// The lesser of this number and that of the part, if it is the zone's.
fn with_part(part: Part, zone: u32, least: u64) -> u64
    ensures { result ≡ (if part.zone == zone then min least part.point.0 else least) }
{
    if part.zone == zone {
        least.min(part.point.0)
    } else {
        least
    }
}

/// The lesser of a low point, if there is one, and another point.
pub(crate) fn lesser(low: Option<Point>, bound: u64) -> u64
    ensures { result ≡ lesser (number_of low) bound }
{
    match low {
        Some(low) => low.0.min(bound),
        None => bound,
    }
}

/// The place of a zone's part at this point.
pub(crate) fn index_of(parts: &[Part], zone: u32, at: u64) -> Option<usize>
    ensures { result ≡ position (is_part zone at) parts.now }
{
    parts
        .iter()
        .position(|part| part.zone == zone && part.point.0 == at)
}

/// Whether a zone has a part at this point.
pub(crate) fn has_part(parts: &[Part], zone: u32, at: u64) -> bool
    ensures { result ≡ list_any (is_part zone at) parts.now }
{
    parts
        .iter()
        .any(|part| part.zone == zone && part.point.0 == at)
}

/// Leaves out the zone's part at this point, if there is one.
pub(crate) fn leave_out(parts: &mut Vec<Part>, zone: u32, point: Option<Point>)
    ensures items { parts.new.items ≡ without_part zone point parts.old.items }
    ensures len { vec_len parts.new ≤ vec_len parts.old }
    ensures capacity { vec_capacity parts.new ≡ vec_capacity parts.old }
{
    let Some(point) = point else {
        return;
    };
    if let Some(place) = index_of(parts, zone, point.0) {
        let _ = parts.remove(place);
    }
}
