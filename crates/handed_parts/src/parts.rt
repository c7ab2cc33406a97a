ghost use Rattle.std.specs.Prelude.{◌≡◌, ◌<◌, ◌≤◌, ◌%◌, ◌↔◌, ℕ, length, IfOk, IfSome, IsTrue};
ghost use Rattle.handed_parts.specs.Parts.{Has, opening, handed_out, reported, watermark_of, points_for, rounded, low_of};

use crate::Part;
use crate::least::{has_part, least_for, leave_out, lesser};
use blk_base::{Point, repeated};
use std::alloc::{AllocError, Global};
use std::marker::Model;

/// What the journal keeps of each zone, by its number: the parts that it handed out for it and that weren't reported, and
/// the low point that the zone reported last.
#[derive(Drop)]
pub struct HandedParts {
    room: u32,
    waiting: Vec<Part>,
    lows: Vec<Option<Point>>,
}

impl Model for HandedParts {
    ghost use Rattle.std.specs.Prelude.{◌≤◌, vec_capacity, vec_len};
    ghost use Rattle.handed_parts.specs.Parts.{Handed};

    ghost Value = { Handed };

    ghost view = { λ h. record { room = h.room; waiting = h.waiting.items; lows = h.lows.items } };

    ghost invariant = { λ h. record {
      capacity : h.room ≤ vec_capacity h.waiting;
      filled : vec_len h.waiting ≤ h.room;
    } };
}

impl HandedParts {
    /// Nothing was handed out to so many zones; there is room for so many parts that weren't reported.
    pub fn new(alloc: Global, zones: u32, room: u32) -> Result<HandedParts, AllocError>
        ensures { IfOk result (λ parts. parts ≡ opening zones room) }
    {
        let waiting = Vec::with_capacity(alloc, room as usize)?;
        let lows = repeated(alloc, None, zones as usize)?;
        Ok(HandedParts {
            room,
            waiting,
            lows,
        })
    }

    /// Whether there is room for one more part.
    pub fn has_room(&self) -> bool
        ensures { IsTrue result ↔ (length self.now.waiting < self.now.room) }
    {
        self.waiting.len() < self.room as usize
    }

    /// A part of an entry is handed out for a zone.
    pub fn hand_out(&mut self, zone: u32, point: Point)
        requires zone { zone < length self.old.lows }
        requires room { length self.old.waiting < self.old.room }
        ensures { self.new ≡ handed_out zone point self.old }
    {
        self.waiting.push_reserved(Part { zone, point });
    }

    /// Whether the zone's part at this point was handed out and wasn't reported.
    pub fn is_out(&self, zone: u32, point: Point) -> bool
        ensures { IsTrue result ↔ Has point.0 (points_for zone self.now.waiting) }
    {
        has_part(&self.waiting, zone, point.0)
    }

    /// A zone reports that a part is handled, or none, and its low point after that.
    pub fn report(&mut self, zone: u32, part: Option<Point>, low: Option<Point>)
        requires zone { zone < length self.old.lows }
        requires out { IfSome part (λ point. Has point.0 (points_for zone self.old.waiting)) }
        ensures { self.new ≡ reported zone part low self.old }
    {
        leave_out(&mut self.waiting, zone, part);
        self.lows[zone as usize] = low;
    }

    /// How far a zone has handled all entries, where `front` is the point of the first that wasn't handed out: a point of the
    /// half that adds. Each part of the zone below it was reported, and the zone's low point isn't below it.
    pub fn watermark(&self, zone: u32, front: Point) -> Point
        requires { zone < length self.now.lows }
        ensures value { result.0 ≡ watermark_of self.now zone front.0 }
        ensures adds { result.0 % 2 ≡ 0 }
        ensures front { result.0 ≤ front.0 }
        ensures parts { (p : ℕ) → Has p (points_for zone self.now.waiting) → result.0 ≤ rounded p }
        ensures low { IfSome (low_of self.now zone) (λ low. result.0 ≤ rounded low) }
    {
        Point(self.watermark_number(zone, front.0))
    }

    // The number of a zone's watermark.
    fn watermark_number(&self, zone: u32, front: u64) -> u64
        requires { zone < length self.now.lows }
        ensures { result ≡ watermark_of self.now zone front }
    {
        let bound = lesser(self.lows[zone as usize], front);
        least_for(&self.waiting, zone, bound) / 2 * 2
    }
}
