ghost use Rattle.std.specs.Prelude.{ℕ, ◌≡◌, ◌≢◌, ◌<◌, ◌↔◌, IfSome, IfNone, IsTrue, false};
ghost use Rattle.core_model.specs.ZoneSets.{IsBelow, Puts, TakesFirst, is_in};

use std::marker::Model;

/// A set of zones of a core, by their numbers. A contract sees it as the number whose bits are set at them.
#[derive(Clone, Copy, PartialEq, Eq)]
pub struct ZoneSet {
    bits: u32,
}

impl Model for ZoneSet {
    ghost use Rattle.std.specs.Prelude.{ℕ};

    ghost Value = { ℕ };

    ghost view = { λ s. s.bits };

    ghost inverse = { λ n. record { bits = n } };
}

impl ZoneSet {
    /// The set of no zone.
    pub fn empty() -> ZoneSet
        ensures { result ≡ 0 }
    {
        ZoneSet { bits: 0 }
    }

    /// Whether there is no zone in the set.
    pub fn is_empty(&self) -> bool
        ensures { IsTrue result ↔ (self.now ≡ 0) }
    {
        self.bits == 0
    }

    /// Whether a zone is in the set.
    pub fn has(&self, number: u32) -> bool
        requires { number < 32 }
        ensures { result ≡ is_in self.now number }
    {
        self.bits >> number & 1 == 1
    }

    /// Those of the set whose numbers are below this one.
    pub fn below(&self, end: u32) -> ZoneSet
        requires { end < 32 }
        ensures inside { (n : ℕ) → n < end → is_in result n ≡ is_in self.now n }
        ensures past { IsBelow end result }
    {
        ZoneSet {
            bits: self.bits & ((1 << end) - 1),
        }
    }

    /// Puts a zone into the set, or takes it out.
    pub fn put(&mut self, number: u32, inside: bool)
        requires { number < 32 }
        ensures { Puts self.old self.new number inside }
    {
        if inside {
            self.bits |= 1 << number;
        } else {
            self.bits = without(self.bits, number);
        }
    }

    /// The zone of the lowest number, which leaves the set; `None` exactly where there is none.
    pub fn take_first(&mut self) -> Option<u32>
        ensures some { IfSome result (TakesFirst self.old self.new) }
        ensures none { IfNone result ((n : ℕ) → is_in self.old n ≡ false) }
    {
        if self.bits == 0 {
            return None;
        }
        let first = self.bits.trailing_zeros();
        self.bits &= !(1 << first);
        Some(first)
    }
}

// The set without a zone.
fn without(bits: u32, number: u32) -> u32
    requires { number < 32 }
    ensures { Puts bits result number false }
{
    bits & !(1 << number)
}
