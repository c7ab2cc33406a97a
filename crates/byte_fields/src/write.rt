ghost use Rattle.std.specs.Prelude.{◌≡◌, ◌+◌, ◌≤◌, ◌++◌, ℕ, length, take, drop, replicate};
ghost use Rattle.byte_fields.specs.Fields.{le};

use byteorder::{ByteOrder, LittleEndian};

/// Writes these bytes at a place.
pub fn put(out: &mut [u8], at: usize, bytes: &[u8])
    requires { at + length bytes.now ≤ length out.old }
    ensures front { take (at + length bytes.now) out.new ≡ take at out.old ++ bytes.now }
    ensures rest { (k : ℕ) → at + length bytes.now ≤ k → drop k out.new ≡ drop k out.old }
{
    out[at..at + bytes.len()].copy_from_slice(bytes);
}

/// Writes `n` zeros at a place.
pub fn put_zeros(out: &mut [u8], at: usize, n: usize)
    requires { at + n ≤ length out.old }
    ensures front { take (at + n) out.new ≡ take at out.old ++ replicate n 0 }
    ensures rest { (k : ℕ) → at + n ≤ k → drop k out.new ≡ drop k out.old }
{
    out[at..at + n].fill(0);
}

/// Writes a byte at a place.
#[tactic(auto, unfolding(crate::specs::Fields::le))]
pub fn put_u8(out: &mut [u8], at: usize, n: u8)
    requires { at + 1 ≤ length out.old }
    ensures front { take (at + 1) out.new ≡ take at out.old ++ le 1 n }
    ensures rest { (k : ℕ) → at + 1 ≤ k → drop k out.new ≡ drop k out.old }
{
    put(out, at, &[n]);
}

/// Writes a number at a place, in 2 bytes.
#[tactic(auto, unfolding(crate::specs::Fields::le))]
pub fn put_u16(out: &mut [u8], at: usize, n: u16)
    requires { at + 2 ≤ length out.old }
    ensures front { take (at + 2) out.new ≡ take at out.old ++ le 2 n }
    ensures rest { (k : ℕ) → at + 2 ≤ k → drop k out.new ≡ drop k out.old }
{
    let mut bytes = [0; 2];
    LittleEndian::write_u16(&mut bytes, n);
    put(out, at, &bytes);
}

/// Writes a number at a place, in 4 bytes.
#[tactic(auto, unfolding(crate::specs::Fields::le))]
pub fn put_u32(out: &mut [u8], at: usize, n: u32)
    requires { at + 4 ≤ length out.old }
    ensures front { take (at + 4) out.new ≡ take at out.old ++ le 4 n }
    ensures rest { (k : ℕ) → at + 4 ≤ k → drop k out.new ≡ drop k out.old }
{
    let mut bytes = [0; 4];
    LittleEndian::write_u32(&mut bytes, n);
    put(out, at, &bytes);
}

/// Writes a number at a place, in 8 bytes.
#[tactic(auto, unfolding(crate::specs::Fields::le))]
pub fn put_u64(out: &mut [u8], at: usize, n: u64)
    requires { at + 8 ≤ length out.old }
    ensures front { take (at + 8) out.new ≡ take at out.old ++ le 8 n }
    ensures rest { (k : ℕ) → at + 8 ≤ k → drop k out.new ≡ drop k out.old }
{
    let mut bytes = [0; 8];
    LittleEndian::write_u64(&mut bytes, n);
    put(out, at, &bytes);
}
