ghost use Rattle.std.specs.Prelude.{◌≡◌, ◌+◌, ◌≤◌, ◌++◌, ℕ, length, take, drop};
ghost use Rattle.blk_base.specs.declared.place.Mapping.{Mapping};
ghost use Rattle.byte_fields.specs.Mappings.{state_of, target_of, mapping_bytes, HoldsMapping};

use crate::{put, put_u8, put_u32, read_u8, read_u32};
use blk_base::{Mapping, Pbn};

/// Writes a mapping at a place, in 5 bytes.
#[tactic(auto, unfolding(crate::specs::Mappings::mapping_bytes))]
pub fn put_mapping(out: &mut [u8], at: usize, mapping: Mapping)
    requires { at + 5 ≤ length out.old }
    ensures front { take (at + 5) out.new ≡ take at out.old ++ mapping_bytes mapping }
    ensures rest { (k : ℕ) → at + 5 ≤ k → drop k out.new ≡ drop k out.old }
{
    let mut bytes = [0; 5];
    put_u8(&mut bytes, 0, state_of(mapping));
    put_u32(&mut bytes, 1, target_of(mapping));
    put(out, at, &bytes);
}

fn state_of(mapping: Mapping) -> u8
    ensures { result ≡ state_of mapping }
{
    match mapping {
        Mapping::Unmapped => 0,
        Mapping::Zero | Mapping::At(_) => 1,
    }
}

fn target_of(mapping: Mapping) -> u32
    ensures { result ≡ target_of mapping }
{
    match mapping {
        Mapping::Unmapped | Mapping::Zero => 0,
        Mapping::At(block) => block.0,
    }
}

/// The mapping that the 5 bytes at a place spell, if they spell one.
pub fn read_mapping(bytes: &[u8], at: usize) -> Mapping
    requires { at + 5 ≤ length bytes.now }
    ensures { (mapping : Mapping) → HoldsMapping mapping →
        take 5 (drop at bytes.now) ≡ mapping_bytes mapping → result ≡ mapping }
{
    let block = read_u32(bytes, at + 1);
    if read_u8(bytes, at) == 0 {
        Mapping::Unmapped
    } else if block == 0 {
        Mapping::Zero
    } else {
        Mapping::At(Pbn(block))
    }
}
