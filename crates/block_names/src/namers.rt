ghost use Rattle.std.specs.Prelude.{◌≡◌};
ghost use Rattle.block_names.specs.Names.{one_name};

use crate::Name;
use blk_base::Block;
use byte_fields::{put_u64, read_u64};

/// Names a block by its content. Nothing rests on what it answers: equal names only say that it is worth comparing.
pub trait Namer {
    fn name(&self, block: &Block) -> Name;
}

/// Names by MurmurHash3, the variant of 128 bits for 64-bit machines, over the 4096 bytes.
#[derive(Clone, Copy, Debug)]
pub struct Murmur;

/// Gives every block the same name.
#[derive(Clone, Copy, Debug)]
pub struct ConstantName;

const SEED: u64 = 0x62ea_60be;

const FIRST: u64 = 0x87c3_7b91_1142_53d5;

const SECOND: u64 = 0x4cf5_ad43_2745_937f;

impl Namer for Murmur {
    fn name(&self, block: &Block) -> Name {
        let mut low = SEED;
        let mut high = SEED;
        for part in 0..256_usize {
            let first = read_u64(&block.bytes, part * 16);
            let second = read_u64(&block.bytes, part * 16 + 8);
            low = step(
                low ^ scatter(first, FIRST, 31, SECOND),
                27,
                high,
                0x52dc_e729,
            );
            high = step(
                high ^ scatter(second, SECOND, 33, FIRST),
                31,
                low,
                0x3849_5ab5,
            );
        }
        let (low, high) = crossed(low ^ 4096, high ^ 4096);
        let (low, high) = crossed(mix(low), mix(high));
        let mut bytes = [0; 16];
        put_u64(&mut bytes, 0, low);
        put_u64(&mut bytes, 8, high);
        Name::new(bytes)
    }
}

impl Namer for ConstantName {
    #[tactic(auto, unfolding(crate::specs::Names::one_name))]
    fn name(&self, block: &Block) -> Name
        ensures { result ≡ one_name }
    {
        Name::new([0; 16])
    }
}

// Spreads the bits of eight bytes.
fn scatter(bytes: u64, before: u64, turn: u32, after: u64) -> u64 {
    bytes
        .wrapping_mul(before)
        .rotate_left(turn)
        .wrapping_mul(after)
}

// Carries one half on, with the other.
fn step(half: u64, turn: u32, other: u64, plus: u64) -> u64 {
    half.rotate_left(turn)
        .wrapping_add(other)
        .wrapping_mul(5)
        .wrapping_add(plus)
}

// Adds each half to the other.
fn crossed(low: u64, high: u64) -> (u64, u64) {
    let low = low.wrapping_add(high);
    (low, high.wrapping_add(low))
}

// Spreads the bits of one half.
fn mix(half: u64) -> u64 {
    let once = (half ^ (half >> 33)).wrapping_mul(0xff51_afd7_ed55_8ccd);
    let twice = (once ^ (once >> 33)).wrapping_mul(0xc4ce_b9fe_1a85_ec53);
    twice ^ (twice >> 33)
}
