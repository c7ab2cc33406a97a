use blk_base::Block;

/// What a program of tools/ computed of a block: the sum of its bytes, each times its place from 1 on, and some of its
/// bytes with the place of the first.
pub struct Spelling {
    pub weight: u64,
    pub parts: &'static [(usize, &'static [u8])],
}

/// Where a block isn't spelled so; a byte that isn't there is past the block's end.
#[derive(Clone, Copy, Debug, PartialEq, Eq)]
pub enum Mismatch {
    Byte {
        at: usize,
        found: Option<u8>,
        wanted: u8,
    },
    Weight(u64),
}

// A byte that is another or elsewhere changes the weight.
fn weight(block: &Block) -> u64 {
    let mut sum: u64 = 0;
    for (i, byte) in block.bytes.iter().enumerate() {
        sum = sum.wrapping_add((i as u64).wrapping_add(1).wrapping_mul(u64::from(*byte)));
    }
    sum
}

fn other_byte(block: &Block, start: usize, bytes: &[u8]) -> Option<Mismatch> {
    for (i, &wanted) in bytes.iter().enumerate() {
        let at = start.saturating_add(i);
        let found = block.bytes.get(at).copied();
        if found != Some(wanted) {
            return Some(Mismatch::Byte { at, found, wanted });
        }
    }
    None
}

/// The first difference between a block and its spelling.
pub fn difference(block: &Block, spelling: &Spelling) -> Option<Mismatch> {
    for &(start, bytes) in spelling.parts {
        let difference = other_byte(block, start, bytes);
        if difference.is_some() {
            return difference;
        }
    }
    let weight = weight(block);
    if weight == spelling.weight {
        None
    } else {
        Some(Mismatch::Weight(weight))
    }
}

/// The block with another byte at a place.
pub fn with_byte(mut block: Block, at: usize, byte: u8) -> Block {
    if at < 4096 {
        block.bytes[at] = byte;
    }
    block
}

/// The block with so much added to a byte.
pub fn with_added(mut block: Block, at: usize, add: u8) -> Block {
    if at < 4096 {
        block.bytes[at] = block.bytes[at].wrapping_add(add);
    }
    block
}
