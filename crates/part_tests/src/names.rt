use blk_base::Block;
use block_names::{ConstantName, Murmur, Name, Namer, route, tag};

// The names of four blocks: zeros, 0x61, byte i = i mod 251, and that with the lowest bit of byte 4095 turned. They were
// computed by tools/names.py.
static NAMES: [[u8; 16]; 4] = [
    [
        0x81, 0xa3, 0xec, 0x86, 0x65, 0x7e, 0xe7, 0x84, 0x4a, 0x63, 0xfd, 0x81, 0x1c, 0x80, 0x08,
        0xb7,
    ],
    [
        0xcd, 0xad, 0x3c, 0x50, 0x5e, 0x39, 0x2d, 0xf7, 0x71, 0x24, 0x90, 0x4f, 0x43, 0x3d, 0x82,
        0x60,
    ],
    [
        0xf3, 0xd3, 0x11, 0x1e, 0x63, 0x0f, 0xf1, 0x8c, 0x88, 0x94, 0xa2, 0x4c, 0xe0, 0x1a, 0x9e,
        0x93,
    ],
    [
        0xd5, 0x6b, 0xcd, 0x59, 0x67, 0x5b, 0x32, 0x29, 0x26, 0x61, 0x2e, 0x2a, 0x61, 0x9c, 0x20,
        0x1e,
    ],
];

// Whether the block has the name with this place in `NAMES`.
fn has_name(block: &Block, number: usize) -> bool {
    number < 4 && Murmur.name(block) == Name::new(NAMES[number])
}

fn counting_block() -> Block {
    let mut block = Block::zero();
    for i in 0..4096_usize {
        block.bytes[i] = (i % 251) as u8;
    }
    block
}

#[test]
fn names_of_known_blocks(rt: HostRuntime) {
    let mut block = counting_block();
    let filled = Block {
        bytes: [0x61; 4096],
    };
    let known = [
        has_name(&Block::zero(), 0),
        has_name(&filled, 1),
        has_name(&block, 2),
    ];
    block.bytes[4095] ^= 1;
    let turned = has_name(&block, 3);
    assert_eq!(rt; (known, turned), ([true; 3], true));
}

#[test]
fn one_name_for_all(rt: HostRuntime) {
    let name = ConstantName.name(&counting_block());
    assert_eq!(rt; name, ConstantName.name(&Block::zero()));
}

// The name's bytes 0 to 3 are 81 a3 ec 86, its bytes 4 to 7 are 65 7e e7 84.
#[test]
fn tag_and_route(rt: HostRuntime) {
    let name = Name::new(NAMES[0]);
    let zones = [
        route(&name, 1),
        route(&name, 2),
        route(&name, 3),
        route(&name, 4),
    ];
    assert_eq!(rt; (tag(&name), zones), (0x86ec_a381, [0, 1, 2, 1]));
}
