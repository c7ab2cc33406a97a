ghost use Rattle.std.specs.Prelude.{◌<◌};

use blk_base::{Block, Pbn};
use block_names::Name;
use byte_fields::put_u32;
use test_images::{Spelling, difference, with_byte};
use uds_chapters::{
    Added, Chapter, OpenChapter, PageFind, Record, location, page_find, place_of, read_page,
};

// The spellings of these tests, and how often each answer comes, were computed by tools/chapters.py.
const NONCE: u64 = 0x1122_3344_5566_7788;

const NUMBER: u32 = 9;

static PAGES: [Spelling; 4] = [
    Spelling {
        weight: 241_620_953,
        parts: &[
            (
                0,
                b"\x88\x77\x66\x55\x44\x33\x22\x11\x09\x00\x00\x00\x00\xaa\x00\x00",
            ),
            (
                16,
                b"\x00\x00\x00\x00\x00\x00\x00\x00\x00\x00\x00\x00\x00\x00\x00\x00\xff\xff\xff\xff\x00\x00\x00\x00",
            ),
            (
                4072,
                b"\x3f\x9c\xca\xb5\xef\x00\x00\x00\x00\x00\x00\x00\x00\x00\x00\x00\x44\x01\x00\x00\x00\x00\x00\x00",
            ),
        ],
    },
    Spelling {
        weight: 255_108_493,
        parts: &[
            (
                0,
                b"\x88\x77\x66\x55\x44\x33\x22\x11\x09\x00\x00\x00\x01\xaa\x00\x00",
            ),
            (
                16,
                b"\x40\x1d\x58\xc5\x40\x01\x00\x00\x00\x00\x00\x00\x00\x00\x00\x00\x95\x01\x00\x00\x00\x00\x00\x00",
            ),
            (
                4072,
                b"\x7f\x57\x2f\x0c\x2f\x00\x00\x00\x00\x00\x00\x00\x00\x00\x00\x00\x84\x00\x00\x00\x00\x00\x00\x00",
            ),
        ],
    },
    Spelling {
        weight: 285_541_189,
        parts: &[
            (
                0,
                b"\x88\x77\x66\x55\x44\x33\x22\x11\x09\x00\x00\x00\x02\xaa\x00\x00",
            ),
            (
                16,
                b"\x7f\xb9\x22\x7b\x2f\x02\x00\x00\x00\x00\x00\x00\x00\x00\x00\x00\x84\x02\x00\x00\x00\x00\x00\x00",
            ),
            (
                4072,
                b"\xbf\x74\x87\xd1\x6f\x01\x00\x00\x00\x00\x00\x00\x00\x00\x00\x00\xc4\x01\x00\x00\x00\x00\x00\x00",
            ),
        ],
    },
    Spelling {
        weight: 298_412_192,
        parts: &[
            (
                0,
                b"\x88\x77\x66\x55\x44\x33\x22\x11\x09\x00\x00\x00\x03\xaa\x00\x00",
            ),
            (
                16,
                b"\xbf\xc3\x0d\x9a\x6f\x00\x00\x00\x00\x00\x00\x00\x00\x00\x00\x00\xc4\x00\x00\x00\x00\x00\x00\x00",
            ),
            (
                4072,
                b"\xff\xe0\x65\x5f\xaf\x01\x00\x00\x00\x00\x00\x00\x00\x00\x00\x00\x04\x02\x00\x00\x00\x00\x00\x00",
            ),
        ],
    },
];

// For the 680 names of a chapter, and for 320 others, on each of its pages: how often a name is there with its location,
// before the page, behind it, and between its names; and any other answer.
static THERE: [u32; 5] = [680, 1020, 1020, 0, 0];

static NOT_THERE: [u32; 5] = [0, 475, 487, 318, 0];

/// Names that are far apart, and don't come in their order.
pub(crate) fn name(number: u32) -> Name {
    let mut bytes = [0; 16];
    put_u32(&mut bytes, 0, number.wrapping_mul(2_654_435_761));
    put_u32(&mut bytes, 4, number);
    Name::new(bytes)
}

// The location of a name: the first one was stored again.
fn place(number: u32) -> Pbn {
    if number == 0 {
        Pbn(u32::MAX)
    } else {
        Pbn(number.wrapping_add(85))
    }
}

// Adds 680 names, one more, and the first one again: how many were new, and the other answers.
fn fill(open: &mut OpenChapter) -> (u32, Added, Added) {
    let mut new: u32 = 0;
    for number in 0..680_u32 {
        if open.add(&name(number), Pbn(number.wrapping_add(85))) == Added::New {
            new = new.wrapping_add(1);
        }
    }
    let past = open.add(&name(680), Pbn(1));
    let again = open.add(&name(0), place(0));
    (new, past, again)
}

fn page(chapter: &Chapter, i: u8) -> Block
    requires { i < 4 }
{
    let mut block = Block { bytes: [7; 4096] };
    chapter.page(i, NONCE, &mut block);
    block
}

// The first record of a page, and how many it has.
fn first_of(block: &Block, i: u8) -> Option<(usize, Record)> {
    let records = read_page(block, NONCE, NUMBER, i)?;
    let slice = records.as_slice();
    let first = slice.first()?;
    Some((slice.len(), *first))
}

// A chapter is full, closed, spelled and read, and its records are in order.
#[test]
fn a_chapter_has_680_names(rt: HostRuntime) {
    let mut open = OpenChapter::new();
    let answers = fill(&mut open);
    let count = open.records().len();
    let chapter = open.close(NUMBER);
    let closed = (chapter.number(), chapter.records().len());
    let left = open.records().len();
    let differences = [
        difference(&page(&chapter, 0), &PAGES[0]),
        difference(&page(&chapter, 1), &PAGES[1]),
        difference(&page(&chapter, 2), &PAGES[2]),
        difference(&page(&chapter, 3), &PAGES[3]),
    ];
    let records = chapter.records();
    let places = (
        place_of(records, &name(0)),
        location(records, &name(7)),
        location(records, &name(680)),
    );
    let first = Record {
        name: name(0),
        at: place(0),
    };
    assert_eq!(rt;
        (answers, count, closed, left),
        ((680, Added::Full, Added::Replaced), 680, (9, 680), 0)
    );
    assert_eq!(rt;
        (differences, places, first_of(&page(&chapter, 0), 0)),
        ([None; 4], (Ok(0), Some(Pbn(92)), None), Some((170, first)))
    );
}

// How often each answer comes for these names on the four pages, and any other answer.
fn tally(chapter: &Chapter, first: u32, last: u32) -> [u32; 5] {
    let mut tally: [u32; 5] = [0; 5];
    for i in 0..4_u8 {
        let block = page(chapter, i);
        for number in first..last {
            let kind = match page_find(&block, NONCE, NUMBER, i, &name(number)) {
                PageFind::At(at) if at == place(number) => 0,
                PageFind::Before => 1,
                PageFind::After => 2,
                PageFind::Absent => 3,
                PageFind::At(_) | PageFind::NotAPage => 4,
            };
            tally[kind] = tally[kind].wrapping_add(1);
        }
    }
    tally
}

#[test]
fn names_are_found_on_their_pages(rt: HostRuntime) {
    let mut open = OpenChapter::new();
    fill(&mut open);
    let chapter = open.close(NUMBER);
    let tallies = (tally(&chapter, 0, 680), tally(&chapter, 680, 1000));
    assert_eq!(rt; tallies, (THERE, NOT_THERE));
}

// What a block says of the first name, taken for the first page.
fn first_name(block: &Block) -> PageFind {
    page_find(block, NONCE, NUMBER, 0, &name(0))
}

// Every byte 0xff; a page of another chapter, place and image; 171 records; a byte of the head's zeros; a name above the
// next one; and a location that is too great. A page without records, and one with a byte behind them.
#[test]
fn other_blocks_hold_nothing(rt: HostRuntime) {
    let mut open = OpenChapter::new();
    let empty = OpenChapter::new().close(NUMBER);
    fill(&mut open);
    let chapter = open.close(NUMBER);
    let block = page(&chapter, 0);
    let ones = Block {
        bytes: [0xff; 4096],
    };
    let others = [
        first_name(&ones),
        page_find(&block, NONCE, 8, 0, &name(0)),
        page_find(&page(&chapter, 1), NONCE, NUMBER, 0, &name(0)),
        page_find(&block, 1, NUMBER, 0, &name(0)),
        first_name(&with_byte(page(&chapter, 0), 13, 171)),
        first_name(&with_byte(page(&chapter, 0), 14, 1)),
        first_name(&with_byte(page(&chapter, 0), 16, 255)),
        first_name(&with_byte(page(&chapter, 0), 36, 1)),
        first_name(&with_byte(page(&empty, 0), 4095, 1)),
    ];
    let pages = [first_name(&block), first_name(&page(&empty, 0))];
    assert_eq!(rt;
        (pages, others),
        (
            [PageFind::At(place(0)), PageFind::Before],
            [PageFind::NotAPage; 9]
        )
    );
}
