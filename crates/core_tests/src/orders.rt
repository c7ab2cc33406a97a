//! Sessions that are led by events in given orders.

use crate::asks::Ask::{Discard, Flush, Read, Write};
use crate::asks::Script;
use crate::judging::{FULL, NO_SPACE, OK, STOPPED, WRONG, are_off, first_other, judge};
use crate::sessions::{Image, Unplayed, device_of, driven, played};
use blk_base::{Pbn, Writer};
use disk_model::{Call, CallKind, FaultAt};
use std::alloc::{AllocError, Global};
use std::sync::Wait;
use std::test::Fail;
use vdo_core::Event::{Move, Step};
use vdo_core::{Event, Setup};

/// In which order the events come, again and again. In order, each zone steps, and then each of its outboxes moves.
enum Order {
    InOrder,
    /// The events of even places, and then the others from the last one on.
    Mixed,
    Reversed,
}

/// A session, and what it comes to.
struct Row {
    image: Image,
    setup: Setup,
    /// What a session before it asks, if any: it takes all data blocks.
    filling: Option<Script>,
    asks: Script,
    /// The block whose first write fails.
    fails: Option<u32>,
    order: Order,
    /// What happens once nothing else can, as long as no physical zone steps and nothing is moved to one. The desk is zone 0, the
    /// logical zone 1, then come the physical zones, the journal and the device. Then all happens again and again.
    held: &'static [Event],
    gives: &'static [&'static [u16]],
    /// How many data blocks are used at the end.
    used: u32,
    /// The blocks that are written, if they are looked at.
    written: &'static [u32],
}

const ONE: Row = Row {
    image: Image::LOW,
    setup: Setup {
        logical_zones: 1,
        physical_zones: 1,
        depth: 1,
    },
    filling: None,
    asks: Script::Sixteen,
    fails: None,
    order: Order::InOrder,
    held: &[],
    gives: &[],
    used: 0,
    written: &[],
};

/// Addresses below 812 are of the first of two zones, and those from there on of the second.
const TWO: Row = Row {
    setup: Setup {
        logical_zones: 2,
        physical_zones: 1,
        depth: 3,
    },
    asks: Script::Table(&[
        &[
            Write(5, 0x61),
            Write(900, 0x62),
            Read(5),
            Flush,
            Read(900),
            Write(5, 0x63),
            Read(5),
        ],
        &[
            Write(6, 0x71),
            Read(6),
            Write(901, 0x72),
            Read(901),
            Read(7),
            Flush,
        ],
    ]),
    gives: &[
        &[OK, OK, 0x61, OK, 0x62, OK, 0x63],
        &[OK, 0x71, OK, 0x72, 0, OK],
    ],
    used: 6,
    ..ONE
};

/// What is asked of a full image, each by a stream of its own. The requests draw places in the order of their streams, and a write
/// asks from the zone of its place on. So the writes to even addresses have blocks of the first of two zones. Each block that is
/// freed is used again.
const FULL_ONE: Row = Row {
    image: Image::SMALL,
    filling: Some(Script::Filling(15, &[])),
    used: 16,
    ..ONE
};

const FULL_TWO: Row = Row {
    image: Image {
        slabs: 2,
        ..Image::SMALL
    },
    setup: Setup {
        logical_zones: 1,
        physical_zones: 2,
        depth: 1,
    },
    filling: Some(Script::Filling(31, &[])),
    used: 32,
    ..ONE
};

static ROWS: [Row; 21] = [
    Row {
        asks: Script::Table(&[&[Write(5, 0x61), Read(5)]]),
        gives: &[&[OK, 0x61]],
        used: 2,
        ..ONE
    },
    // The journal has eight blocks, of which one stays free, and the first write's leaf takes one.
    Row {
        asks: Script::Table(&[&[
            Write(1, 1),
            Write(2, 2),
            Write(3, 3),
            Write(1, 4),
            Write(2, 5),
            Write(3, 6),
            Write(1, 7),
            Write(2, 8),
            Write(3, 9),
            Read(3),
            Flush,
        ]]),
        gives: &[&[OK, OK, OK, OK, OK, OK, FULL, FULL, FULL, 6, OK]],
        used: 4,
        ..ONE
    },
    // A discard, and a write of zeros.
    Row {
        asks: Script::Table(&[&[
            Write(5, 0x61),
            Discard(5),
            Read(5),
            Write(5, 0x62),
            Write(5, 0),
            Read(5),
            Discard(6),
            Read(6),
        ]]),
        gives: &[&[OK, OK, 0, OK, OK, 0, OK, 0]],
        used: 1,
        ..ONE
    },
    // The superblock comes first. Discards and writes of zeros take no data block, and a discard without a leaf takes no entry
    // either: the leaf and six of them fill the journal.
    Row {
        asks: Script::Table(&[&[
            Discard(1),
            Write(2, 0),
            Discard(3),
            Write(1, 0),
            Discard(2),
            Write(3, 0),
            Discard(1),
            Write(2, 0),
            Discard(3),
        ]]),
        gives: &[&[OK, OK, OK, OK, OK, OK, OK, FULL, FULL]],
        used: 1,
        written: &[0, 85, 2, 3, 4, 5, 6, 7, 8],
        ..ONE
    },
    // The third block of the journal: the entry of a discard is handed in.
    Row {
        asks: Script::Table(&[&[Write(5, 0x61), Discard(5), Read(5), Read(6)]]),
        fails: Some(4),
        gives: &[&[OK, STOPPED, STOPPED, 0]],
        used: 2,
        ..ONE
    },
    // Discards without a leaf pass: the journal isn't written.
    Row {
        asks: Script::Table(&[&[Discard(5), Discard(5), Discard(6), Read(5), Write(5, 0x61)]]),
        fails: Some(2),
        gives: &[&[OK, OK, OK, 0, STOPPED]],
        ..ONE
    },
    // The first data block: the entry of the leaf isn't handed in.
    Row {
        asks: Script::Table(&[&[Write(5, 0x61), Flush, Read(5)]]),
        fails: Some(85),
        gives: &[&[STOPPED, STOPPED, 0]],
        ..ONE
    },
    // The second one: that of the write isn't.
    Row {
        asks: Script::Table(&[&[Write(5, 0x61), Flush, Read(5)]]),
        fails: Some(86),
        gives: &[&[STOPPED, STOPPED, 0]],
        used: 1,
        ..ONE
    },
    // The first block of the journal: the entry of the leaf is handed in, and the address is as it was.
    Row {
        asks: Script::Table(&[&[Write(5, 0x61), Read(5), Read(6)]]),
        fails: Some(2),
        gives: &[&[STOPPED, 0, 0]],
        ..ONE
    },
    // The second one: the entry of the write is handed in.
    Row {
        asks: Script::Table(&[&[Write(5, 0x61), Read(5), Read(6)]]),
        fails: Some(3),
        gives: &[&[STOPPED, STOPPED, 0]],
        used: 1,
        ..ONE
    },
    TWO,
    Row {
        order: Order::Mixed,
        ..TWO
    },
    Row {
        order: Order::Reversed,
        ..TWO
    },
    // Two tickets in one zone, and then a block: the first to ask gets it.
    Row {
        asks: Script::Table(&[&[Discard(0)], &[Write(90, 1)], &[Write(91, 2)]]),
        held: &[Move(1, 2), Move(3, 2)],
        gives: &[&[OK], &[OK], &[NO_SPACE]],
        ..FULL_ONE
    },
    // Each asks another of two zones first, and then the other one. A block comes in the first zone, where the second write is the
    // older one.
    Row {
        asks: Script::Table(&[&[Discard(0)], &[Write(90, 1)], &[Write(91, 2)]]),
        held: &[
            Move(1, 2),
            Move(1, 3),
            Step(2),
            Step(3),
            Move(2, 3),
            Move(3, 2),
            Step(2),
            Step(3),
            Move(4, 2),
            Step(2),
        ],
        gives: &[&[OK], &[NO_SPACE], &[OK]],
        ..FULL_TWO
    },
    // It comes in the second zone.
    Row {
        asks: Script::Table(&[&[Discard(1)], &[Write(90, 1)], &[Write(91, 2)]]),
        held: &[
            Move(1, 2),
            Move(1, 3),
            Step(2),
            Step(3),
            Move(2, 3),
            Move(3, 2),
            Step(2),
            Step(3),
            Move(4, 3),
            Step(3),
        ],
        gives: &[&[OK], &[OK], &[NO_SPACE]],
        ..FULL_TWO
    },
    // It comes in the first zone, where one asked that hasn't asked the second yet.
    Row {
        asks: Script::Table(&[&[Discard(0)], &[Write(90, 1)], &[Write(91, 2)]]),
        held: &[
            Move(1, 2),
            Move(1, 3),
            Step(2),
            Step(3),
            Move(4, 2),
            Step(2),
        ],
        gives: &[&[OK], &[NO_SPACE], &[OK]],
        ..FULL_TWO
    },
    // Two blocks come in one zone.
    Row {
        asks: Script::Table(&[
            &[Discard(0)],
            &[Discard(2)],
            &[Write(90, 1)],
            &[Write(91, 2)],
        ]),
        held: &[
            Move(1, 2),
            Move(1, 3),
            Step(2),
            Step(3),
            Move(2, 3),
            Move(3, 2),
            Step(2),
            Step(3),
            Move(4, 2),
            Step(2),
            Step(2),
        ],
        gives: &[&[OK], &[OK], &[OK], &[OK]],
        ..FULL_TWO
    },
    // The first write has the oldest ticket in each zone, and a block comes in each. It drops the second one, which passes to the
    // ticket of the other write.
    Row {
        asks: Script::Table(&[
            &[Discard(0)],
            &[Discard(1)],
            &[Write(90, 1)],
            &[Write(91, 2)],
        ]),
        held: &[
            Move(1, 2),
            Step(2),
            Move(2, 3),
            Step(3),
            Move(1, 3),
            Step(3),
            Move(4, 2),
            Step(2),
            Move(4, 3),
            Step(3),
        ],
        gives: &[&[OK], &[OK], &[OK], &[OK]],
        ..FULL_TWO
    },
    // Both lack a page. The first finds no block for it, and then the second doesn't.
    Row {
        asks: Script::Table(&[&[Write(900, 1)], &[Write(901, 2)]]),
        held: &[],
        gives: &[&[NO_SPACE], &[NO_SPACE]],
        ..FULL_TWO
    },
    // A block comes behind the first one's answer: it is the page's, and the second one finds none for its data.
    Row {
        asks: Script::Table(&[&[Discard(0)], &[Write(900, 1)], &[Write(901, 2)]]),
        held: &[Move(1, 2), Step(2), Step(2), Move(3, 2), Step(2)],
        gives: &[&[OK], &[NO_SPACE], &[NO_SPACE]],
        ..FULL_ONE
    },
];

/// More rounds of events than a session has work for.
const ROUNDS: u32 = 100;

// The event of a number, in an order of those of so many zones: the step of a zone, and then the moves from it.
fn event_of(zones: u32, order: &Order, number: u32) -> Event {
    let row = zones.wrapping_add(1).max(1);
    let count = zones.wrapping_mul(row);
    let half = count / 2;
    let k = match order {
        Order::InOrder => number,
        Order::Reversed => count.wrapping_sub(number).wrapping_sub(1),
        Order::Mixed if number < count.wrapping_sub(half) => number.wrapping_mul(2),
        Order::Mixed => count.wrapping_sub(number).wrapping_mul(2).wrapping_sub(1),
    };
    match k % row {
        0 => Step(k / row),
        to => Move(k / row, to.wrapping_sub(1)),
    }
}

// All events again and again, but for the steps of the zones from 2 on up to this one, and the moves to them.
fn add_rounds(
    events: &mut Vec<Event>,
    zones: u32,
    order: &Order,
    end: u32,
) -> Result<(), AllocError> {
    let count = zones.wrapping_mul(zones.wrapping_add(1)).max(1);
    for turn in 0..count.wrapping_mul(ROUNDS) {
        let event = event_of(zones, order, turn % count);
        let zone = match event {
            Step(zone) | Move(_, zone) => zone,
        };
        if zone < 2 || end <= zone {
            events.push(event)?;
        }
    }
    Ok(())
}

// The events of a row.
fn events_of(alloc: Global, row: &Row) -> Result<Vec<Event>, AllocError> {
    let zones = u32::from(row.setup.logical_zones)
        .wrapping_add(u32::from(row.setup.physical_zones))
        .wrapping_add(3);
    let mut events = Vec::new(alloc);
    if row.filling.is_some() {
        add_rounds(&mut events, zones, &row.order, zones.wrapping_sub(2))?;
    }
    events.extend_from_slice(row.held)?;
    add_rounds(&mut events, zones, &row.order, 0)?;
    Ok(events)
}

// Whether these blocks are written, one after another.
fn are_written(calls: &[Call], blocks: &[u32]) -> bool {
    let mut written = 0_usize;
    for call in calls {
        if let Call::Write { at, .. } = call {
            if blocks.get(written) != Some(&at.0) {
                return false;
            }
            written = written.wrapping_add(1);
        }
    }
    written == blocks.len()
}

/// The first request of a session that is given something else; for how many events there is work before it; how many blocks are
/// used behind it; and whether its reads are right, and the blocks that are written.
type Came = (Option<(Writer, Option<u16>)>, u32, u32, bool);

// What comes of a row.
fn came_of<R: Wait>(rt: &R, alloc: Global, row: &Row) -> Result<Came, Unplayed> {
    let fault = match row.fails {
        Some(at) => Some(FaultAt {
            kind: CallKind::Write,
            at: Pbn(at),
            nth: 0,
            effect: false,
        }),
        None => None,
    };
    let mut device = device_of(alloc, &row.image, fault, u64::MAX)?;
    if let Some(filling) = &row.filling {
        let _report = driven(rt, alloc, &row.setup, filling, 0, &mut device)?;
    }
    let events = events_of(alloc, row)?;
    let (report, works) = played(alloc, &row.setup, &row.asks, &events, &mut device)?;
    let mut counts = [0; 10];
    judge(&report, &mut counts);
    let is_right = !are_off(&counts, &[(WRONG, 0, 0)])
        && (row.written.is_empty() || are_written(device.calls(), row.written));
    Ok((
        first_other(&report, 0, row.gives),
        works,
        report.used,
        is_right,
    ))
}

// The first row of which something else comes, and what.
fn first_off<R: Wait>(rt: &R, alloc: Global) -> Result<Option<(usize, Came)>, Unplayed> {
    for (number, row) in ROWS.iter().enumerate() {
        let came = came_of(rt, alloc, row)?;
        if came != (None, 1, row.used, true) {
            return Ok(Some((number, came)));
        }
    }
    Ok(None)
}

#[test]
fn by_given_events(rt: HostRuntime) -> Result<(), Fail> {
    assert_eq!(rt; first_off(&rt, rt.alloc())?, None);
    Ok(())
}
