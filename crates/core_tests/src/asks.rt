//! What sessions are asked: tables of requests, and requests made from their numbers.

ghost use Rattle.std.specs.Prelude.{◌≡◌, ◌++◌, [], ◌∷◌, IfOk, OnOk, length};
ghost use Rattle.std.specs.List.{AllByRecursion};
ghost use Rattle.vdo_model.specs.Scripts.{IsServed};

use blk_base::{Block, BoxedBlock, Lba, Request};
use disk_model::next_state;
use std::alloc::{AllocError, Global};
use vdo_model::Requests;

// A request, with blocks of one byte each.
#[derive(Clone, Copy)]
pub(crate) enum Ask {
    Read(u32),
    Write(u32, u8),
    Discard(u32),
    Flush,
}

/// The requests of a session.
pub(crate) enum Script {
    /// These of each stream.
    Table(&'static [&'static [Ask]]),
    /// One stream reads so many addresses, from 0 on, so far apart.
    Reads { count: u32, apart: u32 },
    /// Sixteen streams have 300 writes, and flushes between them. Each of 150 addresses is written twice.
    Wide,
    /// Three streams have 25 requests each, of five addresses.
    Reused,
    /// Sixteen streams have so many requests each, of a hundred addresses.
    Scarce(u32),
    /// So many writes of one stream, each to an address of its own from 0 on, and what it asks then.
    Filling(u32, &'static [Ask]),
    /// Fifteen writes, which ask the first of two zones first, with reads between them.
    FillingOne,
    /// Four streams have four writes each, to addresses from 20 on.
    Sixteen,
}

/// How many writes there are in `Wide`.
pub(crate) const WIDE_WRITES: u32 = 300;

/// More requests than a stream has.
const MOST: u32 = 1000;

// Between two flushes a stream has six writes, five before its first one. Two writes of an address have different bytes, and
// none is zero.
fn wide(stream: u32, place: u32) -> Option<Ask> {
    let nth = (place / 7 * 6).wrapping_add((place % 7).min(5));
    let number = nth.wrapping_mul(16).wrapping_add(stream);
    if number >= WIDE_WRITES {
        return None;
    }
    if place % 7 == 5 {
        return Some(Ask::Flush);
    }
    Some(Ask::Write(number % 150 * 6, (number % 255 + 1) as u8))
}

static ADDRESSES: [u32; 5] = [0, 7, 31, 62, 99];

// More than six of ten are writes. Two of a stream have different bytes, and none is zero.
fn reused(stream: u32, number: u32) -> Option<Ask> {
    if number >= 25 {
        return None;
    }
    let at = ADDRESSES[(stream.wrapping_add(number.wrapping_mul(2)) % 5) as usize];
    let nth = stream.wrapping_mul(25).wrapping_add(number);
    Some(match number % 9 {
        3 => Ask::Discard(at),
        5 | 8 => Ask::Read(at),
        7 => Ask::Flush,
        _ => Ask::Write(at, (nth % 255 + 1) as u8),
    })
}

// A stream has twenty requests of which seven of eight are writes, then twenty of which seven are discards, and so on, as the
// state of a row of numbers has them.
fn scarce(number: u32, state: u64) -> Ask {
    let drawn = state >> 33;
    let at = (drawn / 8 % 100) as u32;
    let is_other = drawn % 8 == 0;
    let is_write = number / 20 % 2 == 0;
    if is_write == is_other {
        return Ask::Discard(at);
    }
    Ask::Write(at, (drawn / 1024 % 255 + 1) as u8)
}

// The writes take all data blocks beside that of the leaf.
fn filling(writes: u32, then: &[Ask], number: u32) -> Option<Ask> {
    if number < writes {
        return Some(Ask::Write(number, (number % 255 + 1) as u8));
    }
    then.get((number - writes) as usize).copied()
}

// A request that writes the place of it plus one.
fn filling_one(number: u32) -> Option<Ask> {
    let at = number / 2;
    if at >= 15 {
        return None;
    }
    Some(if number % 2 == 0 {
        Ask::Write(at, (at % 255 + 1) as u8)
    } else {
        Ask::Read(at)
    })
}

impl Script {
    // How many streams it has.
    fn streams(&self) -> u32 {
        match self {
            Script::Table(streams) => streams.len().min(16) as u32,
            Script::Wide | Script::Scarce(_) => 16,
            Script::Sixteen => 4,
            Script::Reused => 3,
            _ => 1,
        }
    }

    // The request of a number in a stream, if it has one, as a state of a row of numbers has it.
    fn ask(&self, stream: u32, number: u32, state: u64) -> Option<Ask> {
        match self {
            Script::Table(streams) => streams.get(stream as usize)?.get(number as usize).copied(),
            Script::Reads { count, apart } if number < *count => {
                Some(Ask::Read(number.wrapping_mul(*apart)))
            }
            Script::Wide => wide(stream, number),
            Script::Reused => reused(stream, number),
            Script::Scarce(count) if number < *count => Some(scarce(number, state)),
            Script::Filling(writes, then) => filling(*writes, then, number),
            Script::FillingOne => filling_one(number),
            Script::Sixteen if number < 4 => {
                let at = stream.wrapping_mul(4).wrapping_add(number).wrapping_add(20);
                Some(Ask::Write(at, (at % 256) as u8))
            }
            _ => None,
        }
    }
}

// One more item.
fn push<T: Drop>(items: &mut Vec<T>, item: T) -> Result<(), AllocError>
    ensures { OnOk result (items.new.items ≡ items.old.items ++ item ∷ []) }
{
    match items.push(item) {
        Ok(()) => Ok(()),
        Err(_) => Err(AllocError),
    }
}

// A block of this byte.
fn filled(alloc: Global, byte: u8) -> Result<BoxedBlock, AllocError>
    ensures { IfOk result (λ block. length block ≡ 4096) }
{
    BoxedBlock::new(
        alloc,
        Block {
            bytes: [byte; 4096],
        },
    )
}

fn request(alloc: Global, ask: Ask) -> Result<Request, AllocError>
    ensures { IfOk result IsServed }
{
    match ask {
        Ask::Read(at) => Ok(Request::Read(Lba(at))),
        Ask::Write(at, byte) => Ok(Request::Write {
            at: Lba(at),
            block: filled(alloc, byte)?,
            fua: false,
        }),
        Ask::Discard(at) => Ok(Request::Discard(Lba(at))),
        Ask::Flush => Ok(Request::Flush),
    }
}

// The requests of a stream.
fn requests(alloc: Global, asks: &[Ask]) -> Result<Vec<Request>, AllocError>
    ensures { IfOk result (λ requests. AllByRecursion IsServed requests.items) }
{
    let mut requests = Vec::new(alloc);
    for &ask in asks {
        push(&mut requests, request(alloc, ask)?)?;
    }
    Ok(requests)
}

// What a stream asks. The state is that behind the last request.
fn asks_of(
    alloc: Global,
    script: &Script,
    stream: u32,
    state: &mut u64,
) -> Result<Vec<Ask>, AllocError> {
    let mut asks = Vec::new(alloc);
    for number in 0..MOST {
        let next = next_state(*state);
        let Some(ask) = script.ask(stream, number, next) else {
            return Ok(asks);
        };
        asks.push(ask)?;
        *state = next;
    }
    Ok(asks)
}

/// The requests of a script.
pub(crate) fn requests_of(alloc: Global, script: &Script) -> Result<Requests, AllocError>
    ensures { IfOk result (AllByRecursion (AllByRecursion IsServed)) }
{
    let mut streams = Vec::new(alloc);
    let mut state = 0;
    for stream in 0..script.streams() {
        let asks = asks_of(alloc, script, stream, &mut state)?;
        push(&mut streams, requests(alloc, &asks)?)?;
    }
    Ok(Requests::of_streams(streams))
}
