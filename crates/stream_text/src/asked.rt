ghost use Rattle.std.specs.Prelude.{◌≡◌, ◌<◌, [], ◌∷◌, IfOk};
ghost use Rattle.stream_text.specs.LineWords.{extent_of, stream_number, address_number, count_number, block_of_word};
ghost use Rattle.stream_text.specs.LineFaults.{both as both_of};
ghost use Rattle.stream_text.specs.LineGrammar.{write_asked, discard_asked, asked_of_words, asked_of_line, stream_asked, SaysAsked};

use crate::blocks::block_of;
use crate::cuts::cut;
use crate::numbers::{both, number_within};
use crate::refusal::{AddFault, LineFault};
use blk_base::{BoxedBlock, Lba, Request};
use std::alloc::Global;

/// What a line asks for.
#[derive(Drop)]
pub enum Asked {
    /// One request of a stream.
    One { stream: u8, request: Request },
    /// Discards of the addresses from the first to the last.
    Discards { stream: u8, at: u32, last: u32 },
}

fn stream_of(word: &[u8]) -> Result<u8, LineFault>
    ensures value { result ≡ stream_number word.now }
    ensures small { IfOk result (λ stream. stream < 16) }
{
    let stream = number_within(word, 0, 15, LineFault::Stream)?;
    Ok(stream as u8)
}

fn address_of(word: &[u8]) -> Result<u32, LineFault>
    ensures { result ≡ address_number word.now }
{
    number_within(word, 0, u32::MAX, LineFault::Range)
}

// The first and the last of so many addresses, if the last is one too.
fn extent(address: &[u8], count: &[u8]) -> Result<(u32, u32), LineFault>
    ensures { result ≡ extent_of (both_of (address_number address.now) (count_number count.now)) }
{
    let count = number_within(count, 1, 65536, LineFault::Range);
    let (at, count) = both(address_of(address), count)?;
    let last = (u64::from(at) + u64::from(count)).saturating_sub(1);
    if last > u64::from(u32::MAX) {
        return Err(LineFault::Range);
    }
    Ok((at, last as u32))
}

fn of_two(stream: &[u8], command: &[u8]) -> Result<Asked, LineFault>
    ensures asked { result ≡ asked_of_words (stream.now ∷ command.now ∷ []) }
    ensures stream { IfOk result (λ asked. stream_asked asked < 16) }
{
    if command != b"flush".as_slice() {
        return Err(LineFault::Word);
    }
    let stream = stream_of(stream)?;
    let request = Request::Flush;
    Ok(Asked::One { stream, request })
}

fn of_three(stream: &[u8], command: &[u8], address: &[u8]) -> Result<Asked, LineFault>
    ensures asked { result ≡ asked_of_words (stream.now ∷ command.now ∷ address.now ∷ []) }
    ensures stream { IfOk result (λ asked. stream_asked asked < 16) }
{
    if command != b"read".as_slice() {
        return Err(LineFault::Word);
    }
    let (stream, at) = both(stream_of(stream), address_of(address))?;
    let request = Request::Read(Lba(at));
    Ok(Asked::One { stream, request })
}

fn written(
    stream: &[u8],
    address: &[u8],
    block: Result<BoxedBlock, LineFault>,
) -> Result<Asked, LineFault>
    ensures asked { result ≡ write_asked (both_of
        (stream_number stream.now)
        (both_of (address_number address.now) block)) }
    ensures stream { IfOk result (λ asked. stream_asked asked < 16) }
{
    let named = both(address_of(address), block);
    let (stream, (at, block)) = both(stream_of(stream), named)?;
    let at = Lba(at);
    let request = Request::Write {
        at,
        block,
        fua: false,
    };
    Ok(Asked::One { stream, request })
}

fn discard_of(stream: &[u8], address: &[u8], count: &[u8]) -> Result<Asked, LineFault>
    ensures asked { result ≡ discard_asked (both_of
        (stream_number stream.now)
        (extent_of (both_of (address_number address.now) (count_number count.now)))) }
    ensures stream { IfOk result (λ asked. stream_asked asked < 16) }
{
    let (stream, (at, last)) = both(stream_of(stream), extent(address, count))?;
    Ok(Asked::Discards { stream, at, last })
}

// What is said of a line whose memory was there.
fn said(asked: Result<Asked, LineFault>) -> Result<Asked, AddFault>
    ensures asked { SaysAsked result asked }
    ensures stream { IfOk asked (λ asked. stream_asked asked < 16)
        → IfOk result (λ asked. stream_asked asked < 16) }
{
    match asked {
        Ok(asked) => Ok(asked),
        Err(fault) => Err(AddFault::Fault(fault)),
    }
}

fn write_of(alloc: Global, stream: &[u8], address: &[u8], runs: &[u8]) -> Result<Asked, AddFault>
    ensures asked { SaysAsked result (write_asked (both_of
        (stream_number stream.now)
        (both_of (address_number address.now) (block_of_word runs.now)))) }
    ensures stream { IfOk result (λ asked. stream_asked asked < 16) }
{
    let Ok(block) = block_of(alloc, runs) else {
        return Err(AddFault::Memory);
    };
    said(written(stream, address, block))
}

fn of_four(
    alloc: Global,
    stream: &[u8],
    command: &[u8],
    address: &[u8],
    last: &[u8],
) -> Result<Asked, AddFault>
    ensures asked { SaysAsked result
        (asked_of_words (stream.now ∷ command.now ∷ address.now ∷ last.now ∷ [])) }
    ensures stream { IfOk result (λ asked. stream_asked asked < 16) }
{
    if command == b"write".as_slice() {
        return write_of(alloc, stream, address, last);
    }
    if command == b"discard".as_slice() {
        return said(discard_of(stream, address, last));
    }
    Err(AddFault::Fault(LineFault::Word))
}

/// What a line asks for, or its first fault. It fails with `Memory` where memory runs out.
pub(crate) fn asked_of(alloc: Global, line: &[u8]) -> Result<Asked, AddFault>
    ensures asked { SaysAsked result (asked_of_line line.now) }
    ensures stream { IfOk result (λ asked. stream_asked asked < 16) }
{
    let (stream, rest) = cut(b' ', line);
    let Some(rest) = rest else {
        return Err(AddFault::Fault(LineFault::Word));
    };
    let (command, rest) = cut(b' ', rest);
    let Some(rest) = rest else {
        return said(of_two(stream, command));
    };
    let (address, rest) = cut(b' ', rest);
    let Some(rest) = rest else {
        return said(of_three(stream, command, address));
    };
    let (last, rest) = cut(b' ', rest);
    match rest {
        Some(_) => Err(AddFault::Fault(LineFault::Word)),
        None => of_four(alloc, stream, command, address, last),
    }
}
