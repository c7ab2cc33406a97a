//! A plain checker of reports, which says again what is right of them.

use blk_base::{Answer, Block, Lba, Request, Writer};
use vdo_model::{DeskLine, Mark, RunReport};

// What a request is given is a number: the byte of a block of one byte, or one of those from 256 on.
pub(crate) const OK: u16 = 256;

pub(crate) const FULL: u16 = 257;

pub(crate) const NO_SPACE: u16 = 258;

pub(crate) const STOPPED: u16 = 259;

pub(crate) const RANGE: u16 = 260;

pub(crate) const OTHER: u16 = 261;
// A block of several bytes, and whatever else isn't right.
pub(crate) const WRONG: u16 = 262;

// What is counted beside that: answers of one byte; images that stops left; what reads of them gave that isn't zero.
pub(crate) const READS: u16 = 255;

pub(crate) const IMAGES: u16 = 263;

pub(crate) const NEWER: u16 = 264;

/// How often there was what, from `READS` on.
pub(crate) type Counts = [u32; 10];

/// So many more.
pub(crate) fn add(counts: &mut Counts, what: u16, more: u32) {
    if let Some(count) = counts.get_mut(usize::from(what.wrapping_sub(READS))) {
        *count = count.wrapping_add(more);
    }
}

/// Something that is counted so often at least and at most.
pub(crate) type Bound = (u16, u32, u32);

/// Whether something isn't as often as it is to be.
pub(crate) fn are_off(counts: &Counts, bounds: &[Bound]) -> bool {
    for &(what, least, most) in bounds {
        match counts.get(usize::from(what.wrapping_sub(READS))) {
            Some(count) if least <= *count && *count <= most => {}
            _ => return true,
        }
    }
    false
}

/// What an answer gives.
pub(crate) fn given_by(answer: &Answer) -> u16 {
    match answer {
        Answer::Ok => OK,
        Answer::Bytes(block) => match byte_of(block.get()) {
            Some(byte) => u16::from(byte),
            None => WRONG,
        },
        Answer::Full => FULL,
        Answer::NoSpace => NO_SPACE,
        Answer::Stopped => STOPPED,
        Answer::Range => RANGE,
        Answer::ReadFault | Answer::Damaged => OTHER,
    }
}

// The byte of a block of one byte.
fn byte_of(block: &Block) -> Option<u8> {
    let first = block.bytes[0];
    for byte in &block.bytes {
        if *byte != first {
            return None;
        }
    }
    Some(first)
}

/// The request of a name.
pub(crate) fn request_of(report: &RunReport, request: Writer) -> Option<&Request> {
    report
        .requests
        .stream(request.stream)
        .get(request.number as usize)
}

// What a request was given, if it was answered.
fn given(report: &RunReport, asked: Writer) -> Option<u16> {
    for line in report.desk.as_slice() {
        if let DeskLine::Answer { request, answer } = line
            && *request == asked
        {
            return Some(given_by(answer));
        }
    }
    None
}

/// The first request that isn't given this, of those of the streams from a number on, and what it is given.
pub(crate) fn first_other(
    report: &RunReport,
    from: u32,
    gives: &[&[u16]],
) -> Option<(Writer, Option<u16>)> {
    let mut asked = Writer {
        stream: 0,
        number: 0,
    };
    for row in gives {
        asked.number = from;
        for want in *row {
            let found = given(report, asked);
            if found != Some(*want) {
                return Some((asked, found));
            }
            asked.number = asked.number.wrapping_add(1);
        }
        asked.stream = asked.stream.wrapping_add(1);
    }
    None
}

// The byte that a request gives an address, if it is a write or a discard of it.
fn written(report: &RunReport, request: Writer, at: Lba) -> Option<u8> {
    match request_of(report, request) {
        Some(
            Request::Write {
                at: there,
                block,
                ..
            },
        ) if there.0 == at.0 => Some(block.get().bytes[0]),
        Some(Request::Discard(there)) if there.0 == at.0 => Some(0),
        _ => None,
    }
}

// Whether a read gave the byte of the last write or discard of its address that was answered Ok and has an earlier place, or zero.
fn is_right(report: &RunReport, read: Writer, byte: u16) -> bool {
    let Some(Request::Read(at)) = request_of(report, read) else {
        return false;
    };
    let mut last = 0;
    for placed in report.places.as_slice() {
        if placed.request == read {
            return u16::from(last) == byte;
        }
        if let Some(new) = written(report, placed.request, *at)
            && given(report, placed.request) == Some(OK)
        {
            last = new;
        }
    }
    false
}

// How many places don't stand behind those of lower zones, and in their zone behind those of lower numbers and of earlier requests
// of their stream.
fn misplaced(report: &RunReport) -> u32 {
    let mut wrong = 0_u32;
    let (mut zone, mut place) = (0_u32, 0_u64);
    let mut numbers = [0_u32; 16];
    for placed in report.places.as_slice() {
        if placed.zone > zone {
            (zone, place) = (placed.zone, 0);
            numbers = [0; 16];
        }
        let number = &mut numbers[usize::from(placed.request.stream % 16)];
        if placed.zone != zone || placed.place != place || placed.request.number < *number {
            wrong = wrong.wrapping_add(1);
        }
        *number = placed.request.number;
        place = place.wrapping_add(1);
    }
    wrong
}

/// Counts what the requests of a run on a fresh image were given, and what is wrong with it.
pub(crate) fn judge(report: &RunReport, counts: &mut Counts) {
    add(counts, WRONG, misplaced(report));
    for line in report.desk.as_slice() {
        if let DeskLine::Answer { request, answer } = line {
            let given = given_by(answer);
            add(counts, given.max(READS), 1);
            if given < OK && !is_right(report, *request, given) {
                add(counts, WRONG, 1);
            }
        }
    }
}

// Whether a request was answered before a flush was begun that was answered Ok.
fn is_flushed(report: &RunReport, request: Writer) -> bool {
    let mut answered = false;
    for line in report.desk.as_slice() {
        match line {
            DeskLine::Answer { request: asked, .. } => answered = answered || *asked == request,
            DeskLine::Begin { request: begun } => {
                if answered
                    && matches!(request_of(report, *begun), Some(Request::Flush))
                    && given(report, *begun) == Some(OK)
                {
                    return true;
                }
            }
        }
    }
    false
}

// Whether an image after a stop of a run on a fresh one may have this byte at an address: that of a write or a discard
// which isn't older than the last one that was flushed.
fn may_show(report: &RunReport, at: Lba, byte: u16) -> bool {
    let mut allowed = byte == 0;
    for entry in report.histories.as_slice() {
        if let Some(new) = written(report, entry.request, at) {
            let is_this = u16::from(new) == byte;
            match entry.mark {
                Mark::Settled if is_flushed(report, entry.request) => allowed = is_this,
                Mark::Settled | Mark::Unsettled => allowed = allowed || is_this,
                Mark::Refused => {}
            }
        }
    }
    allowed
}

/// Counts what reads of an image gave that a stop of a run on a fresh one left, and what they may not give.
pub(crate) fn judge_reads(before: &RunReport, after: &RunReport, counts: &mut Counts) {
    add(counts, IMAGES, 1);
    for line in after.desk.as_slice() {
        if let DeskLine::Answer { request, answer } = line
            && let Some(Request::Read(at)) = request_of(after, *request)
        {
            let given = given_by(answer);
            if !may_show(before, *at, given) {
                add(counts, WRONG, 1);
            }
            if given != 0 {
                add(counts, NEWER, 1);
            }
        }
    }
}
