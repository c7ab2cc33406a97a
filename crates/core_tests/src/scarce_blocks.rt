//! Many writes and discards where data blocks are scarce. A plain checker judges each write that found none, by the desk log.

use crate::judging::{Counts, NO_SPACE, OK, WRONG, add, are_off, given_by, judge, request_of};
use crate::plans::SCARCE;
use crate::runs::look_at;
use crate::sessions::{Unplayed, device_of, driven};
use blk_base::{Request, Writer};
use std::alloc::Global;
use std::sync::Wait;
use std::test::Fail;
use vdo_model::{DeskLine, RunReport};

/// What the desk log tells of an address: whether the last of its requests that was answered Ok is a write, and how many of its
/// writes are begun and not answered.
type Known = (bool, u32);

// How many data blocks can be in use for an address at most: the one that it is mapped to, and those that one of its writes
// claims, as the others wait for its lock. A write may have a block of each physical zone until it withdraws its tickets.
fn most((is_mapped, writes): Known) -> u32 {
    if writes > 0 { 5 } else { u32::from(is_mapped) }
}

// How many can be in use for all addresses, and the leaf.
fn bound(known: &[Known; 100]) -> u32 {
    let mut bound = 1_u32;
    for one in known {
        bound = bound.wrapping_add(most(*one));
    }
    bound
}

/// A line that begins a request, in place of what an answer gives.
const BEGUN: u16 = 300;

// The request of a line, and what it is given.
fn parts(line: &DeskLine) -> (Writer, u16) {
    match line {
        DeskLine::Begin { request } => (*request, BEGUN),
        DeskLine::Answer { request, answer } => (*request, given_by(answer)),
    }
}

// Whether a request is a write, and its address; none of a flush.
fn asked(report: &RunReport, request: Writer) -> Option<(bool, u32)> {
    match request_of(report, request) {
        Some(Request::Write { at, .. }) => Some((true, at.0)),
        Some(Request::Discard(at)) => Some((false, at.0)),
        _ => None,
    }
}

// What is known of an address behind a line of a request of it.
fn known_behind((is_mapped, writes): Known, is_write: bool, given: u16) -> Known {
    match (is_write, given) {
        (true, BEGUN) => (is_mapped, writes.wrapping_add(1)),
        (true, OK) => (true, writes.wrapping_sub(1)),
        (true, _) => (is_mapped, writes.wrapping_sub(1)),
        (false, OK) => (false, writes),
        (false, _) => (is_mapped, writes),
    }
}

// Whether some block was free as long as a write was under way that is answered, as far as can be told. A write without a block
// has no claim, and its address has no block but the one that it is mapped to.
fn had_free(known: Known, greatest: u32) -> bool {
    let others = greatest.wrapping_sub(most(known));
    others.wrapping_add(u32::from(known.0)) < 64
}

// How many writes found no block, though some block was free as long as they were under way; and how many were answered Ok, and
// would be wrong otherwise. What is found wrong is so for certain: at each moment between the two lines of that write fewer
// blocks were in use than there are, whatever the zones did, since a request is answered once it is done, and those of an
// address are served one after the other. What isn't found may be wrong all the same, mostly where many addresses are mapped:
// which write has which blocks isn't in the log, and so each that is under way is taken to have as many as it can.
fn read_answers(report: &RunReport) -> (u32, u32) {
    let (mut wrong, mut telling) = (0_u32, 0_u32);
    let mut known = [(false, 0_u32); 100];
    // For each stream the greatest bound since its last request was begun.
    let mut greatest = [0_u32; 16];
    for line in report.desk.as_slice() {
        let (request, given) = parts(line);
        let stream = usize::from(request.stream % 16);
        if given == BEGUN {
            greatest[stream] = 0;
        }
        if let Some((is_write, at)) = asked(report, request) {
            let place = (at % 100) as usize;
            let tells = is_write && had_free(known[place], greatest[stream]);
            wrong = wrong.wrapping_add(u32::from(tells && given == NO_SPACE));
            telling = telling.wrapping_add(u32::from(tells && given == OK));
            known[place] = known_behind(known[place], is_write, given);
        }
        let bound = bound(&known);
        for greatest in &mut greatest {
            *greatest = bound.max(*greatest);
        }
    }
    (wrong, telling)
}

// A run by the schedule of a number that isn't right, and what it came to. That each ends says that no request waits for ever.
// Each request is answered, a discard Ok, a write Ok or that there is no space, and that not as long as some block is free; and no
// block is lost. Many writes find no block, and of many of the others the checker would tell it.
fn first_off<R: Wait>(rt: &R, alloc: Global) -> Result<Option<(u64, Counts, u32)>, Unplayed> {
    for number in 0..10 {
        let mut device = device_of(alloc, &SCARCE.image, None, u64::MAX)?;
        let report = driven(
            rt,
            alloc,
            &SCARCE.setup,
            &SCARCE.script,
            number,
            &mut device,
        )?;
        let mut counts = [0; 10];
        judge(&report, &mut counts);
        let (wrong, telling) = read_answers(&report);
        let used = look_at(rt, alloc, &SCARCE, &report, &mut device, &mut counts)?;
        add(
            &mut counts,
            WRONG,
            wrong.wrapping_add(u32::from(used != report.used)),
        );
        if are_off(&counts, SCARCE.whole) || telling <= 40 {
            return Ok(Some((number, counts, telling)));
        }
    }
    Ok(None)
}

#[test]
fn many_writes_and_discards(rt: HostRuntime) -> Result<(), Fail> {
    assert_eq!(rt; first_off(&rt, rt.alloc())?, None);
    Ok(())
}
