//! Sessions by schedules, without a fault, with a call that fails, and stopped; and what the images have that they leave.

use crate::asks::requests_of;
use crate::judging::{Counts, WRONG, add, are_off, first_other, judge, judge_reads};
use crate::plans::{AGAIN, OTHERS, Plan, TABLES};
use crate::sessions::{Unplayed, device_of, driven, open_over};
use audit::audit;
use blk_base::Pbn;
use disk_model::{Call, CallKind, FaultAt, MemDisk, next_state, number_in};
use schedule::{Schedule, drive};
use std::alloc::Global;
use std::sync::Wait;
use std::test::Fail;
use vdo_model::RunReport;

// How many blocks of an image are counted otherwise than they are mapped, and how many are used.
fn audited(alloc: Global, image: &mut MemDisk) -> Result<(usize, u32), Unplayed> {
    match audit(alloc, image) {
        Ok(report) => Ok((report.differs.len(), report.used)),
        Err(_) => Err(Unplayed::Refused),
    }
}

/// How many blocks of an image that a run left are used. What reads of it give is counted, and so is as wrong how many blocks
/// are counted otherwise than they are mapped.
pub(crate) fn look_at<R: Wait>(
    rt: &R,
    alloc: Global,
    plan: &Plan,
    before: &RunReport,
    image: &mut MemDisk,
    counts: &mut Counts,
) -> Result<u32, Unplayed> {
    let (differ, used) = audited(alloc, image)?;
    add(counts, WRONG, differ.min(1000) as u32);
    let after = driven(rt, alloc, &plan.setup, &plan.reads, 0, image)?;
    judge_reads(before, &after, counts);
    Ok(used)
}

// A run by the schedule of a number, of whose calls this one fails, or each behind so many; without the one, the newest of the
// images that it may leave, and another one. Without the other too, the answers are those of the plan, and so many blocks are
// used as the report says.
fn run<R: Wait>(
    rt: &R,
    alloc: Global,
    plan: &Plan,
    number: u64,
    (fault, passes): (Option<FaultAt>, u64),
    counts: &mut Counts,
) -> Result<(), Unplayed> {
    let mut device = device_of(alloc, &plan.image, fault, passes)?;
    let report = driven(rt, alloc, &plan.setup, &plan.script, number, &mut device)?;
    judge(&report, counts);
    if fault.is_some() {
        return Ok(());
    }
    let mut newest = device.pick_image(alloc, 1)?;
    let used = look_at(rt, alloc, plan, &report, &mut newest, counts)?;
    let is_other = used != report.used || first_other(&report, plan.from, plan.gives).is_some();
    if passes == u64::MAX && is_other {
        add(counts, WRONG, 1);
    }
    let mut other = device.pick_image(alloc, passes.wrapping_add(number).wrapping_add(2))?;
    let _used = look_at(rt, alloc, plan, &report, &mut other, counts)?;
    Ok(())
}

// The kind and the block of a call.
fn kind_and_block(call: &Call) -> (CallKind, Pbn) {
    match call {
        Call::Read { at, .. } => (CallKind::Read, *at),
        Call::Write { at, .. } => (CallKind::Write, *at),
        Call::Flush { .. } => (CallKind::Flush, Pbn(0)),
    }
}

// The fault of the call of a place. Every second one has its effect.
fn fault_of(calls: &[Call], place: usize) -> Option<FaultAt> {
    let (kind, at) = kind_and_block(calls.get(place)?);
    let mut nth = 0_u32;
    for call in calls.iter().take(place) {
        if kind_and_block(call) == (kind, at) {
            nth = nth.wrapping_add(1);
        }
    }
    Some(FaultAt {
        kind,
        at,
        nth,
        effect: place % 2 == 0,
    })
}

// What is done with a plan: it is run without a fault, with a call that fails, and stopped.
const WHOLE: usize = 0;

const FAILING: usize = 1;

const CUT: usize = 2;

// Runs by the schedule of a number, in each of which another call fails, or that are stopped behind other calls.
fn run_with_trouble<R: Wait>(
    rt: &R,
    alloc: Global,
    plan: &Plan,
    number: u64,
    trial: usize,
    counts: &mut Counts,
) -> Result<(), Unplayed> {
    let mut device = device_of(alloc, &plan.image, None, u64::MAX)?;
    let requests = requests_of(alloc, &plan.script)?;
    let mut core = open_over(alloc, &plan.setup, requests, &mut device)?;
    let opening = device.calls().len();
    drive(
        rt,
        &mut core,
        &mut Schedule::from_number(number),
        &mut device,
    );
    let calls = device.calls();
    let (each, shift, first) = plan.tried;
    let each = each.max(1);
    let first = number.wrapping_mul(shift).wrapping_add(first) % each;
    for place in opening..calls.len() {
        if place.wrapping_sub(opening) as u64 % each == first {
            let trouble = if trial == FAILING {
                (fault_of(calls, place), u64::MAX)
            } else {
                (None, place as u64)
            };
            run(rt, alloc, plan, number, trouble, counts)?;
        }
    }
    Ok(())
}

// What runs of a plan by all its schedules come to.
fn counts_of<R: Wait>(
    rt: &R,
    alloc: Global,
    plan: &Plan,
    trial: usize,
) -> Result<Counts, Unplayed> {
    let mut counts = [0; 10];
    for number in 0..plan.schedules {
        if trial == WHOLE {
            run(rt, alloc, plan, number, (None, u64::MAX), &mut counts)?;
        } else {
            run_with_trouble(rt, alloc, plan, number, trial, &mut counts)?;
        }
    }
    Ok(counts)
}

// The first plan of which something isn't as often as it is to be, and how often there was what.
fn first_off<R: Wait>(
    rt: &R,
    alloc: Global,
    plans: &[Plan],
    trial: usize,
) -> Result<Option<(usize, Counts)>, Unplayed> {
    for (place, plan) in plans.iter().enumerate() {
        let counts = counts_of(rt, alloc, plan, trial)?;
        let bounds = match trial {
            WHOLE => plan.whole,
            FAILING => plan.failing,
            _ => plan.cut,
        };
        if are_off(&counts, &[(WRONG, 0, 0)]) || are_off(&counts, bounds) {
            return Ok(Some((place, counts)));
        }
    }
    Ok(None)
}

// The first number of the row that chooses the events of schedule 0 was computed apart.
#[test]
fn without_a_fault(rt: HostRuntime) -> Result<(), Fail> {
    assert_eq!(rt; number_in(next_state(0)), 167_951_807);
    let tables = first_off(&rt, rt.alloc(), &TABLES, WHOLE)?;
    let again = first_off(&rt, rt.alloc(), &AGAIN, WHOLE)?;
    let others = first_off(&rt, rt.alloc(), &OTHERS, WHOLE)?;
    assert_eq!(rt; [tables, again, others], [None; 3]);
    Ok(())
}

#[test]
fn each_call_fails(rt: HostRuntime) -> Result<(), Fail> {
    assert_eq!(rt; first_off(&rt, rt.alloc(), &TABLES, FAILING)?, None);
    Ok(())
}

#[test]
fn stopped_at_each_call(rt: HostRuntime) -> Result<(), Fail> {
    assert_eq!(rt; first_off(&rt, rt.alloc(), &TABLES, CUT)?, None);
    Ok(())
}

#[test]
fn stopped_where_blocks_are_used_again(rt: HostRuntime) -> Result<(), Fail> {
    assert_eq!(rt; first_off(&rt, rt.alloc(), &AGAIN, CUT)?, None);
    Ok(())
}
