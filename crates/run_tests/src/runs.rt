ghost use Rattle.blk_base.specs.Limits.{IsGeometry};

use crate::rows::{BENT, FAULT_LINES, FAULTS, OUTSIDE, PLAIN, SETUPS, SMALL, WITHOUT_SPACE};
use blk_base::Geometry;
use disk_model::{BendAt, BentDisk, Call, FaultAt, MemDisk, MemSink, MemSource, OpenGate};
use std::alloc::{AllocError, Global};
use std::process::Abort;
use std::sync::Wait;
use std::test::Fail;
use std::thread::Threads;
use test_images::{first_other, fresh, not_shown};
use vdo_cli::{Ended, Words, run};
use vdo_model::RunReport;

/// What a run has beside its device: its words, its script, and what it puts.
pub(crate) type Outside = (Words, MemSource, MemSink);

/// What a run leaves: an image that a stop behind it may leave, its status, whether the calls of its device are as wanted, and its
/// receipts.
type Left = (MemDisk, u8, bool, Receipts);

/// What the calls of a device are: any, so many, or so many writes and other calls that write nothing.
#[derive(Clone, Copy)]
pub(crate) enum Calls {
    Any,
    Count(usize),
    Writes(usize),
}

/// The receipts of the first requests that found no block, the oldest first: the number of each in its stream, and its step.
pub(crate) type Receipts = [Option<(u32, u64)>; 2];

/// A run: its words and its script, what fails and what reads otherwise, and how it ends.
#[derive(Clone, Copy)]
pub(crate) struct Run {
    pub(crate) words: &'static [&'static str],
    pub(crate) script: &'static [u8],
    pub(crate) faults: &'static [FaultAt],
    pub(crate) bends: &'static [BendAt],
    /// How many calls of the device go on before all fail.
    pub(crate) fuse: Option<u64>,
    /// How many bytes the source gives before it fails.
    pub(crate) source: Option<u64>,
    /// The room of the sink.
    pub(crate) room: usize,
    /// The number of the image that is picked behind it: 0 is what was flushed.
    pub(crate) image: u64,
    pub(crate) text: &'static [u8],
    pub(crate) status: u8,
    pub(crate) calls: Calls,
    pub(crate) receipts: Receipts,
}

pub(crate) fn outside_of(alloc: Global, asked: &Run) -> Result<Outside, AllocError> {
    let mut words = Words::new(alloc);
    for word in asked.words {
        words.push(word)?;
    }
    let source = MemSource::new(asked.script.to_vec(alloc)?, asked.source);
    Ok((words, source, MemSink::new(alloc, asked.room)?))
}

// A device of these contents on which the run's calls fail and read otherwise.
fn device_of(alloc: Global, image: &MemDisk, asked: &Run) -> Result<BentDisk, AllocError> {
    let faults = asked.faults.to_vec(alloc)?;
    let bends = asked.bends.to_vec(alloc)?;
    let mut device = image.pick_image(alloc, 0)?;
    device.set_faults(faults);
    if let Some(passes) = asked.fuse {
        device.set_fuse(passes);
    }
    Ok(BentDisk::over(device, bends))
}

fn are_calls(calls: &[Call], want: Calls) -> bool {
    match want {
        Calls::Any => true,
        Calls::Count(count) => calls.len() == count,
        Calls::Writes(count) => {
            calls
                .iter()
                .filter(|call| matches!(call, Call::Write { .. }))
                .count()
                == count
        }
    }
}

fn receipts_of(report: &RunReport) -> Receipts {
    let mut found = [None; 2];
    for (k, receipt) in report.receipts.as_slice().iter().enumerate() {
        if k < 2 {
            found[k] = Some((receipt.request.number, receipt.step));
        }
    }
    found
}

// What a run left that ended so.
fn left_by(alloc: Global, ended: &Ended<BentDisk>, asked: &Run) -> Result<Left, AllocError> {
    let device = ended.device.inner();
    let image = device.pick_image(alloc, asked.image)?;
    let calls = are_calls(device.calls(), asked.calls);
    Ok((image, ended.status, calls, receipts_of(&ended.report)))
}

// What a run leaves, and what it put. All that it owns is let go here.
fn run_in<R: Threads + Wait + Sync>(
    rt: &R,
    alloc: Global,
    outside: Outside,
    device: BentDisk,
    asked: &Run,
) -> (Result<Left, AllocError>, MemSink) {
    let (words, mut source, mut sink) = outside;
    let ended = run(rt, &words, device, &mut source, &mut sink, &OpenGate);
    (left_by(alloc, &ended, asked), sink)
}

/// The same with what it put.
pub(crate) type Served = (MemDisk, MemSink, u8, bool, Receipts);

/// Serves a run on a device of these contents.
pub(crate) fn served<R: Threads + Wait + Sync>(
    rt: &R,
    alloc: Global,
    image: &MemDisk,
    asked: &Run,
) -> Result<Served, AllocError> {
    let outside = outside_of(alloc, asked)?;
    let device = device_of(alloc, image, asked)?;
    let (left, sink) = run_in(rt, alloc, outside, device, asked);
    let (image, status, calls, receipts) = left?;
    Ok((image, sink, status, calls, receipts))
}

/// How a run ended: its status, the place of the first byte of its text that is another, whether its calls are as wanted, and
/// its receipts.
pub(crate) type Outcome = (u8, Option<usize>, bool, Receipts);

/// Serves a run on a device of these contents: the image that it leaves, and how it ended.
pub(crate) fn outcome_of<R: Threads + Wait + Sync>(
    rt: &R,
    alloc: Global,
    image: &MemDisk,
    asked: &Run,
) -> Result<(MemDisk, Outcome), AllocError> {
    let (left, sink, status, calls, receipts) = served(rt, alloc, image, asked)?;
    let other = first_other(sink.bytes(), asked.text);
    Ok((left, (status, other, calls, receipts)))
}

/// Serves the runs of a row, the one with this number, one after the other on an image.
pub(crate) fn row_is_right<R: Threads + Wait + Sync + Abort>(
    rt: &R,
    alloc: Global,
    image: MemDisk,
    row: usize,
    runs: &[Run],
) -> Result<(), Fail> {
    let mut image = image;
    for (k, asked) in runs.iter().enumerate() {
        let (left, outcome) = outcome_of(rt, alloc, &image, asked)?;
        assert_eq!(rt;
            (row, k, outcome),
            (row, k, (asked.status, None, true, asked.receipts))
        );
        image = left;
    }
    Ok(())
}

// Each row begins on an empty image of these sizes.
fn each_is_right<R: Threads + Wait + Sync + Abort>(
    rt: &R,
    alloc: Global,
    sizes: &Geometry,
    rows: &[&[Run]],
) -> Result<(), Fail>
    requires { IsGeometry sizes.now }
{
    for (row, &runs) in rows.iter().enumerate() {
        row_is_right(rt, alloc, fresh(alloc, sizes)?, row, runs)?;
    }
    Ok(())
}

#[test]
fn runs_that_do_not_fail(rt: HostRuntime) -> Result<(), Fail> {
    each_is_right(&rt, rt.alloc(), &Geometry::DEFAULT, &PLAIN)
}

#[test]
fn a_call_of_the_device_fails(rt: HostRuntime) -> Result<(), Fail> {
    each_is_right(&rt, rt.alloc(), &Geometry::DEFAULT, &FAULTS)
}

#[test]
fn the_outside_fails(rt: HostRuntime) -> Result<(), Fail> {
    each_is_right(&rt, rt.alloc(), &Geometry::DEFAULT, &OUTSIDE)
}

#[test]
fn blocks_that_read_otherwise(rt: HostRuntime) -> Result<(), Fail> {
    each_is_right(&rt, rt.alloc(), &Geometry::DEFAULT, &BENT)
}

#[test]
fn runs_of_other_setups(rt: HostRuntime) -> Result<(), Fail> {
    each_is_right(&rt, rt.alloc(), &Geometry::DEFAULT, &SETUPS)
}

#[test]
fn writes_without_space(rt: HostRuntime) -> Result<(), Fail> {
    each_is_right(&rt, rt.alloc(), &SMALL, &WITHOUT_SPACE)
}

// What is put of a fault is what it displays, and a newline.
#[test]
fn faults_display_their_lines(rt: HostRuntime) {
    assert_eq!(rt; not_shown(rt.alloc(), &FAULT_LINES), None);
}
