ghost use Rattle.std.specs.Prelude.{◌≡◌, ◌<◌, IfOk, length};

use blk_base::{Block, Pbn, ZoneId};
use disk_model::{
    Call, CallKind, Disk, Failed, FaultAt, MemDisk, MemSink, MemSource, OpenGate, RamDisk, Sink,
    Source, ZoneGate,
};
use std::alloc::{AllocError, Global};
use std::test::Fail;
use test_images::first_other;

fn block_of(byte: u8) -> Block {
    let mut block = Block::zero();
    block.bytes[0] = byte;
    block
}

// A call by its kind, its block and its number, which fails; and whether it has its effect all the same.
type PlannedFault = (CallKind, u32, u32, bool);

// Which of nine calls succeed.
fn call_nine(device: &mut MemDisk) -> [bool; 9]
    requires { length device.old.opening ≡ 2 }
    ensures { length device.new.opening ≡ 2 }
{
    let mut into = Block::zero();
    [
        device.write(Pbn(0), &block_of(1)).is_ok(),
        device.write(Pbn(0), &block_of(2)).is_ok(),
        device.write(Pbn(1), &block_of(3)).is_ok(),
        device.write(Pbn(0), &block_of(4)).is_ok(),
        device.read(Pbn(0), &mut into).is_ok(),
        device.read(Pbn(1), &mut into).is_ok(),
        device.read(Pbn(0), &mut into).is_ok(),
        device.flush().is_ok(),
        device.flush().is_ok(),
    ]
}

// The first byte of a block; 0 where it can't be read.
fn first_byte(device: &mut MemDisk, at: u32) -> u8
    requires { at < length device.old.opening }
    ensures { length device.new.opening ≡ length device.old.opening }
{
    let mut into = Block::zero();
    match device.read(Pbn(at), &mut into) {
        Ok(()) => into.bytes[0],
        Err(_) => 0,
    }
}

// Which of nine calls succeed, and the first byte of each of two blocks then.
type Outcome = ([bool; 9], [u8; 2]);

// The outcome on a device of two blocks with these faults.
fn outcome(alloc: Global, planned: [PlannedFault; 2]) -> Result<Outcome, AllocError> {
    let mut faults = Vec::with_capacity(alloc, 2)?;
    for (kind, at, nth, effect) in planned {
        faults.push(FaultAt {
            kind,
            at: Pbn(at),
            nth,
            effect,
        })?;
    }
    let mut device = MemDisk::zeroed(alloc, 2)?;
    device.set_faults(faults);
    let ok = call_nine(&mut device);
    device.set_faults(Vec::new(alloc));
    let left = [first_byte(&mut device, 0), first_byte(&mut device, 1)];
    Ok((ok, left))
}

const NEVER: PlannedFault = (CallKind::Write, 7, 0, false);

const THIRD_WRITE: PlannedFault = (CallKind::Write, 0, 2, false);

const THIRD_WRITE_WITH_EFFECT: PlannedFault = (CallKind::Write, 0, 2, true);

// Each row: two faults, the numbers of the calls that fail (9: none), and the first bytes of the blocks then.
static ROWS: [([PlannedFault; 2], [usize; 2], [u8; 2]); 14] = [
    ([NEVER, NEVER], [9, 9], [4, 3]),
    ([(CallKind::Write, 0, 0, false), NEVER], [0, 9], [4, 3]),
    ([THIRD_WRITE, NEVER], [3, 9], [2, 3]),
    ([THIRD_WRITE_WITH_EFFECT, NEVER], [3, 9], [4, 3]),
    ([(CallKind::Write, 0, 3, true), NEVER], [9, 9], [4, 3]),
    ([(CallKind::Write, 1, 0, false), NEVER], [2, 9], [4, 0]),
    ([(CallKind::Read, 1, 0, true), NEVER], [5, 9], [4, 3]),
    ([(CallKind::Read, 0, 1, false), NEVER], [6, 9], [4, 3]),
    ([(CallKind::Flush, 7, 0, false), NEVER], [7, 9], [4, 3]),
    ([(CallKind::Flush, 0, 1, false), NEVER], [8, 9], [4, 3]),
    ([THIRD_WRITE, THIRD_WRITE], [3, 9], [2, 3]),
    ([THIRD_WRITE, THIRD_WRITE_WITH_EFFECT], [3, 9], [4, 3]),
    ([THIRD_WRITE_WITH_EFFECT, THIRD_WRITE], [3, 9], [4, 3]),
    (
        [(CallKind::Write, 0, 0, false), THIRD_WRITE],
        [0, 3],
        [2, 3],
    ),
];

#[test]
fn planned_faults(rt: HostRuntime) -> Result<(), Fail> {
    let rows = ROWS;
    for (i, &(planned, fail, left)) in rows.iter().enumerate() {
        let mut ok = [true; 9];
        for number in fail {
            if number < 9 {
                ok[number] = false;
            }
        }
        let found = outcome(rt.alloc(), planned)?;
        assert_eq!(rt; (i, found), (i, (ok, left)));
    }
    Ok(())
}

fn device_of_two(alloc: Global) -> Result<MemDisk, AllocError>
    ensures { IfOk result (λ device. length device.opening ≡ 2) }
{
    let mut blocks = Vec::new(alloc);
    blocks.push(block_of(5))?;
    blocks.push(block_of(6))?;
    MemDisk::from_blocks(alloc, blocks)
}

// A read, a write and a flush, and the first byte that was read.
fn call_three(device: &mut MemDisk) -> ([Result<(), Failed>; 3], u8)
    requires { length device.old.opening ≡ 2 }
{
    let mut into = Block::zero();
    let results = [
        device.read(Pbn(1), &mut into),
        device.write(Pbn(0), &block_of(7)),
        device.flush(),
    ];
    (results, into.bytes[0])
}

// The calls of a log, where they are a read, a write and a flush: the blocks, the first bytes, and whether each succeeded.
fn three_calls(calls: &[Call]) -> Option<([u32; 2], [u8; 2], [bool; 3])> {
    let [
        Call::Read { at, bytes, ok },
        Call::Write {
            at: to,
            bytes: written,
            ok: is_written,
        },
        Call::Flush { ok: is_flushed },
    ] = calls
    else {
        return None;
    };
    let first = [bytes.bytes[0], written.bytes[0]];
    Some(([at.0, to.0], first, [*ok, *is_written, *is_flushed]))
}

#[test]
fn a_device(rt: HostRuntime) -> Result<(), Fail> {
    let mut device = device_of_two(rt.alloc())?;
    let size = device.blocks();
    let done = call_three(&mut device);
    let calls = three_calls(device.calls());
    let told = (size, done, device.unkept(), calls);
    let wanted = Some(([1, 0], [6, 7], [true; 3]));
    assert_eq!(rt; told, (2, ([Ok(()), Ok(()), Ok(())], 6), 0, wanted));
    Ok(())
}

// The first byte that a read gives of a block; 9 where it gives none.
fn byte_given(device: &mut RamDisk, at: u32) -> u8
    requires { at < length device.old.opening }
    ensures { device.new.opening ≡ device.old.opening }
{
    let mut into = block_of(9);
    let _ = device.read(Pbn(at), &mut into);
    into.bytes[0]
}

// The first bytes of three blocks at first, whether a write of the second and a flush succeed, and the first bytes then.
fn write_second(device: &mut RamDisk) -> ([u8; 3], [Result<(), Failed>; 2], [u8; 3])
    requires { length device.old.opening ≡ 3 }
{
    let before = [
        byte_given(device, 0),
        byte_given(device, 1),
        byte_given(device, 2),
    ];
    let done = [device.write(Pbn(1), &block_of(7)), device.flush()];
    let after = [
        byte_given(device, 0),
        byte_given(device, 1),
        byte_given(device, 2),
    ];
    (before, done, after)
}

#[test]
fn a_device_without_a_log(rt: HostRuntime) -> Result<(), Fail> {
    let mut device = RamDisk::zeroed(rt.alloc(), 3)?;
    let size = device.blocks();
    let done = write_second(&mut device);
    assert_eq!(rt; (size, done), (3, ([0, 0, 0], [Ok(()), Ok(())], [0, 7, 0])));
    Ok(())
}

// What four takes give of the source, and what they leave.
fn take_four(source: &mut MemSource) -> ([Result<usize, Failed>; 4], [u8; 2]) {
    let mut into = [0; 2];
    let taken = [
        source.take(&mut into),
        source.take(&mut into),
        source.take(&mut into),
        source.take(&mut into),
    ];
    (taken, into)
}

// The second put goes past the room of four, and the third puts nothing.
fn put_three(sink: &mut MemSink) -> [Result<(), Failed>; 3] {
    [
        sink.put(b"abc".as_slice()),
        sink.put(b"de".as_slice()),
        sink.put(b"".as_slice()),
    ]
}

#[test]
fn a_source_and_a_sink(rt: HostRuntime) -> Result<(), Fail> {
    let mut source = MemSource::new(b"abc".to_vec(rt.alloc())?, Some(1));
    let mut sink = MemSink::new(rt.alloc(), 4)?;
    let taken = take_four(&mut source);
    let put = put_three(&mut sink);
    OpenGate.before(ZoneId::Device, 0);
    let kept = first_other(sink.bytes(), b"abcd".as_slice());
    assert_eq!(rt; taken, ([Ok(2), Err(Failed), Ok(1), Ok(0)], *b"cb"));
    assert_eq!(rt; (put, kept), ([Ok(()), Err(Failed), Ok(())], None));
    Ok(())
}
