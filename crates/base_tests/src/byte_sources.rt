//! Scripts from sources that give little at a time, or fail; and each answer that a request can have, put to a sink with little room.
use blk_base::{Answer, Block, BoxedBlock, Writer};
use disk_model::{Failed, MemSink, MemSource, Source};
use std::alloc::{AllocError, Global};
use std::test::Fail;
use stream_text::{AnswerRoom, LineFault, ReadScript, ScriptFault, put_answers, read_script};
use test_images::{first_other, not_shown};
use vdo_model::{DeskLine, Placed, ReportList, Requests, RunReport};

/// A source that gives one byte at a time.
#[derive(Drop)]
struct Trickle {
    source: MemSource,
}

impl Source for Trickle {
    ghost use Rattle.std.specs.Prelude.{false, []};

    ghost tells = { false };

    ghost seen = { λ s. record { left = []; faults = s.source.faults } };

    fn take(&mut self, into: &mut [u8]) -> Result<usize, Failed> {
        self.source.take(&mut into[..1])
    }
}

fn source(alloc: Global, text: &[u8], fails_at: Option<u64>) -> Result<MemSource, AllocError> {
    Ok(MemSource::new(Vec::from_slice(alloc, text)?, fails_at))
}

/// How many requests the streams 3 and 9 of a script have.
type Told = Result<(usize, usize), ReadScript>;

fn lengths(script: Requests) -> (usize, usize) {
    (script.stream(3).len(), script.stream(9).len())
}

/// How a text reads byte by byte.
fn trickled(alloc: Global, text: &[u8]) -> Result<Told, AllocError> {
    let mut trickle = Trickle {
        source: source(alloc, text, None)?,
    };
    Ok(read_script(alloc, &mut trickle).map(lengths))
}

#[test]
fn a_script_is_read_byte_by_byte(rt: HostRuntime) -> Result<(), Fail> {
    let served = trickled(rt.alloc(), b"3 flush\n9 read 5\n#\n3 discard 5 3\n9 flush")?;
    let refused = trickled(rt.alloc(), b"3 flush\n\n9 read x")?;
    let refusal = ScriptFault {
        line: 3,
        fault: LineFault::Number,
    };
    assert_eq!(rt;
        [served, refused],
        [Ok((4, 2)), Err(ReadScript::Script(refusal))]
    );
    Ok(())
}

/// What becomes of a script whose source fails at the take with this number.
fn failing(alloc: Global, fails_at: u64) -> Result<Told, AllocError> {
    let mut failing = source(alloc, b"3 flush\n", Some(fails_at))?;
    Ok(read_script(alloc, &mut failing).map(lengths))
}

#[test]
fn a_source_fails(rt: HostRuntime) -> Result<(), Fail> {
    let told = [failing(rt.alloc(), 0)?, failing(rt.alloc(), 1)?];
    assert_eq!(rt; told, [Err(ReadScript::Read); 2]);
    let texts = [
        (ReadScript::Read, "read fault"),
        (ReadScript::Memory, "no memory"),
    ];
    assert_eq!(rt; not_shown(rt.alloc(), &texts), None);
    Ok(())
}

const SCRIPT: &[u8] =
    b"0 write 5 4096*41\n0 read 5\n0 flush\n0 read 5\n0 discard 7 1\n0 read 4000\n0 write 8 4096*41\n0 discard 9 1\n0 flush\n15 discard 15 1\n15 read 16\n15 flush\n";

fn name(stream: u8, number: u32) -> Writer {
    Writer { stream, number }
}

/// The first request is answered twice, the last of stream 0 not at all, and one that isn't there is answered.
fn desk(alloc: Global) -> Result<ReportList<DeskLine>, AllocError> {
    let mut block = Block { bytes: [0; 4096] };
    block.bytes[0] = 65;
    let mut lines = Vec::new(alloc);
    for (request, answer) in [
        (name(15, 0), Answer::NoSpace),
        (name(0, 0), Answer::Stopped),
        (name(0, 1), Answer::Bytes(BoxedBlock::new(alloc, block)?)),
        (name(0, 2), Answer::Stopped),
        (name(0, 3), Answer::ReadFault),
        (name(0, 4), Answer::Damaged),
        (name(15, 2), Answer::Ok),
        (name(0, 5), Answer::Range),
        (name(0, 9), Answer::Ok),
        (name(0, 0), Answer::Ok),
        (name(0, 6), Answer::NoSpace),
        (name(0, 7), Answer::Full),
        (name(15, 1), Answer::ReadFault),
    ] {
        lines.push(DeskLine::Begin { request })?;
        lines.push(DeskLine::Answer { request, answer })?;
    }
    Ok(ReportList::from_vec(lines))
}

/// The stream and number of a request, and the zone and place in which it was served.
static PLACES: [(u8, u32, u32, u64); 9] = [
    (15, 1, 7, 0),
    (0, 0, 1, 70_000),
    (15, 0, 59, 2),
    (0, 9, 1, 1),
    (0, 1, 1, 3),
    (0, 3, 0, 4),
    (0, 4, 12, 0),
    (0, 6, 0, 7),
    (0, 7, 0, 8),
];

/// A run whose requests were answered so. There is none where the script is refused.
fn report(alloc: Global) -> Result<Option<RunReport>, AllocError> {
    let mut places = Vec::new(alloc);
    for (stream, number, zone, place) in PLACES {
        places.push(Placed {
            request: name(stream, number),
            zone,
            place,
        })?;
    }
    let desk = desk(alloc)?;
    let Ok(requests) = read_script(alloc, &mut source(alloc, SCRIPT, None)?) else {
        return Ok(None);
    };
    Ok(Some(RunReport {
        requests,
        desk,
        marks: ReportList::new(alloc),
        receipts: ReportList::new(alloc),
        places: ReportList::from_vec(places),
        histories: ReportList::new(alloc),
        damage: None,
        used: 0,
        total: 0,
    }))
}

const ANSWERS: &[u8] = b"0 0 write 5 ok z1:70000
0 1 read 5 1*41+4095*00 z1:3
0 2 flush stopped
0 3 read 5 read fault z0:4
0 4 discard 7 damaged z12:0
0 5 read 4000 range
0 6 write 8 no space z0:7
0 7 discard 9 full z0:8
15 0 discard 15 no space z59:2
15 1 read 16 read fault z7:0
15 2 flush ok
";

/// What a put gives, and where the sink holds other bytes then.
type Put = (Result<(), Failed>, Option<usize>);

/// Puts the answers of a report into a sink with this room.
fn put(alloc: Global, report: &RunReport, room: usize, want: &[u8]) -> Result<Put, AllocError> {
    let mut out = MemSink::new(alloc, room)?;
    let mut answers = AnswerRoom::with_room_for(alloc, &report.requests)?;
    let put = put_answers(&report.requests, report, &mut answers, &mut out);
    Ok((put, first_other(out.bytes(), want)))
}

#[test]
fn each_answer_is_put(rt: HostRuntime) -> Result<(), Fail> {
    let Some(report) = report(rt.alloc())? else {
        assert_eq!(rt; "served", "refused");
        return Ok(());
    };
    let whole = put(rt.alloc(), &report, 1000, ANSWERS)?;
    let cut = put(rt.alloc(), &report, 30, b"0 0 write 5 ok z1:70000\n0 1 re")?;
    assert_eq!(rt; [whole, cut], [(Ok(()), None), (Err(Failed), None)]);
    Ok(())
}
