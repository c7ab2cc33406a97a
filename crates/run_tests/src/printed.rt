//! Texts with numbers that no image and no script of the cases has, and those of requests for sectors, which no command prints.
use audit::{Difference, Report};
use blk_base::{Lba, Pbn, Writer};
use command_text::{
    SectorAnswer, SectorAsked, SectorLine, Space, put_audit, put_image_fault, put_sectors,
};
use disk_model::MemSink;
use image_layout::SuperFault;
use image_model::ImageFault;
use std::test::Fail;

static DIFFERENCES: [Difference; 2] = [
    Difference {
        at: Pbn(86),
        stored: 2,
        mapped: 1,
    },
    Difference {
        at: Pbn(4294967295),
        stored: 254,
        mapped: 18446744073709551615,
    },
];

const GREATEST: &[u8] = b"bad image: version 4294967295
bad image: window 36028797018963967
block 86 stored 2 mapped 1
block 4294967295 stored 254 mapped 18446744073709551615
audit differs 2
";

#[test]
fn the_greatest_numbers_are_put(rt: HostRuntime) -> Result<(), Fail> {
    let mut out = MemSink::new(rt.alloc(), 1000)?;
    let report = Report {
        differs: Vec::from_slice(rt.alloc(), &DIFFERENCES)?,
        used: 2,
        total: 64,
    };
    let window = ImageFault::Window {
        sequence: 36028797018963967,
    };
    let version = ImageFault::Super(SuperFault::Version(4294967295));
    put_image_fault(version, &mut out)?;
    put_image_fault(window, &mut out)?;
    put_audit(&report, &mut out)?;
    assert_eq!(rt; out.bytes(), GREATEST);
    Ok(())
}

fn line(
    (stream, number): (u8, u32),
    asked: SectorAsked,
    answer: SectorAnswer<'static>,
) -> SectorLine<'static> {
    SectorLine {
        request: Writer { stream, number },
        asked,
        answer,
    }
}

const SECTORS: &[u8] = b"0 0 write 5 2 ok
0 1 read 5 2 512*61
15 70 flush ok
15 71 write 900 7 no space
used 2 of 64
";

#[test]
fn sectors_are_put(rt: HostRuntime) -> Result<(), Fail> {
    let mut out = MemSink::new(rt.alloc(), 1000)?;
    let at = Lba(5);
    let last = SectorAsked::Write {
        at: Lba(900),
        sector: 7,
    };
    let read = SectorAsked::Read { at, sector: 2 };
    let lines = [
        line(
            (0, 0),
            SectorAsked::Write { at, sector: 2 },
            SectorAnswer::Ok,
        ),
        line((0, 1), read, SectorAnswer::Bytes(&[97; 512])),
        line((15, 70), SectorAsked::Flush, SectorAnswer::Ok),
        line((15, 71), last, SectorAnswer::NoSpace),
    ];
    put_sectors(&lines, Space { used: 2, total: 64 }, &mut out)?;
    assert_eq!(rt; out.bytes(), SECTORS);
    Ok(())
}
