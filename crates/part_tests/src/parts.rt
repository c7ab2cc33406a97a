use blk_base::Point;
use handed_parts::HandedParts;
use std::test::Fail;

// One entry: its slot is of zone 0, and zone 1 counts a block down.
#[test]
fn a_watermark_waits_for_each_part_and_for_the_low_point(rt: HostRuntime) -> Result<(), Fail> {
    let front = Point(514);
    let mut parts = HandedParts::new(rt.alloc(), 2, 2)?;
    let opened = (parts.has_room(), parts.watermark(1, front));
    parts.hand_out(0, Point(512));
    parts.hand_out(1, Point(513));
    let handed = (parts.has_room(), parts.watermark(1, front));
    let out = [parts.is_out(1, Point(513)), parts.is_out(0, Point(513))];
    parts.report(1, Some(Point(513)), Some(Point(513)));
    let reported = (parts.is_out(1, Point(513)), parts.watermark(1, front));
    parts.report(1, None, None);
    let durable = [parts.watermark(0, front), parts.watermark(1, front)];
    let low = Point(512);
    assert_eq!(rt;
        (opened, handed, out, reported, durable),
        (
            (true, front),
            (false, low),
            [true, false],
            (false, low),
            [low, front]
        )
    );
    Ok(())
}
