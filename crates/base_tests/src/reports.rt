use blk_base::{Lba, Request, Writer};
use std::alloc::{AllocError, Global};
use std::test::Fail;
use vdo_model::{Placed, ReportList, Requests};

fn stream_of_two(alloc: Global) -> Result<Requests, AllocError> {
    let mut row = Vec::new(alloc);
    row.push(Request::Read(Lba(5)))?;
    row.push(Request::Flush)?;
    Requests::of_stream(alloc, row)
}

#[test]
fn lists_and_streams_are_kept(rt: HostRuntime) -> Result<(), Fail> {
    let placed = Placed {
        request: Writer {
            stream: 0,
            number: 3,
        },
        zone: 0,
        place: 7,
    };
    let requests = stream_of_two(rt.alloc())?;
    let rows = ReportList::from_vec(vec![in rt.alloc(); placed]?);
    let none: ReportList<Placed> = ReportList::new(rt.alloc());
    let first = match rows.as_slice().first() {
        Some(first) => (first.request, first.zone, first.place),
        None => (placed.request, 9, 9),
    };
    let streams = [requests.stream(0).len(), requests.stream(1).len()];
    let of_none = Requests::new(rt.alloc()).stream(0).len();
    assert_eq!(rt;
        (first, rows.as_slice().len(), none.as_slice().len()),
        ((placed.request, 0, 7), 1, 0)
    );
    assert_eq!(rt; (streams, of_none), ([2, 0], 0));
    Ok(())
}
