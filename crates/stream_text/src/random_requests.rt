ghost use Rattle.std.specs.Prelude.{◌≡◌, ◌<◌, ◌≤◌, IfOk};
ghost use Rattle.blk_base.specs.Sectors.{filled_block};
ghost use Rattle.stream_text.specs.Workloads.{drawn_block, drawn_kind, drawn_request, workload_of};

use crate::streams::Streams;
use blk_base::{Block, BoxedBlock, Lba, Request};
use disk_model::{next_state, number_in};
use std::alloc::{AllocError, Global};
use vdo_model::Requests;

/// A request that was drawn, and the state behind it.
#[derive(Drop)]
pub struct Drawn {
    state: u64,
    request: Request,
}

// The block that a byte fills.
#[tactic(auto, unfolding(blk_base::specs::Sectors::filled_block))]
fn filled(byte: u8) -> Block
    ensures { result ≡ filled_block byte }
{
    Block {
        bytes: [byte; 4096],
    }
}

// A request of this kind, 0 to 7.
fn draw_kind(alloc: Global, kind: u32, at: Lba, state: u64) -> Result<Drawn, AllocError>
    ensures { IfOk result (λ drawn. drawn ≡ drawn_kind kind at.0 state) }
{
    if kind < 4 {
        let state = next_state(state);
        let block = BoxedBlock::new(alloc, filled((number_in(state) % 32) as u8))?;
        let request = Request::Write {
            at,
            block,
            fua: false,
        };
        return Ok(Drawn { state, request });
    }
    let request = if kind < 7 {
        Request::Read(at)
    } else {
        Request::Discard(at)
    };
    Ok(Drawn { state, request })
}

// A request below the logical size.
fn draw_block(alloc: Global, logical: u32, state: u64) -> Result<Drawn, AllocError>
    requires { 0 < logical }
    ensures { IfOk result (λ drawn. drawn ≡ drawn_block logical state) }
{
    let first = next_state(state);
    let second = next_state(first);
    let at = Lba(number_in(second) % logical);
    draw_kind(alloc, number_in(first) % 8, at, second)
}

// The request of this number.
fn draw(alloc: Global, logical: u32, i: u32, state: u64) -> Result<Drawn, AllocError>
    requires { 0 < logical }
    ensures { IfOk result (λ drawn. drawn ≡ drawn_request logical i state) }
{
    if i > 0 && i % 64 == 0 {
        let request = Request::Flush;
        return Ok(Drawn { state, request });
    }
    draw_block(alloc, logical, state)
}

/// The requests that a seed gives: so many, dealt out to 1 to 16 streams, at addresses below the logical size. They come as
/// 16 streams. It fails where memory runs out.
pub fn workload(
    alloc: Global,
    seed: u64,
    requests: u32,
    streams: u8,
    logical: u32,
) -> Result<Requests, AllocError>
    requires some { 0 < streams }
    requires streams { streams ≤ 16 }
    requires logical { 0 < logical }
    ensures { IfOk result (λ script. script ≡ workload_of seed streams logical requests) }
{
    let mut rows = Streams::new(alloc)?;
    let mut state = seed;
    for i in 0..requests {
        let drawn = draw(alloc, logical, i, state)?;
        state = drawn.state;
        rows.push((i % u32::from(streams)) as u8, drawn.request)?;
    }
    Ok(rows.into_requests())
}
