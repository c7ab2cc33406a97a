ghost use Rattle.std.specs.Prelude.{◌≡◌, ◌<◌, ◌+◌, ◌-◌, ◌++◌, ◌∷◌, [], IfOk, OnOk, OnErr, length, map, slice_set};
ghost use Rattle.stream_text.specs.LineGrammar.{stream_asked};
ghost use Rattle.stream_text.specs.StreamRequests.{no_requests, with_requests, discards, requests_of};

use crate::asked::Asked;
use blk_base::{Lba, Request};
use std::alloc::{AllocError, Global};
use std::marker::Model;
use vdo_model::Requests;

/// The requests of 16 streams that are read line by line.
#[derive(Drop)]
pub struct Streams {
    rows: Vec<Vec<Request>>,
}

impl Model for Streams {
    ghost use Rattle.std.specs.Prelude.{List, map};
    ghost use Rattle.blk_base.specs.declared.request.Request.{Request};

    ghost Value = { List (List Request) };

    ghost view = { λ r. map (λ row. row.items) r.rows.items };
}

impl Streams {
    // Long to prove: each way out while what was taken is alive has searches of its own.
    /// No stream has a request. It fails where memory runs out.
    pub(crate) fn new(alloc: Global) -> Result<Streams, AllocError>
        ensures { IfOk result (λ streams. streams ≡ no_requests) }
    {
        let mut rows = Vec::with_capacity(alloc, 16)?;
        for _ in 0..16_u8 {
            rows.push_reserved(Vec::new(alloc));
        }
        Ok(Streams { rows })
    }

    /// The allocator of the requests.
    pub(crate) fn alloc(&self) -> Global {
        *self.rows.allocator()
    }

    /// One more request of a stream. It fails where memory runs out, and then changes nothing.
    pub(crate) fn push(&mut self, stream: u8, request: Request) -> Result<(), AllocError>
        requires { stream < length self.old }
        ensures ok { OnOk result (self.new ≡ with_requests self.old stream (request ∷ [])) }
        ensures err { OnErr result (self.new ≡ self.old) }
    {
        self.rows[usize::from(stream)].push(request)?;
        Ok(())
    }

    // Discards of the addresses from the first to the last.
    fn push_discards(&mut self, stream: u8, at: u32, last: u32) -> Result<(), AllocError>
        requires { stream < length self.old }
        ensures rows { length self.new ≡ length self.old }
        ensures ok { OnOk result (self.new
            ≡ with_requests self.old stream (discards at (last - at + 1))) }
    {
        let count = u64::from(last.saturating_sub(at)) + 1;
        for number in 0..count {
            self.push(stream, Request::Discard(Lba(at + number as u32)))?;
        }
        Ok(())
    }

    /// Adds what a line asks for. It fails where memory runs out; then some of it may be there.
    pub(crate) fn push_asked(&mut self, asked: Asked) -> Result<(), AllocError>
        requires { stream_asked asked < length self.old }
        ensures rows { length self.new ≡ length self.old }
        ensures ok { OnOk result (self.new
            ≡ with_requests self.old (stream_asked asked) (requests_of asked)) }
    {
        match asked {
            Asked::One { stream, request } => self.push(stream, request),
            Asked::Discards { stream, at, last } => self.push_discards(stream, at, last),
        }
    }

    /// The requests.
    pub(crate) fn into_requests(self) -> Requests
        ensures { result ≡ self }
    {
        Requests::of_streams(self.rows)
    }
}
