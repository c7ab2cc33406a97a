ghost use Rattle.std.specs.Prelude.{◌≡◌, [], ◌∷◌, IfOk, length, map};
ghost use Rattle.vdo_model.specs.Scripts.{stream_of};

use blk_base::{Request, Writer};
use std::alloc::{AllocError, Global};
use std::marker::Model;

/// The requests of a script: for each stream the list of its requests.
#[derive(Drop)]
pub struct Requests {
    streams: Vec<Vec<Request>>,
}

impl Model for Requests {
    ghost use Rattle.std.specs.Prelude.{List, map};
    ghost use Rattle.blk_base.specs.declared.request.Request.{Request};

    ghost Value = { List (List Request) };

    ghost view = { λ r. map (λ row. row.items) r.streams.items };
}

impl Requests {
    /// No stream has a request.
    pub fn new(alloc: Global) -> Requests
        ensures { result ≡ [] }
    {
        Requests {
            streams: Vec::new(alloc),
        }
    }

    /// The requests of stream 0 alone. It fails where memory runs out.
    pub fn of_stream(alloc: Global, requests: Vec<Request>) -> Result<Requests, AllocError>
        ensures { IfOk result (λ script. script ≡ requests.items ∷ []) }
    {
        let mut streams = Vec::with_capacity(alloc, 1)?;
        streams.push_reserved(requests);
        Ok(Requests { streams })
    }

    /// The requests of these streams.
    pub fn of_streams(streams: Vec<Vec<Request>>) -> Requests
        ensures { result ≡ map (λ requests. requests.items) streams.items }
    {
        Requests { streams }
    }

    /// How many streams there are.
    pub fn count(&self) -> usize
        ensures { result ≡ length self.now }
    {
        self.streams.len()
    }

    /// The requests of a stream, in order; none where the script has no such stream.
    pub fn stream(&self, stream: u8) -> &[Request]
        ensures { result.now ≡ stream_of self.now stream }
    {
        match self.streams.get(usize::from(stream)) {
            Some(requests) => requests.as_slice(),
            None => &[],
        }
    }
}
