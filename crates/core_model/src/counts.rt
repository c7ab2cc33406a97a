ghost use Rattle.std.specs.Prelude.{◌≡◌, ◌+◌, ◌-◌, ◌^◌, ◌<◌, length, replicate, slice_index_or, slice_set};
ghost use Rattle.core_model.specs.SessionLimits.{most_streams};

use data_vio::MOST_STREAMS;
use std::marker::Model;

/// A number for each stream that a script may have, from 0 to 2^32 - 1: how many of its requests are begun, or answered.
#[derive(Drop)]
pub(crate) struct StreamCounts {
    counts: [u32; MOST_STREAMS],
}

impl Model for StreamCounts {
    ghost use Rattle.std.specs.Prelude.{List, ℕ};

    ghost Value = { List ℕ };

    ghost view = { λ s. s.counts };
}

impl StreamCounts {
    /// None of any stream.
    pub(crate) fn new() -> StreamCounts
        ensures { result ≡ replicate most_streams 0 }
    {
        StreamCounts {
            counts: [0; MOST_STREAMS],
        }
    }

    /// How many of this stream.
    pub(crate) fn of(&self, stream: u8) -> u32
        requires { stream < length self.now }
        ensures { result ≡ slice_index_or self.now stream 0 }
    {
        self.counts[usize::from(stream)]
    }

    /// One more of this stream; nothing changes where no script may have it.
    pub(crate) fn raise(&mut self, stream: u8)
        requires { slice_index_or self.old stream 0 < 2 ^ 32 - 1 }
        ensures { self.new ≡ slice_set self.old stream (slice_index_or self.old stream 0 + 1) }
    {
        let place = usize::from(stream);
        if place < MOST_STREAMS {
            self.counts[place] += 1;
        }
    }
}
