ghost use Rattle.std.specs.Prelude.{◌≡◌, ◌<◌, ◌≤◌, Ok, IfOk, IfErr, length};
ghost use Rattle.stream_text.specs.LineGrammar.{stream_asked};
ghost use Rattle.stream_text.specs.StreamRequests.{count_of, requests_of, with_asked};
ghost use Rattle.stream_text.specs.WholeScript.{after_text};
ghost use Rattle.stream_text.specs.ReadingBytes.{StopsLine, IsAdded};

use crate::asked::{Asked, asked_of};
use crate::refusal::{AddFault, LineFault};
use crate::streams::Streams;

/// How many requests a script may have.
const MOST_REQUESTS: u64 = 65536;

// How many requests a line asks for.
// Long to prove: a range of addresses is counted.
fn requests_asked(asked: &Asked) -> u64
    ensures count { result ≡ length (requests_of asked.now) }
    ensures few { result ≤ 4294967296 }
{
    match asked {
        Asked::One { .. } => 1,
        Asked::Discards { at, last, .. } => u64::from(last.saturating_sub(*at)) + 1,
    }
}

/// Adds what a line asks for to its stream. The count, before and in the result, is that of all requests so far.
fn add_asked(streams: &mut Streams, count: u64, asked: Asked) -> Result<u64, AddFault>
    requires rows { length streams.old ≡ 16 }
    requires counted { count ≡ count_of streams.old }
    requires few { count ≤ 65536 }
    requires stream { stream_asked asked < 16 }
    ensures rows { length streams.new ≡ 16 }
    ensures ok { IfOk result (IsAdded (with_asked streams.old (Ok asked)) streams.new) }
    ensures stopped { IfErr result (λ stop. StopsLine stop (with_asked streams.old (Ok asked))) }
{
    let count = count + requests_asked(&asked);
    if count > MOST_REQUESTS {
        return Err(AddFault::Fault(LineFault::TooMany));
    }
    match streams.push_asked(asked) {
        Ok(()) => Ok(count),
        Err(_) => Err(AddFault::Memory),
    }
}

/// Adds what the text of a line asks for. The count, before and in the result, is that of all requests so far.
pub(crate) fn add_line(streams: &mut Streams, count: u64, text: &[u8]) -> Result<u64, AddFault>
    requires rows { length streams.old ≡ 16 }
    requires counted { count ≡ count_of streams.old }
    requires few { count ≤ 65536 }
    ensures rows { length streams.new ≡ 16 }
    ensures ok { IfOk result (IsAdded (after_text streams.old text.now) streams.new) }
    ensures stopped { IfErr result (λ stop. StopsLine stop (after_text streams.old text.now)) }
{
    if text.is_empty() || text[0] == b'#' {
        return Ok(count);
    }
    match asked_of(streams.alloc(), text) {
        Ok(asked) => add_asked(streams, count, asked),
        Err(stop) => Err(stop),
    }
}
