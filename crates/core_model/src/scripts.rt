ghost use Rattle.std.specs.Prelude.{◌≡◌, ◌≤◌, ◌↔◌, IsTrue, length};
ghost use Rattle.core_model.specs.SessionLimits.{asks_read, most_requests, most_streams, most_under_way_in, reads_in, requests_in};
ghost use Rattle.plain_laws.specs.Sums.{total};

use blk_base::Request;
use data_vio::{MOST_DEPTH, MOST_REQUESTS, MOST_STREAMS};
use vdo_model::Requests;

// Long to prove: the numbers are shown to fit for each index.
/// How many requests there are.
pub(crate) fn count_requests(requests: &Requests) -> usize
    requires streams { length requests.now ≤ most_streams }
    requires few { requests_in requests.now ≤ most_requests }
    ensures { result ≡ requests_in requests.now }
{
    let mut count = 0;
    for stream in 0..requests.count() {
        count += requests.stream(stream as u8).len();
    }
    count
}

/// How many requests may be under way: at most 16 of each stream, and no more than it has.
pub(crate) fn count_under_way(requests: &Requests) -> usize
    requires { length requests.now ≤ most_streams }
    ensures { result ≡ most_under_way_in requests.now }
{
    let mut count = 0;
    for stream in 0..requests.count() {
        count += requests.stream(stream as u8).len().min(MOST_DEPTH);
    }
    count
}

// How many of these requests are reads.
fn count_row(requests: &[Request]) -> usize
    ensures { result ≡ total asks_read requests.now }
{
    let mut count = 0;
    for request in requests {
        if let Request::Read(_) = request {
            count += 1;
        }
    }
    count
}

/// How many requests are reads.
pub(crate) fn count_reads(requests: &Requests) -> usize
    requires streams { length requests.now ≤ most_streams }
    requires few { requests_in requests.now ≤ most_requests }
    ensures { result ≡ reads_in requests.now }
{
    let mut count = 0;
    for stream in 0..requests.count() {
        count += count_row(requests.stream(stream as u8));
    }
    count
}

/// Whether a script is no larger than it may be: it has at most 16 streams, and at most 65,536 requests in all.
pub fn is_limited(requests: &Requests) -> bool
    ensures { IsTrue result ↔ (length requests.now ≤ most_streams)
        × (requests_in requests.now ≤ most_requests) }
{
    if requests.count() > MOST_STREAMS {
        return false;
    }
    let mut count = 0;
    for stream in 0..requests.count() {
        count += requests.stream(stream as u8).len();
        if count > MOST_REQUESTS {
            return false;
        }
    }
    true
}
