ghost use Rattle.std.specs.Prelude.{◌≡◌, ◌≤◌, ◌++◌, IfOk, OnOk, length, flat_map, map};
ghost use Rattle.std.specs.List.{filter_map};
ghost use Rattle.blk_base.specs.Forms.{lba};
ghost use Rattle.crash_images.specs.Addresses.{AreAddresses, address_below};

use blk_base::{Lba, Request};
use std::alloc::{AllocError, Global};
use vdo_model::Requests;

/// The addresses that the reads, writes and discards of a script name, below the logical size (in blocks): rising, each once.
/// The script has at most 256 streams. It fails only where memory runs out.
pub fn addresses_of(
    alloc: Global,
    requests: &Requests,
    logical: u32,
) -> Result<Vec<Lba>, AllocError>
    requires { length requests.now ≤ 256 }
    ensures { IfOk result (λ addresses. AreAddresses requests.now logical addresses.items) }
{
    let mut named = all_named(alloc, requests, logical)?;
    named.sort_unstable();
    named.dedup();
    Ok(addresses_at(alloc, &named)?)
}

// The addresses with these numbers.
fn addresses_at(alloc: Global, numbers: &[u32]) -> Result<Vec<Lba>, AllocError>
    ensures { IfOk result (λ addresses. addresses.items ≡ map lba numbers.now) }
{
    numbers.iter().map(|number| Lba(*number)).collect(alloc)
}

// The addresses below the logical size, stream by stream in the order of the requests.
fn all_named(alloc: Global, requests: &Requests, logical: u32) -> Result<Vec<u32>, AllocError>
    requires { length requests.now ≤ 256 }
    ensures { IfOk result (λ named.
        named.items ≡ flat_map (filter_map (address_below logical)) requests.now) }
{
    let mut named = Vec::new(alloc);
    for stream in 0..requests.count() {
        add_named(requests.stream(stream as u8), logical, &mut named)?;
    }
    Ok(named)
}

// Adds those of one stream.
fn add_named(requests: &[Request], logical: u32, named: &mut Vec<u32>) -> Result<(), AllocError>
    ensures { OnOk result
        (named.new.items
        ≡ named.old.items ++ filter_map (address_below logical) requests.now) }
{
    for request in requests {
        if let Some(address) = address_below(request, logical) {
            named.push(address)?;
        }
    }
    Ok(())
}

// The address of a request, where it has one below the logical size.
fn address_below(request: &Request, logical: u32) -> Option<u32>
    ensures { result ≡ address_below logical request.now }
{
    let at = match request {
        Request::Read(at) | Request::Discard(at) => *at,
        Request::Write { at, .. } => *at,
        Request::Flush => return None,
    };
    if at.0 < logical { Some(at.0) } else { None }
}
