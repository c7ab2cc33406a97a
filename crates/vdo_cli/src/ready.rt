ghost use Rattle.std.specs.Prelude.{◌≡◌, ◌<◌, ◌^◌, IfOk, IfErr};
ghost use Rattle.vdo_cli.specs.Openings as openings;
ghost use Rattle.vdo_cli.specs.Openings.{IsReady, IsUnready};

use blk_base::Opened;
use disk_model::Disk;
use image_model::ImageFault;
use rebuild::{Recovered, open_clean, recover};
use std::alloc::Global;

/// An image that is ready for a session: what was recovered of it, and what the session starts with.
#[derive(Drop)]
pub(crate) struct Ready {
    pub(crate) found: Recovered,
    pub(crate) start: Opened,
}

/// Why an image isn't ready, and how many entries were recovered before.
#[derive(Clone, Copy)]
pub(crate) struct OpeningFault {
    pub(crate) recovered: Option<u32>,
    pub(crate) why: ImageFault,
}

/// How many entries were recovered, where there was a recovery.
pub(crate) fn recovered_of(found: Recovered) -> Option<u32>
    ensures { result ≡ openings.recovered_of found }
{
    match found {
        Recovered::Clean => None,
        Recovered::Entries(count) => Some(count),
    }
}

/// Recovers the image where its last session wasn't closed, and opens it.
pub(crate) fn get_ready<D: Disk>(alloc: Global, device: &mut D) -> Result<Ready, OpeningFault>
    ensures ready { IfOk result (λ ready. IsReady D.trust
        (D.seen device.old) (D.seen device.new) ready.found ready.start) }
    ensures named { IfOk result (λ ready. ready.start.head.geometry.nonce < 2 ^ 64) }
    ensures unready { IfErr result (λ not. IsUnready D.trust
        (D.seen device.old) (D.seen device.new) not.recovered not.why) }
{
    let found = match recover(alloc, device) {
        Ok(found) => found,
        Err(why) => {
            return Err(OpeningFault {
                recovered: None,
                why,
            });
        }
    };
    match open_clean(alloc, device) {
        Ok(start) => Ok(Ready { found, start }),
        Err(why) => Err(OpeningFault {
            recovered: recovered_of(found),
            why,
        }),
    }
}
