use audit::audit;
use disk_model::{Call, MemDisk};
use image_model::ImageFault;
use rebuild::{Recovered, open_clean, recover};
use std::alloc::Global;

/// What an image that is said to be closed is opened with: how many data blocks are used. Or how many entries an image is
/// recovered by; none where it is said to be closed. Or why it isn't.
pub type Answer = Result<Option<u32>, ImageFault>;

pub fn opened(alloc: Global, device: &mut MemDisk) -> Answer {
    let opened = match open_clean(alloc, device) {
        Ok(opened) => opened,
        Err(fault) => return Err(fault),
    };
    let mut used = 0_u32;
    for &counter in &opened.counters {
        used = used.saturating_add(u32::from(counter > 0));
    }
    Ok(Some(used))
}

pub fn recovered(alloc: Global, device: &mut MemDisk) -> Answer {
    match recover(alloc, device) {
        Ok(Recovered::Clean) => Ok(None),
        Ok(Recovered::Entries(count)) => Ok(Some(count)),
        Err(fault) => Err(fault),
    }
}

/// Whether nothing was done but reads.
pub fn is_read(device: &MemDisk) -> bool {
    for call in device.calls() {
        let Call::Read { .. } = call else {
            return false;
        };
    }
    true
}

/// What an audit says that opening the image must answer, where it is said to be closed.
pub fn audited(alloc: Global, device: &mut MemDisk) -> Answer {
    let report = match audit(alloc, device) {
        Ok(report) => report,
        Err(fault) => return Err(fault),
    };
    match report.differs.first() {
        None => Ok(Some(report.used)),
        Some(first) => Err(ImageFault::Counts {
            at: first.at,
            stored: first.stored,
            mapped: first.mapped,
        }),
    }
}
