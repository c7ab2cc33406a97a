//! An image whose last session wasn't closed is made one that was, and says the same then; one that was closed is opened for a
//! session.
//!
//! What a part of the code does is said from any start on (`specs/Acts`): after calls of one kind more of it were made, and
//! this was written; or one of them failed. For the pages they are reads and writes of pages, from any image on whose
//! pages may be written: so `put_pages` is said for others that write them. For the rest they are those of recovery, and
//! a law makes the pages' ones these (`proofs/PageLaws`). A page that is read again is a mix of what was there and what
//! was written, of which the slots that the window leaves are known (`proofs/WrittenLaws`).
//! What is needed of the image is a premise (`specs/Done`): on a device that isn't honest it may not hold, and then
//! only the counts and the log are spoken of (`Grows`).
//!
//! Only tested: images of heights 2 and 3, with windows that go round the ring, updates at, below and above a commit
//! point, and two sectors of counters; stopped at each call, with three images each, and within each write with each
//! sector alone new, and alone old, and recovered again; how many calls are made. What three closed images are opened
//! with, and that each call that fails, alone or with those behind it, is answered by `Device`, with no write. Images
//! of which a field is at its least, at its greatest, one below or one past it, for each field of each block that is
//! read (501 that are opened, 270 that are recovered; of heights 2 and 3, with new pages in their windows); and 2,000
//! of which a block has random bytes: each is opened, recovered or refused as an audit says, and no refusal writes.
//!
//! Not there: which calls a device that isn't honest sees behind the reads; of `Device`, that the failed call is a
//! write or a read that recovery needs. Of an image with blocks of its recovery journal from a
//! later time, nothing is said of what recovery leaves.
//!
//! No rows yet: what was read of a block (`ReadsOne`); an accepted case of an image with a wrong count
//! (`HasWrongCount`), of pages and slabs that were read (`IsOpenedWith`), and of a refusal by the image for a fault
//! behind its superblock. What an honest device's image is after recovery is said in the words of `recovery_laws`,
//! which has rows.
#![tactic(auto)]

mod clean_image;
mod counters;
mod forms;
mod laws;
mod pages;
mod recovery;
mod unclean;

pub use clean_image::open_clean;
pub use forms::Recovered;
pub use laws::{a_wrong_count_stays, recovered_once_for_all};
pub use pages::put_pages;
pub use recovery::recover;
