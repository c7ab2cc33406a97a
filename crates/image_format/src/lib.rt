//! Makes an empty image on a device, so that a stop at any moment leaves what the old image said, or no image, or an empty
//! one.
//!
//! What the code does is a list of calls (`specs/Calls`), made whole or up to one that failed (`specs/Runs`,
//! `proofs/RunLaws`). What a stop leaves of such a list is a law over logs alone (`proofs/StopLaws`): `AtEach` goes
//! through it call by call, each as it succeeds and as it fails. A call of the middle part is only known to write a
//! place of the image what an empty image has there (`IsRight`), so the order of these writes is free. The fields of
//! the superblock stand in sector 0, which a stop leaves whole.
//!
//! Only tested: sizes that fit exactly and by one block not, two slabs, height 3; over an older image, a stop at each
//! call with one picked image, and at the ends with three; calls that fail in turn.
//!
//! Not there: that a block and a page fit the stack.
#![tactic(auto)]

pub mod calls;
mod fault;
mod formatter;

pub use fault::FormatFault;
pub use formatter::format;
