//! What recovery keeps: the laws over definitions alone by which an image says the same at each moment of it.
//!
//! `specs/Kept` says what is kept of a sound image, and `Recoverable` of one that isn't for its counts alone; `Written` which
//! blocks are written, `Calls` in which order. While they are written a page may be mixed by sectors (`AreUnderway`); once
//! all is on the device (`AreFull`) no window is needed. The proof has three parts: over images alone
//! (`proofs/RecoverableLaws`, and what soundness adds: `SoundLaws`), over the contents of one block (`PutLaws`), and over
//! logs (`StopLaws`, `CallLaws`, `ShowLaws`), where only the last says which images these are.
//!
//! Not there: that a page into which the window puts nothing, or a block of counters without an update, isn't written.
//! Of what is kept, a page has its header and what its slots say, the counters give the stored counts, and block 0 has
//! the old superblock or the one that recovery writes: nothing else is said of their bytes, as of a commit point or of
//! block 0's other sectors.
#![tactic(auto)]

mod laws;

pub use laws::{
    blocks_underway_say_the_same, recovery_keeps_a_wrong_count, recovery_keeps_what_an_image_says,
    the_index_says_nothing,
};
