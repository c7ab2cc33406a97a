//! What the slabs of an image say of the counts of their data blocks, read from a device: their reference blocks and their
//! journals.
//!
//! Behind its data a slab has reference blocks, and then the blocks of its journal. Each of them is read once, slab after
//! slab; of a journal's block each valid sector counts, whatever its sequence.
#![tactic(auto)]

mod slab_parts;
mod slab_reader;
mod slabs;

pub use slabs::read_slabs;
