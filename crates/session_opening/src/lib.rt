//! What a session starts with, made of what was read of a whole image: its pages that are no leaves, its stored counts and
//! the points of their sectors, and the blocks of its pages. It reads nothing.
//!
//! What is asked for grows with what is used: for each linked page some 24 bytes, and its mappings where it is no leaf; and
//! for each data block one byte, for each sector of counters eight.
//!
//! No rows yet: that pages which are made by the links are those of the image, each and once, is a law
//! (`proofs/StartLaws`, `inner_pages`), and no row.
#![tactic(auto)]

mod counts;
mod pages;
mod places;
mod session_start;

pub use session_start::opened_of;
